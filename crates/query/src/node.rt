//! Nodes of a filter.
ghost use Rattle.std.specs.Prelude.{◌≡◌};
ghost use Rattle.query.specs.Format.{kind_of};

use crate::kind::Kind;
use crate::place::Place;

// Kept as numbers: a node may be named more than once, and its number is what the bytes have.
/// A node of a filter. A node that it names is given by its number, counted from 0 in the same filter.
#[derive(Clone, Copy)]
pub enum Node {
    /// The two places have equal values.
    Equal(Place, Place),
    /// The value of the first place is less than that of the second.
    Less(Place, Place),
    /// The variable has a value.
    Bound(u32),
    /// The node does not hold.
    Not(u32),
    /// Both nodes hold.
    And(u32, u32),
    /// One of the nodes holds.
    Or(u32, u32),
}

impl Node {
    /// The kind of the node.
    pub(crate) fn kind(&self) -> Kind
        ensures { result ≡ kind_of self.now }
    {
        match self {
            Node::Equal(_, _) => Kind::Equal,
            Node::Less(_, _) => Kind::Less,
            Node::Bound(_) => Kind::Bound,
            Node::Not(_) => Kind::Not,
            Node::And(_, _) => Kind::And,
            Node::Or(_, _) => Kind::Or,
        }
    }
}
