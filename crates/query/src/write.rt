//! Writing a query.
ghost use Rattle.std.specs.Prelude.{◌≡◌, true};
ghost use Rattle.query.specs.Format.{triple_bytes, node_bytes, operand_bytes, part_bytes, group_bytes};
ghost use Rattle.query.specs.Format.{bytes_of};
ghost use Rattle.query.specs.Lawful.{lawful_triple, lawful_part, lawful_group};
ghost use Rattle.query.specs.Parts.{part_of, group_of};
ghost use Rattle.query.specs.Shape.{shape};
ghost use Rattle.query.specs.Writes.{Fits, Puts, Written, places_lawful};

use crate::alternative::Alternative;
use crate::block::Block;
use crate::node::Node;
use crate::pattern::TriplePattern;
use crate::put::{Coded, Writer};
use crate::query::Query;
use refusal::refusal::Refusal;
use refusal::rejection::Rejection;

impl Coded for TriplePattern {
    ghost code = { triple_bytes };

    ghost sound = { λ t. lawful_triple t ≡ true };

    fn put(&self, writer: &mut Writer<'_>) {
        (self.subject, (self.property, self.object)).put(writer);
    }
}

/// Writes what follows the kind of a node.
fn put_operands(node: &Node, writer: &mut Writer<'_>)
    requires sound { places_lawful node.now ≡ true }
    requires room { Fits (operand_bytes node.now) writer.old }
    ensures { Puts (operand_bytes node.now) writer.old writer.new }
{
    match node {
        Node::Equal(a, b) | Node::Less(a, b) => (*a, *b).put(writer),
        Node::Bound(n) | Node::Not(n) => n.put(writer),
        Node::And(a, b) | Node::Or(a, b) => (*a, *b).put(writer),
    }
}

impl Coded for Node {
    ghost code = { node_bytes };

    ghost sound = { λ n. places_lawful n ≡ true };

    fn put(&self, writer: &mut Writer<'_>) {
        self.kind().put(writer);
        put_operands(self, writer);
    }
}

impl Coded for Block {
    ghost code = { λ b. part_bytes (part_of b) };

    ghost sound = { λ b. lawful_part (part_of b) ≡ true };

    fn put(&self, writer: &mut Writer<'_>) {
        (self.triples.as_slice(), self.filter.as_slice()).put(writer);
    }
}

impl Coded for Alternative {
    ghost code = { λ a. group_bytes (group_of a) };

    ghost sound = { λ a. lawful_group (group_of a) ≡ true };

    fn put(&self, writer: &mut Writer<'_>) {
        let rest = (self.blocks.as_slice(), self.filter.as_slice());
        (self.required.as_slice(), rest).put(writer);
    }
}

impl Query {
    /// Writes the query's bytes at the front of the buffer and answers their length; what stands behind
    /// them stays. A buffer that is shorter is refused by 34, with no place, and stays as it was.
    pub fn write(&self, out: &mut [u8]) -> Result<usize, Rejection>
        ensures { Written (bytes_of (shape self.now)) out.old result out.new }
    {
        if out.len() < self.size {
            return Err(Rejection::unplaced(Refusal::BufferShort));
        }
        let mut writer = Writer { out, at: 0 };
        self.alternatives.as_slice().put(&mut writer);
        Ok(writer.at)
    }
}
