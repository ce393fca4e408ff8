//! Evaluating a filter, once its comparisons are read off.
ghost use Rattle.std.specs.Prelude.{◌≡◌, ℕ, true, length, map};
ghost use Rattle.catalogue.specs.Entries.{Entry};
ghost use Rattle.query.specs.Lawful.{lawful_node, lawful_filter};
ghost use Rattle.query.specs.Limits.{most_in_part};
ghost use Rattle.filter.specs.Comparisons.{comparison, Agree};
ghost use Rattle.filter.specs.Filters.{node_truth, truths_of, filter_truth};

use crate::comparisons::MOST_NODES;
use crate::row::{NONE, number_at};
use crate::truth::Truth;
use query::node::Node;
use query::place::Place;

/// The truth of the node, by its comparison and by the truths of the nodes that it names.
fn node_truth(node: Node, compared: Truth, row: &[u32; 16], truths: &[Truth; MOST_NODES]) -> Truth
    requires { lawful_node most_in_part node ≡ true }
    ensures { (entries : ℕ → Entry) → compared ≡ comparison entries row.now node
        → result ≡ node_truth entries row.now truths.now node }
{
    match node {
        Node::Equal(_, _) | Node::Less(_, _) => compared,
        Node::Bound(variable) => Truth::from(number_at(Place::Variable(variable), row) != NONE),
        Node::Not(a) => truths[a as usize].negated(),
        Node::And(a, b) => truths[a as usize].and(truths[b as usize]),
        Node::Or(a, b) => truths[a as usize].or(truths[b as usize]),
    }
}

/// The truths of the nodes, each at its number: those of the nodes below the last, then the last from them.
fn truths(nodes: &[Node], comparisons: &[Truth; MOST_NODES], row: &[u32; 16]) -> [Truth; MOST_NODES]
    requires { lawful_filter nodes.now ≡ true }
    ensures { (entries : ℕ → Entry)
        → Agree (length nodes.now) comparisons.now (map (comparison entries row.now) nodes.now)
        → Agree (length nodes.now) result (truths_of entries row.now nodes.now) }
{
    let Some((node, below)) = nodes.split_last() else {
        return [Truth::Error; MOST_NODES];
    };
    let number = below.len();
    let mut truths = truths(below, comparisons, row);
    truths[number] = node_truth(*node, comparisons[number], row, &truths);
    truths
}

/// The truth of the filter: that of its last node; without nodes it is true.
pub(crate) fn evaluate(nodes: &[Node], comparisons: &[Truth; MOST_NODES], row: &[u32; 16]) -> Truth
    requires { lawful_filter nodes.now ≡ true }
    ensures { (entries : ℕ → Entry)
        → Agree (length nodes.now) comparisons.now (map (comparison entries row.now) nodes.now)
        → result ≡ filter_truth entries row.now nodes.now }
{
    let truths = truths(nodes, comparisons, row);
    match nodes.len().checked_sub(1) {
        Some(last) => truths[last],
        None => Truth::True,
    }
}
