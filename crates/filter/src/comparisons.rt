//! The comparisons of a filter, read off a catalogue.
ghost use Rattle.std.specs.Prelude.{◌≡◌, ◌≤◌, length, map};
ghost use Rattle.std.specs.Option.{option_map};
ghost use Rattle.query.specs.Limits.{most_in_part};
ghost use Rattle.filter.specs.Comparisons.{both_known, both_at, comparison, Agree};
ghost use Rattle.filter.specs.Rows.{number_at};

use crate::row::{NONE, number_at};
use crate::term::Term;
use crate::truth::Truth;
use catalogue::catalogue::Catalogue;
use query::node::Node;
use query::place::Place;

/// The most nodes of a filter.
pub(crate) const MOST_NODES: usize = 16;

/// The terms at the two places, looked up; none where a variable there has no value.
fn terms_at<C: Catalogue>(
    first: Place,
    second: Place,
    row: &[u32; 16],
    catalogue: &mut C,
) -> Option<(Term, Term)>
    ensures answer { option_map both_known result ≡ both_at (C.Catalogue.entries catalogue.old)
        (number_at row.now first) (number_at row.now second) }
    ensures same { C.Catalogue.entries catalogue.new ≡ C.Catalogue.entries catalogue.old }
    ensures kept { C.Catalogue.kept catalogue.new ≡ C.Catalogue.kept catalogue.old }
{
    let first = number_at(first, row);
    let second = number_at(second, row);
    if first == NONE || second == NONE {
        return None;
    }
    Some((
        Term::look_up(first, catalogue),
        Term::look_up(second, catalogue),
    ))
}

/// How what the node compares compares; an error where a variable there has no value, and where the node
/// compares nothing.
fn comparison<C: Catalogue>(node: Node, row: &[u32; 16], catalogue: &mut C) -> Truth
    ensures answer { result ≡ comparison (C.Catalogue.entries catalogue.old) row.now node }
    ensures same { C.Catalogue.entries catalogue.new ≡ C.Catalogue.entries catalogue.old }
    ensures kept { C.Catalogue.kept catalogue.new ≡ C.Catalogue.kept catalogue.old }
{
    match node {
        Node::Equal(a, b) => {
            terms_at(a, b, row, catalogue).map_or(Truth::Error, |(a, b)| a.equal(b))
        }
        Node::Less(a, b) => {
            terms_at(a, b, row, catalogue).map_or(Truth::Error, |(a, b)| a.less(b))
        }
        Node::Bound(_) | Node::Not(_) | Node::And(_, _) | Node::Or(_, _) => Truth::Error,
    }
}

/// The comparison of each node, at its number.
pub(crate) fn comparisons<C: Catalogue>(
    nodes: &[Node],
    row: &[u32; 16],
    catalogue: &mut C,
) -> [Truth; MOST_NODES]
    requires { length nodes.now ≤ most_in_part }
    ensures answer { Agree (length nodes.now) result
        (map (comparison (C.Catalogue.entries catalogue.old) row.now) nodes.now) }
    ensures same { C.Catalogue.entries catalogue.new ≡ C.Catalogue.entries catalogue.old }
    ensures kept { C.Catalogue.kept catalogue.new ≡ C.Catalogue.kept catalogue.old }
{
    let mut truths = [Truth::Error; MOST_NODES];
    // Kept as a loop: the catalogue is asked on the way, and what it says stays as it was.
    for (number, node) in nodes.iter().enumerate() {
        truths[number] = comparison(*node, row, catalogue);
    }
    truths
}
