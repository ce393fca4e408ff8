//! The truths of the filters of a query's parts.
ghost use Rattle.std.specs.Prelude.{◌≡◌, true, IfSome};
ghost use Rattle.std.specs.Option.{option_map};
ghost use Rattle.query.specs.Lawful.{lawful_filter};
ghost use Rattle.query.specs.Shape.{shape};
ghost use Rattle.filter.specs.Calls.{group_filter, block_filter, truth_on, Settled, Answered};
ghost use Rattle.filter.specs.Filters.{filter_truth};

use crate::comparisons::comparisons;
use crate::evaluate::evaluate;
use crate::truth::Truth;
use catalogue::catalogue::Catalogue;
use query::node::Node;
use query::query::Query;

/// The truth of the group filter of alternative number `alternative`, counted from 0, on the row; none where
/// the query has no such alternative. It is the truth of the last node, and true without nodes. The row has a
/// value for each variable, and 0 where it has none. The catalogue says and keeps what it did.
pub fn group_truth<C: Catalogue>(
    query: &Query,
    alternative: usize,
    row: &[u32; 16],
    catalogue: &mut C,
) -> Option<Truth>
    ensures answer { result ≡ truth_on (C.Catalogue.entries catalogue.old) row.now
        (group_filter (shape query.now) alternative) }
    ensures law { Answered (C.Catalogue.entries catalogue.old) row.now
        (group_filter (shape query.now) alternative) result }
    ensures same { C.Catalogue.entries catalogue.new ≡ C.Catalogue.entries catalogue.old }
    ensures kept { C.Catalogue.kept catalogue.new ≡ C.Catalogue.kept catalogue.old }
{
    let nodes = group_filter(query, alternative)?;
    Some(filter_truth(nodes, row, catalogue))
}

/// The truth of the filter of block number `block` of alternative number `alternative`, both counted from 0,
/// on the row; none where the query has no such alternative, or that one no such block. It is the truth of
/// the last node, and true without nodes. The row has a value for each variable, and 0 where it has none. The
/// catalogue says and keeps what it did.
pub fn block_truth<C: Catalogue>(
    query: &Query,
    alternative: usize,
    block: usize,
    row: &[u32; 16],
    catalogue: &mut C,
) -> Option<Truth>
    ensures answer { result ≡ truth_on (C.Catalogue.entries catalogue.old) row.now
        (block_filter (shape query.now) alternative block) }
    ensures law { Answered (C.Catalogue.entries catalogue.old) row.now
        (block_filter (shape query.now) alternative block) result }
    ensures same { C.Catalogue.entries catalogue.new ≡ C.Catalogue.entries catalogue.old }
    ensures kept { C.Catalogue.kept catalogue.new ≡ C.Catalogue.kept catalogue.old }
{
    let nodes = block_filter(query, alternative, block)?;
    Some(filter_truth(nodes, row, catalogue))
}

/// The nodes of the group filter of the alternative, if there is one.
fn group_filter(query: &Query, alternative: usize) -> Option<&[Node]>
    ensures answer { option_map (λ nodes. nodes.now) result ≡ group_filter (shape query.now) alternative }
    ensures lawful { IfSome result (λ nodes. lawful_filter nodes.now ≡ true) }
{
    let alternative = query.alternatives().get(alternative)?;
    Some(alternative.filter.as_slice())
}

/// The nodes of the filter of the block of the alternative, if there is one.
fn block_filter(query: &Query, alternative: usize, block: usize) -> Option<&[Node]>
    ensures answer { option_map (λ nodes. nodes.now) result
        ≡ block_filter (shape query.now) alternative block }
    ensures lawful { IfSome result (λ nodes. lawful_filter nodes.now ≡ true) }
{
    let alternative = query.alternatives().get(alternative)?;
    let block = alternative.blocks.get(block)?;
    Some(block.filter.as_slice())
}

/// The truth of the filter with these nodes on the row.
fn filter_truth<C: Catalogue>(nodes: &[Node], row: &[u32; 16], catalogue: &mut C) -> Truth
    requires { lawful_filter nodes.now ≡ true }
    ensures answer { result ≡ filter_truth (C.Catalogue.entries catalogue.old) row.now nodes.now }
    ensures law { Settled (C.Catalogue.entries catalogue.old) row.now nodes.now result }
    ensures same { C.Catalogue.entries catalogue.new ≡ C.Catalogue.entries catalogue.old }
    ensures kept { C.Catalogue.kept catalogue.new ≡ C.Catalogue.kept catalogue.old }
{
    let comparisons = comparisons(nodes, row, catalogue);
    evaluate(nodes, &comparisons, row)
}
