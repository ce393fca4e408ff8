//! The parts of a query in memory, while they come in.
use crate::alternative::Alternative;
use crate::block::Block;
use crate::node::Node;
use crate::pattern::TriplePattern;
use std::alloc::Global;

/// The parts that came in: finished alternatives, then what the alternative in work has so far.
#[derive(Drop)]
pub(crate) struct Kept {
    pub(crate) heap: Global,
    pub(crate) done: Vec<Alternative>,
    pub(crate) required: Vec<TriplePattern>,
    pub(crate) blocks: Vec<Block>,
    /// The triples of the part in work.
    pub(crate) triples: Vec<TriplePattern>,
    /// The nodes of the filter in work.
    pub(crate) nodes: Vec<Node>,
}
