//! Alternatives of a query.
use crate::block::Block;
use crate::node::Node;
use crate::pattern::TriplePattern;

/// An alternative: its required triples, its optional blocks in order, and the filter of the whole group.
#[derive(Drop)]
pub struct Alternative {
    pub required: Vec<TriplePattern>,
    pub blocks: Vec<Block>,
    pub filter: Vec<Node>,
}
