//! Optional blocks.
use crate::node::Node;
use crate::pattern::TriplePattern;

/// An optional block: its triples, and the filter that its fits must pass.
#[derive(Drop)]
pub struct Block {
    pub triples: Vec<TriplePattern>,
    pub filter: Vec<Node>,
}
