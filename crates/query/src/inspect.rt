//! What a query holds.
ghost use Rattle.std.specs.Prelude.{◌≡◌, ◌≤◌, map, length};
ghost use Rattle.query.specs.Format.{bytes_of};
ghost use Rattle.query.specs.Lawful.{triples_in, nodes_in};
ghost use Rattle.query.specs.Limits.{most_in_all};
ghost use Rattle.query.specs.Parts.{group_of};
ghost use Rattle.query.specs.Shape.{shape, counts_of};

use crate::alternative::Alternative;
use crate::query::Query;

/// How much a query holds, over all its alternatives.
#[derive(Clone, Copy, Debug, PartialEq, Eq)]
pub struct Counts {
    pub alternatives: usize,
    pub blocks: usize,
    /// Triples, with those of the blocks.
    pub triples: usize,
    /// Filter nodes, with those of the blocks.
    pub nodes: usize,
}

impl Query {
    /// The alternatives, in order.
    pub fn alternatives(&self) -> &[Alternative]
        ensures { map group_of result.now ≡ shape self.now }
    {
        self.alternatives.as_slice()
    }

    /// How many bytes the query takes when written.
    pub fn size(&self) -> usize
        ensures { result ≡ length (bytes_of (shape self.now)) }
    {
        self.size
    }

    /// How many alternatives, blocks, triples and filter nodes the query has in all.
    pub fn counts(&self) -> Counts
        ensures { result ≡ counts_of (shape self.now) }
    {
        let alternatives = self.alternatives.as_slice();
        Counts {
            alternatives: alternatives.len(),
            blocks: alternatives.iter().map(|a| a.blocks.len()).sum(),
            triples: alternatives.iter().map(Alternative::triples).sum(),
            nodes: alternatives.iter().map(Alternative::nodes).sum(),
        }
    }
}

impl Alternative {
    // Kept as two, with `nodes`: the fields differ, and a closure for both would need a premise for each.
    /// How many triples the alternative has, with those of its blocks.
    fn triples(&self) -> usize
        requires { triples_in (group_of self.now) ≤ most_in_all }
        ensures { result ≡ triples_in (group_of self.now) }
    {
        let in_blocks: usize = self.blocks.iter().map(|block| block.triples.len()).sum();
        self.required.len() + in_blocks
    }

    /// How many filter nodes the alternative has, with those of its blocks.
    fn nodes(&self) -> usize
        requires { nodes_in (group_of self.now) ≤ most_in_all }
        ensures { result ≡ nodes_in (group_of self.now) }
    {
        let in_blocks: usize = self.blocks.iter().map(|block| block.filter.len()).sum();
        in_blocks + self.filter.len()
    }
}
