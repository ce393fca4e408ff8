//! Building a query from the steps in which it comes in.
ghost use Rattle.std.specs.Prelude.{◌≡◌};
ghost use Rattle.query.specs.Building.{Tracks, Follows, used_of, Finishes, Finished};
ghost use Rattle.query.specs.Drafts.{fresh, with_triple, with_node, required_ended, block_ended};
ghost use Rattle.query.specs.Drafts.{alternative_ended, Keeps};
ghost use Rattle.query.specs.Grammar.{unused};

use crate::builder::Builder;
use crate::keep::keep;
use crate::kept::Kept;
use crate::node::Node;
use crate::pattern::TriplePattern;
use crate::query::Query;
use crate::tally::Tally;
use crate::variables::VariableSet;
use std::mem;

impl Builder {
    /// Nothing has come in; `kept` is where parts are kept, if they are, and holds none yet.
    pub(crate) fn new(kept: Option<Kept>) -> Builder
        requires { Keeps kept fresh }
        ensures tracks { Tracks result fresh }
        ensures used { used_of result ≡ unused }
    {
        Builder {
            triples: Tally::none(),
            nodes: Tally::none(),
            part: VariableSet::empty(),
            required: VariableSet::empty(),
            in_blocks: VariableSet::empty(),
            in_two_blocks: VariableSet::empty(),
            shared: false,
            kept,
        }
    }

    /// A triple of the part in work.
    pub(crate) fn triple(&mut self, triple: TriplePattern)
        ensures { Follows (λ d. with_triple d triple) self.old self.new }
    {
        self.part.add_triple(&triple);
        keep(&mut self.kept, |parts| parts.triple(triple));
    }

    /// A node of the filter in work.
    pub(crate) fn node(&mut self, node: Node)
        ensures { Follows (λ d. with_node d node) self.old self.new }
    {
        keep(&mut self.kept, |parts| parts.node(node));
    }

    /// The triples in work are the required ones.
    pub(crate) fn end_required(&mut self)
        ensures { Follows required_ended self.old self.new }
    {
        self.required = mem::replace(&mut self.part, VariableSet::empty());
        keep(&mut self.kept, |parts| {
            parts.end_required();
            Ok(())
        });
    }

    /// The triples and the filter in work are a block.
    pub(crate) fn end_block(&mut self)
        ensures { Follows block_ended self.old self.new }
    {
        let again = self.in_blocks.intersection(&self.part);
        self.in_two_blocks = self.in_two_blocks.union(&again);
        self.in_blocks = self.in_blocks.union(&self.part);
        self.part = VariableSet::empty();
        keep(&mut self.kept, |parts| parts.end_block());
    }

    /// The required triples, the blocks and the filter in work are an alternative.
    pub(crate) fn end_alternative(&mut self)
        ensures { Follows alternative_ended self.old self.new }
    {
        let apart = self.in_two_blocks.is_subset(&self.required);
        self.shared |= !apart;
        self.required = VariableSet::empty();
        self.in_blocks = VariableSet::empty();
        self.in_two_blocks = VariableSet::empty();
        keep(&mut self.kept, |parts| parts.end_alternative());
    }

    /// The query that has come in, which takes `size` bytes; none where its parts are not kept.
    pub(crate) fn finish(self, size: usize) -> Option<Query>
        requires { Finishes self size }
        ensures { Finished self result }
    {
        let Builder { kept, .. } = self;
        kept.map(|parts| parts.finish(size))
    }
}
