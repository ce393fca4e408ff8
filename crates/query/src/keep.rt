//! Keeping the parts of a query as they come in.
ghost use Rattle.std.specs.Prelude.{◌≡◌, true, length, OnOk, Result};
ghost use Rattle.std.specs.Fn.{FnOnceReturnsAtMut};
ghost use Rattle.std.specs.declared.alloc.AllocError.{AllocError};
ghost use Rattle.query.specs.Format.{bytes_of};
ghost use Rattle.query.specs.Lawful.{lawful};
ghost use Rattle.query.specs.Shape.{shape};
ghost use Rattle.query.specs.Drafts.{fresh, with_triple, with_node, required_ended, block_ended};
ghost use Rattle.query.specs.Drafts.{alternative_ended, draft_of, Draft, Keeps};

use crate::alternative::Alternative;
use crate::block::Block;
use crate::kept::Kept;
use crate::node::Node;
use crate::pattern::TriplePattern;
use crate::query::Query;
use std::alloc::{AllocError, Global};
use std::mem;

impl Kept {
    /// Nothing came in yet.
    pub(crate) fn new(heap: Global) -> Kept
        ensures { draft_of result ≡ fresh }
    {
        Kept {
            heap,
            done: Vec::new(heap),
            required: Vec::new(heap),
            blocks: Vec::new(heap),
            triples: Vec::new(heap),
            nodes: Vec::new(heap),
        }
    }

    /// A triple of the part in work.
    pub(crate) fn triple(&mut self, triple: TriplePattern) -> Result<(), AllocError>
        ensures { OnOk result (draft_of self.new ≡ with_triple (draft_of self.old) triple) }
    {
        self.triples.push(triple)?;
        Ok(())
    }

    /// A node of the filter in work.
    pub(crate) fn node(&mut self, node: Node) -> Result<(), AllocError>
        ensures { OnOk result (draft_of self.new ≡ with_node (draft_of self.old) node) }
    {
        self.nodes.push(node)?;
        Ok(())
    }

    /// The triples in work are the required ones.
    pub(crate) fn end_required(&mut self)
        ensures { draft_of self.new ≡ required_ended (draft_of self.old) }
    {
        self.required = mem::replace(&mut self.triples, Vec::new(self.heap));
    }

    /// The triples and the filter in work are a block.
    pub(crate) fn end_block(&mut self) -> Result<(), AllocError>
        ensures { OnOk result (draft_of self.new ≡ block_ended (draft_of self.old)) }
    {
        let triples = mem::replace(&mut self.triples, Vec::new(self.heap));
        let filter = mem::replace(&mut self.nodes, Vec::new(self.heap));
        self.blocks.push(Block { triples, filter })?;
        Ok(())
    }

    /// The required triples, the blocks and the filter in work are an alternative.
    pub(crate) fn end_alternative(&mut self) -> Result<(), AllocError>
        ensures { OnOk result (draft_of self.new ≡ alternative_ended (draft_of self.old)) }
    {
        let required = mem::replace(&mut self.required, Vec::new(self.heap));
        let blocks = mem::replace(&mut self.blocks, Vec::new(self.heap));
        let filter = mem::replace(&mut self.nodes, Vec::new(self.heap));
        self.done.push(Alternative {
            required,
            blocks,
            filter,
        })?;
        Ok(())
    }

    /// The query whose alternatives have come in, and which takes `size` bytes.
    pub(crate) fn finish(self, size: usize) -> Query
        requires keeps { lawful (draft_of self).done ≡ true }
        requires measured { size ≡ length (bytes_of (draft_of self).done) }
        ensures { shape result ≡ (draft_of self).done }
    {
        let Kept { done, .. } = self;
        Query {
            alternatives: done,
            size,
        }
    }
}

/// Takes one step if parts are kept; where there is no memory for it, nothing is kept any more.
pub(crate) fn keep<F: FnOnce(&mut Kept) -> Result<(), AllocError>>(kept: &mut Option<Kept>, step: F)
    requires { F.IsAlwaysCallable step }
    ensures { (next : Draft → Draft)
        → ((k k' : Kept) (r : Result (Unit {0}) AllocError) → FnOnceReturnsAtMut F.FnOnce step k r k'
        → OnOk r (draft_of k' ≡ next (draft_of k)))
        → (d : Draft) → Keeps kept.old d → Keeps kept.new (next d) }
{
    if let Some(parts) = kept
        && step(parts).is_err()
    {
        *kept = None;
    }
}
