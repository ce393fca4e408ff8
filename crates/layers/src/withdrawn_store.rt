//! The store below without what is withdrawn, as a store.
ghost use Rattle.layers.specs.Members.{members};
ghost use Rattle.layers.specs.Soundness.{sound_without};
ghost use Rattle.layers.specs.Withdrawals.{without};
ghost use Rattle.layers.specs.declared.triple_set.TripleSet.{TripleSet};
ghost use Rattle.triples.specs.Meaning.{Meaning};

use crate::withdrawn::Withdrawn;
use triples::matches::Matches;
use triples::position::Position;
use triples::selector::Selector;
use triples::store::Store;
use triples::triple::{ORIGIN, Triple};

/// The store below without the withdrawn triples, under the same top.
impl<S: Store> Store for Withdrawn<S> {
    ghost meaning = { λ s. without (S.Store.meaning s.below) (members s.gone) };

    ghost sound = { λ s. sound_without (S.Store.meaning s.below) (members s.gone)
        (S.Store.sound s.below) };

    ghost Kept = { Meaning × S.Store.Kept × TripleSet };

    ghost kept = { λ s. (S.Store.meaning s.below, S.Store.kept s.below, s.gone) };

    fn top(&mut self) -> u32 {
        self.below.top()
    }

    /// The first match of the store below that is not withdrawn.
    fn seek(&mut self, selector: Selector, start: Triple) -> Option<Triple> {
        let gone = &self.gone;
        Matches::new(&mut self.below, selector, start).find(|t| !gone.has(*t))
    }

    /// Asks the store below again behind each number of which all triples are withdrawn.
    fn leap(&mut self, position: Position, selector: Selector, bound: u32) -> Option<u32> {
        let mut from = bound;
        // Kept as a loop: each round seeks in the whole layer, which an iterator would hold borrowed.
        // Invariant: no number between the bound and this one is an answer.
        while let Some(number) = self.below.leap(position, selector, from) {
            if self.seek(selector.with(position, number), ORIGIN).is_some() {
                return Some(number);
            }
            from = number + 1;
        }
        None
    }
}
