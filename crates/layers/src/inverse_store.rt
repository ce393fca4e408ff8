//! The store below with the turned triples, as a store.
ghost use Rattle.layers.specs.Inverses.{with_turned};
ghost use Rattle.layers.specs.Soundness.{sound_with_turned};
ghost use Rattle.layers.specs.declared.turn.Turn.{Turn};
ghost use Rattle.triples.specs.Meaning.{Meaning};

use crate::inverse::Inverse;
use triples::position::Position;
use triples::selector::Selector;
use triples::store::Store;
use triples::triple::Triple;
use triples::union::least_of;

/// The triples of the store below and the turned ones, under the same top.
impl<S: Store> Store for Inverse<S> {
    ghost meaning = { λ s. with_turned s.turn.property s.turn.inverse (S.Store.meaning s.below) };

    ghost sound = { λ s. sound_with_turned s.turn.property s.turn.inverse
        (S.Store.meaning s.below) s.turn.named (S.Store.sound s.below) };

    ghost Kept = { Meaning × S.Store.Kept × Turn };

    ghost kept = { λ s. (S.Store.meaning s.below, S.Store.kept s.below, s.turn) };

    fn top(&mut self) -> u32 {
        self.below.top()
    }

    // Kept as two bodies: one function for both would take two closures, and be longer than they are.
    fn seek(&mut self, selector: Selector, start: Triple) -> Option<Triple> {
        let held = self.below.seek(selector, start);
        let turned = self.turn.seek(&mut self.below, selector, start);
        least_of(held, turned)
    }

    fn leap(&mut self, position: Position, selector: Selector, bound: u32) -> Option<u32> {
        let held = self.below.leap(position, selector, bound);
        let turned = self.turn.leap(&mut self.below, position, selector, bound);
        least_of(held, turned)
    }
}
