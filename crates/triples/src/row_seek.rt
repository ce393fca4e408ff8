//! A row store as a store.
ghost use Rattle.std.specs.Prelude.{◌≡◌};
ghost use Rattle.triples.specs.Theorems.{rows_meaning};
ghost use Rattle.triples.specs.Laws.{listed_sound};

use crate::position::Position;
use crate::row_store::RowStore;
use crate::run::Run;
use crate::selector::{ANY, Selector};
use crate::store::Store;
use crate::triple::Triple;

impl RowStore {
    /// The triples as one list, which has no property of its own.
    fn run(&self) -> Run<'_, Triple>
        ensures { result.items.now ≡ self.now.rows.items }
    {
        // Kept as `ANY`: pairs would have to unwrap an `Option`, and one type for each element is no shorter.
        Run {
            items: &self.rows,
            property: ANY,
        }
    }
}

impl Store for RowStore {
    ghost meaning = { rows_meaning };

    ghost sound = { λ s. listed_sound s.top s.rows.items s.small s.terms };

    ghost Kept = { Self };

    ghost kept = { λ s. s };

    fn top(&mut self) -> u32 {
        self.top
    }

    fn seek(&mut self, selector: Selector, start: Triple) -> Option<Triple> {
        self.run().seek(selector, start)
    }

    fn leap(&mut self, position: Position, selector: Selector, bound: u32) -> Option<u32> {
        self.run().leap(position, selector, bound)
    }
}
