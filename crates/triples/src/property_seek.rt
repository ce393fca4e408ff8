//! A property store as a store.
ghost use Rattle.std.specs.Prelude.{◌≡◌, ℕ, ◌<◌, Option, vec_len};
ghost use Rattle.triples.specs.Meaning.{among};
ghost use Rattle.triples.specs.Seeks.{Sought, Leapt};
ghost use Rattle.triples.specs.Selectors.{select};
ghost use Rattle.triples.specs.declared.position.Position.TheVariants.{Property};
ghost use Rattle.triples.specs.Unions.{earlier, lesser};
ghost use Rattle.triples.specs.declared.triple.Triple.{Triple};
ghost use Rattle.triples.specs.Directory.{property_of, section, section_triples};
ghost use Rattle.triples.specs.Laws.{table_sound};
ghost use Rattle.triples.specs.Theorems.{table_meaning};

use crate::pair::Pair;
use crate::position::Position;
use crate::property_store::PropertyStore;
use crate::run::Run;
use crate::selector::Selector;
use crate::store::Store;
use crate::table::Table;
use crate::triple::Triple;
use crate::union::least_of;

impl PropertyStore {
    /// The lists of the store, as a table in order.
    fn table(&self) -> Table<'_>
        ensures directory { result.directory.now ≡ self.now.directory.items }
        ensures pairs { result.pairs.now ≡ self.now.pairs.items }
    {
        Table {
            top: self.top,
            directory: &self.directory,
            pairs: &self.pairs,
        }
    }

    // Kept as a clause of three functions: a type for a place in the directory would have to hold the store.
    /// The pairs of entry `i`, under its property.
    fn run(&self, i: usize) -> Run<'_, Pair>
        requires { i < vec_len self.now.directory }
        ensures property { result.property ≡ property_of self.now.directory.items i }
        ensures items { result.items.now ≡ section self.now.directory.items self.now.pairs.items i }
    {
        let table = self.table();
        Run {
            items: table.pairs_of(i),
            property: table.directory[i].property,
        }
    }

    // Kept as two, with `leap_entry`: their calls differ, and in closures of `fold` the proofs don't close.
    /// The earlier of `least` and the least triple of entry `i` that matches the selector but for its
    /// property and is not below the start. Within an entry the property is known, so its pairs are sought
    /// by subject and object.
    fn seek_entry(
        &self,
        least: Option<Triple>,
        i: usize,
        selector: Selector,
        start: Triple,
    ) -> Option<Triple>
        requires { i < vec_len self.now.directory }
        ensures { (found : Option Triple)
            × Sought (among (section_triples self.now.directory.items self.now.pairs.items i))
            (select selector Property (property_of self.now.directory.items i)) start found
            × (result ≡ earlier least found) }
    {
        let run = self.run(i);
        let known = selector.with(Position::Property, run.property);
        least_of(least, run.seek(known, start))
    }

    /// The lesser of `least` and the smallest number from the bound on at the position of a triple of entry
    /// `i` that matches the selector but for its property. Within an entry the property is known, so one
    /// seek or one pass over its pairs answers.
    fn leap_entry(
        &self,
        least: Option<u32>,
        i: usize,
        position: Position,
        selector: Selector,
        bound: u32,
    ) -> Option<u32>
        requires { i < vec_len self.now.directory }
        ensures { (found : Option ℕ)
            × Leapt (among (section_triples self.now.directory.items self.now.pairs.items i)) position
            (select selector Property (property_of self.now.directory.items i)) bound found
            × (result ≡ lesser least found) }
    {
        let run = self.run(i);
        let known = selector.with(Position::Property, run.property);
        least_of(least, run.leap(position, known, bound))
    }
}

impl Store for PropertyStore {
    ghost meaning = { table_meaning };

    ghost sound = { λ s. table_sound s.top s.directory.items s.pairs.items s.small
        s.good
        s.terms };

    ghost Kept = { Self };

    ghost kept = { λ s. s };

    fn top(&mut self) -> u32 {
        self.top
    }

    fn seek(&mut self, selector: Selector, start: Triple) -> Option<Triple> {
        let store = &*self;
        store.table().span_of(selector.property).fold(
            None,
            |least, i| store.seek_entry(least, i, selector, start),
        )
    }

    fn leap(&mut self, position: Position, selector: Selector, bound: u32) -> Option<u32> {
        let store = &*self;
        store.table().span_of(selector.property).fold(
            None,
            |least, i| store.leap_entry(least, i, position, selector, bound),
        )
    }
}
