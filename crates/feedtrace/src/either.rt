//! A store or a catalogue of either of two kinds, as one kind.
ghost use Rattle.feedtrace.specs.Eithers.{either_of, KeptOf, either_keeps, either_kept};
ghost use Rattle.catalogue.specs.Entries.{Proper};
ghost use Rattle.triples.specs.Meaning.{Sound};

use catalogue::catalogue::Catalogue;
use catalogue::kind::Kind;
use triples::position::Position;
use triples::selector::Selector;
use triples::store::Store;
use triples::triple::Triple;

// Kept as a type of its own: the two traits are other crates', so the kit's `Either` can't have them here.
/// One of the two.
#[derive(Drop)]
pub(crate) enum Either<A, B> {
    Left(A),
    Right(B),
}

// Kept written out: a closure takes one type, so none could call the method of both `A` and `B`.
impl<A: Store, B: Store> Store for Either<A, B> {
    ghost meaning = { either_of A.Store.meaning B.Store.meaning };

    ghost sound = { either_keeps Sound A.Store.meaning B.Store.meaning A.Store.sound B.Store.sound };

    ghost Kept = { KeptOf A.Store.Kept B.Store.Kept };

    ghost kept = { either_kept A.Store.kept B.Store.kept };

    fn top(&mut self) -> u32 {
        match self {
            Either::Left(store) => store.top(),
            Either::Right(store) => store.top(),
        }
    }

    fn seek(&mut self, selector: Selector, start: Triple) -> Option<Triple> {
        match self {
            Either::Left(store) => store.seek(selector, start),
            Either::Right(store) => store.seek(selector, start),
        }
    }

    fn leap(&mut self, position: Position, selector: Selector, bound: u32) -> Option<u32> {
        match self {
            Either::Left(store) => store.leap(position, selector, bound),
            Either::Right(store) => store.leap(position, selector, bound),
        }
    }
}

impl<A: Catalogue, B: Catalogue> Catalogue for Either<A, B> {
    ghost entries = { either_of A.Catalogue.entries B.Catalogue.entries };

    ghost proper = { λ s n. either_keeps (λ entries. Proper (entries n)) A.Catalogue.entries
        B.Catalogue.entries (λ a. A.Catalogue.proper a n) (λ b. B.Catalogue.proper b n) s };

    ghost Kept = { KeptOf A.Catalogue.Kept B.Catalogue.Kept };

    ghost kept = { either_kept A.Catalogue.kept B.Catalogue.kept };

    fn lookup(&mut self, number: u32) -> (Kind, i32) {
        match self {
            Either::Left(catalogue) => catalogue.lookup(number),
            Either::Right(catalogue) => catalogue.lookup(number),
        }
    }
}
