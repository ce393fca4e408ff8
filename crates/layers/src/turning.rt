//! The turned triples of a store, found by questions to the store.
ghost use Rattle.std.specs.Prelude.{◌≡◌, ◌≤◌};
ghost use Rattle.layers.specs.Inverses.{turned};
ghost use Rattle.layers.specs.Turns.{swapped, object_from};
ghost use Rattle.triples.specs.Meaning.{first_term};
ghost use Rattle.triples.specs.Seeks.{Sought, Leapt};

use crate::turn::Turn;
use std::cmp::Ordering;
use triples::position::Position;
use triples::selector::{ANY, Selector};
use triples::store::Store;
use triples::triple::{ORIGIN, Triple};

// Kept as arguments: they are those of a store's own calls, which are published.
// Kept in each clause: a store may move things about when asked; no invariant tells what it meant before.
impl Turn {
    /// Which triples to ask for where the selector says which turned ones; none where no turned one is
    /// wanted, or the inverse is over the top.
    fn swapped(self, selector: Selector, top: u32) -> Option<Selector>
        ensures { result ≡ swapped self.property self.inverse top selector }
    {
        let named = selector.property == ANY || selector.property == self.inverse;
        (self.inverse <= top && named).then_some(Selector {
            subject: selector.object,
            property: self.property,
            object: selector.subject,
        })
    }

    /// The least object from which on a turned triple of the subject is not below the start; none where each
    /// is below it.
    fn object_from(self, subject: u32, start: Triple) -> Option<u32>
        ensures { result ≡ object_from self.inverse subject start }
    {
        match (subject, self.inverse).cmp(&(start.subject, start.property)) {
            Ordering::Less => None,
            Ordering::Equal => Some(start.object),
            Ordering::Greater => Some(0),
        }
    }

    /// The smallest number from the bound on at the position of a turned triple that matches the selector.
    pub(crate) fn leap<S: Store>(
        self,
        below: &mut S,
        position: Position,
        selector: Selector,
        bound: u32,
    ) -> Option<u32>
        ensures answer { Leapt (turned self.property self.inverse (S.Store.meaning below.old)) position
            selector bound result }
        ensures same { S.Store.meaning below.new ≡ S.Store.meaning below.old }
        ensures kept { S.Store.kept below.new ≡ S.Store.kept below.old }
    {
        let top = below.top();
        let swapped = self.swapped(selector, top)?;
        match position {
            Position::Subject => below.leap(Position::Object, swapped, bound),
            Position::Object => below.leap(Position::Subject, swapped, bound),
            Position::Property if self.inverse < bound => None,
            Position::Property => {
                let found = below.seek(swapped, ORIGIN);
                found.is_some().then_some(self.inverse)
            }
        }
    }

    /// The least turned triple that matches the selector, which names a subject, and is not below the start.
    fn seek_subject<S: Store>(
        self,
        below: &mut S,
        selector: Selector,
        start: Triple,
    ) -> Option<Triple>
        requires { first_term ≤ selector.subject }
        ensures answer { Sought (turned self.property self.inverse (S.Store.meaning below.old)) selector
            start result }
        ensures same { S.Store.meaning below.new ≡ S.Store.meaning below.old }
        ensures kept { S.Store.kept below.new ≡ S.Store.kept below.old }
    {
        let bound = self.object_from(selector.subject, start)?;
        let top = below.top();
        let swapped = self.swapped(selector, top)?;
        let object = below.leap(Position::Subject, swapped, bound)?;
        Some(Triple {
            subject: selector.subject,
            property: self.inverse,
            object,
        })
    }

    /// The least turned triple that matches the selector and is not below the start: one of the subject that
    /// is named; else one of the least subject from the start's on, or one of the next subject where all of
    /// that are below the start.
    pub(crate) fn seek<S: Store>(
        self,
        below: &mut S,
        selector: Selector,
        start: Triple,
    ) -> Option<Triple>
        ensures answer { Sought (turned self.property self.inverse (S.Store.meaning below.old)) selector
            start result }
        ensures same { S.Store.meaning below.new ≡ S.Store.meaning below.old }
        ensures kept { S.Store.kept below.new ≡ S.Store.kept below.old }
    {
        if selector.subject != ANY {
            return self.seek_subject(below, selector, start);
        }
        let subject = self.leap(below, Position::Subject, selector, start.subject)?;
        let of_subject = selector.with(Position::Subject, subject);
        if let Some(found) = self.seek_subject(below, of_subject, start) {
            return Some(found);
        }
        let next = self.leap(below, Position::Subject, selector, subject + 1)?;
        let of_next = selector.with(Position::Subject, next);
        self.seek_subject(below, of_next, start)
    }
}
