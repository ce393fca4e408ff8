//! The triples of a store that match a selector, one after the other.
ghost use Rattle.std.specs.Prelude.{◌≡◌};
ghost use Rattle.std.specs.Iterator.{at_most};
ghost use Rattle.triples.specs.Matching.{Advances, ahead};

use crate::selector::Selector;
use crate::store::Store;
use crate::triple::Triple;

/// The triples of the store that match the selector and are not below the start, ascending.
#[derive(Drop)]
pub struct Matches<'a, S> {
    pub(crate) store: &'a mut S,
    pub(crate) selector: Selector,
    pub(crate) start: Triple,
}

impl<'a, S: Store> Matches<'a, S> {
    /// The matches from the start on.
    pub fn new(store: &'a mut S, selector: Selector, start: Triple) -> Matches<'a, S>
        ensures same_reference { result.store.ghost_name ≡ store.entry.ghost_name }
        ensures store { result.store.now ≡ store.old }
        ensures selector { result.selector ≡ selector }
        ensures start { result.start ≡ start }
    {
        Matches {
            store,
            selector,
            start,
        }
    }
}

/// Each match once; none behind the last.
impl<S: Store> Iterator for Matches<'_, S> {
    type Item = Triple;

    ghost next_gives = { Advances S.Store.meaning S.Store.kept };

    ghost remaining = { λ s. at_most (ahead s.start) };

    fn next(&mut self) -> Option<Triple> {
        let found = self.store.seek(self.selector, self.start)?;
        self.start = found.behind();
        Some(found)
    }
}
