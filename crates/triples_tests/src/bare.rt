//! A kind of store that has a top and a seek of its own, and no leap, and that changes when it is asked.
use triples::selector::Selector;
use triples::store::Store;
use triples::triple::Triple;

/// A store that hands its questions on to another, and counts them.
#[derive(Drop)]
pub(crate) struct Bare<S: Store> {
    pub(crate) inner: S,
    pub(crate) asked: u64,
}

/// The triples of the inner store, whose leap is not asked. How often it was asked is no part of what is
/// kept.
impl<S: Store> Store for Bare<S> {
    ghost meaning = { λ s. S.Store.meaning s.inner };

    ghost sound = { λ s. S.Store.sound s.inner };

    ghost Kept = { S.Store.Kept };

    ghost kept = { λ s. S.Store.kept s.inner };

    fn top(&mut self) -> u32 {
        self.asked = self.asked.saturating_add(1);
        self.inner.top()
    }

    fn seek(&mut self, selector: Selector, start: Triple) -> Option<Triple> {
        self.asked = self.asked.saturating_add(1);
        self.inner.seek(selector, start)
    }
}
