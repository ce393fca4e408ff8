//! A store below, and the triples that are withdrawn from it.
pub use crate::triple_set::MOST_WITHDRAWN;
use crate::triple_set::TripleSet;
use triples::store::Store;

/// The store below without the triples that are withdrawn from it, of which there are at most 256.
#[derive(Drop)]
pub struct Withdrawn<S: Store> {
    pub(crate) below: S,
    pub(crate) gone: TripleSet,
}
