//! A store below, and a property of it with its inverse.
use crate::turn::Turn;
use triples::store::Store;

/// The store below, and for each triple `s p o` of it the turned one `o q s`: `q` is the inverse of `p`.
#[derive(Drop)]
pub struct Inverse<S: Store> {
    pub(crate) below: S,
    pub(crate) turn: Turn,
}
