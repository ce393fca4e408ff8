//! Triple patterns.
use crate::place::Place;

/// A triple pattern: subject, property and object, each a variable or a term.
#[derive(Clone, Copy)]
pub struct TriplePattern {
    pub subject: Place,
    pub property: Place,
    pub object: Place,
}
