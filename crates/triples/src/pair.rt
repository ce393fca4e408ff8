//! A subject and an object whose property is known from elsewhere.

/// Subject and object of a triple, compared in that order.
#[derive(Clone, Copy, Debug, PartialEq, Eq, PartialOrd, Ord)]
pub struct Pair {
    pub subject: u32,
    pub object: u32,
}
