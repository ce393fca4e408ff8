//! What a task comes to.
use catalogue::kind::Kind;
use filter::truth::Truth;
use triples::triple::Triple;

/// What a task comes to, where it is carried out.
#[derive(Drop)]
pub enum Outcome {
    /// A row store is current: its top, and how many triples it has.
    Rows {
        top: u32,
        triples: usize,
    },
    /// A property store is current: its top, how many properties it has, and how many pairs.
    Properties {
        top: u32,
        properties: usize,
        pairs: usize,
    },
    /// The inline catalogue is current.
    Inline,
    /// A listed catalogue of so many records is current.
    Listed(usize),
    /// An inverse layer of the two properties is on top.
    Inverse {
        property: u32,
        inverse: u32,
    },
    /// A withdrawn layer is on top, with nothing withdrawn.
    Layered,
    /// So many triples are withdrawn.
    Withdrawn(usize),
    /// The triple that was sought, if there is one.
    Found(Option<Triple>),
    /// The number that was asked for, if there is one.
    Number(Option<u32>),
    /// Kind and value of a number.
    Entry {
        kind: Kind,
        value: i32,
    },
    /// The triples that match.
    Triples(Vec<Triple>),
    /// The terms reached.
    Terms(Vec<u32>),
    /// The truth of a filter.
    Truth(Truth),
}
