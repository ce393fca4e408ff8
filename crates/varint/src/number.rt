//! What reading and writing a number answer.

/// The most bytes that a number takes.
pub const MOST_BYTES: usize = 5;

/// The largest number that can be written.
pub const LARGEST: u64 = u32::MAX as u64;

/// How many bits a group has.
pub(crate) const BITS: u32 = 7;

/// How many values a group of seven bits has.
pub(crate) const GROUP: u32 = 1 << BITS;

/// The top bit of a byte, which is set where another byte follows.
pub(crate) const MORE: u8 = 1 << BITS;

/// A number that was read, and how many bytes it takes.
#[derive(Clone, Copy, Debug, PartialEq, Eq)]
pub struct Number {
    pub value: u32,
    pub length: usize,
}

/// Why no number can be read at a place.
#[derive(Clone, Copy, Debug, PartialEq, Eq)]
pub enum ReadError {
    /// No byte below 128 follows: the number has no last byte.
    EndsEarly,
    /// The number ends, but is not in its shortest form or takes more than 32 bits.
    Malformed,
}

/// The buffer has too little room behind the place.
#[derive(Clone, Copy, Debug, PartialEq, Eq)]
pub struct NoRoom;
