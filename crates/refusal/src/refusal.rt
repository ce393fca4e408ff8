//! The refusals, in the order in which they are checked.
ghost use Rattle.std.specs.Prelude.{◌≡◌};
ghost use Rattle.refusal.specs.Numbers.{published};

/// Why a call says no. The number behind each case is the published one, and is never used again for another.
#[derive(Clone, Copy, Debug, PartialEq, Eq)]
pub enum Refusal {
    /// A list is longer than its limit, or the top is over 1,000,000. No place.
    OverLimit = 1,
    /// A directory's properties do not ascend strictly from 1 to the top, or its first places do not begin at
    /// 0, fall, or pass the number of pairs. Place: the first bad entry, 0 where there are pairs and no
    /// entries.
    DirectoryBroken = 2,
    /// A number in a triple or a pair is 0 or over the top. Place: the first such triple or pair.
    OutsideTerms = 3,
    /// A list, or the pairs of a directory's entry, do not ascend strictly.
    /// Place: an element that is not above the one before it.
    NotAscending = 4,
    /// A record's kind is not 1 to 3, or it is no integer and its value is not 0. Place: the first such
    /// record.
    RecordInvalid = 5,
    /// The bytes end before a number does. Place: the number's first byte.
    EndsEarly = 11,
    /// A number is not in its shortest form, or takes more than 32 bits. Place: its first byte.
    Malformed = 12,
    /// A count is outside its limits, or takes the triples or the filter nodes past 64 in all.
    /// Place: the count's first byte.
    CountOutside = 13,
    /// A place code is 0, even and over 2,000,000, or odd and over 31. Place: the code's first byte.
    PlaceCode = 14,
    /// A node's kind is not 1 to 6, its variable is over 15, or the node that it names is not lower.
    /// Place: the first byte of that number.
    NodeInvalid = 15,
    /// Bytes follow the query. Place: the first of them.
    BytesLeft = 16,
    /// A variable is in the triples of two blocks of an alternative and not in its required triples.
    /// Place: the number of bytes.
    SharedByBlocks = 17,
    /// The triple is withdrawn already. No place.
    AlreadyWithdrawn = 21,
    /// The triple is not in the store below. No place.
    NotStored = 22,
    /// As many triples are withdrawn as there is room for. No place.
    WithdrawnFull = 23,
    /// The triple is not withdrawn. No place.
    NotWithdrawn = 24,
    /// A property of an inverse layer is 0 or over the top. No place.
    PropertyOutside = 25,
    /// The buffer is shorter than the query's bytes. No place.
    BufferShort = 34,
}

// Kept as a method: it is public and stays so, and a `From` beside it would say the same twice.
impl Refusal {
    /// The published number of the refusal.
    pub fn number(self) -> u32
        ensures { result ≡ published self }
    {
        self as u32
    }
}
