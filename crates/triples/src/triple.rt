//! A triple of term numbers, and the order of triples.
ghost use Rattle.std.specs.Prelude.{◌≡◌};
ghost use Rattle.triples.specs.Order.{before, same};

/// A triple: subject, property and object, each a term number, compared in that order.
#[derive(Clone, Copy, Debug, Default, PartialEq, Eq, PartialOrd, Ord)]
pub struct Triple {
    pub subject: u32,
    pub property: u32,
    pub object: u32,
}

/// The least of all triples of 32-bit numbers. No store holds it, since 0 is no term.
pub const ORIGIN: Triple = Triple {
    subject: 0,
    property: 0,
    object: 0,
};

// Kept as methods: they say what the derived `<` and `==` come to, in the words of `specs/`.
impl Triple {
    /// Whether the triple comes before the other.
    pub fn is_before(self, other: Triple) -> bool
        ensures { result ≡ before self other }
    {
        self < other
    }

    /// Whether the two are the same triple.
    pub fn is_same(self, other: Triple) -> bool
        ensures { result ≡ same self other }
    {
        self == other
    }
}
