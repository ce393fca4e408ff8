//! Kinds of filter nodes and the numbers that stand for them in bytes.
ghost use Rattle.std.specs.Prelude.{◌≡◌};
ghost use Rattle.query.specs.Codes.{number_of, kind_from};

/// The kind of a filter node; the number behind it stands for it in a query's bytes.
#[derive(Clone, Copy)]
pub(crate) enum Kind {
    Equal = 1,
    Less = 2,
    Bound = 3,
    Not = 4,
    And = 5,
    Or = 6,
}

/// The kinds, by their numbers.
const KINDS: [Kind; 6] = [
    Kind::Equal,
    Kind::Less,
    Kind::Bound,
    Kind::Not,
    Kind::And,
    Kind::Or,
];

impl From<Kind> for u32 {
    ghost from_gives = { λ k n. n ≡ number_of k };

    fn from(kind: Kind) -> u32 {
        kind as u32
    }
}

impl Kind {
    // Kept as an option, as `char::from_u32` is: a number has no kind for one reason only.
    /// The kind that has the number.
    pub(crate) fn from_number(number: u32) -> Option<Kind>
        ensures { result ≡ kind_from number }
    {
        KINDS
            .iter()
            .copied()
            .find(|kind| u32::from(*kind) == number)
    }
}
