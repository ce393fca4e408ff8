//! Kinds of terms and their published numbers.
ghost use Rattle.std.specs.Prelude.{◌≡◌, Some};
ghost use Rattle.catalogue.specs.Kinds.{kind_from, name_of, Numbered, published};

use std::fmt;
use std::fmt::{Formatter, Write};

/// The kind of a term. The number behind each case is the published one.
#[derive(Clone, Copy, Debug, PartialEq, Eq)]
pub enum Kind {
    /// A name.
    Name = 1,
    /// A text.
    Text = 2,
    /// An integer, which has a value.
    Integer = 3,
}

/// The kinds, by their numbers.
const KINDS: [Kind; 3] = [Kind::Name, Kind::Text, Kind::Integer];

// Kept as methods: both are public and stay so, and `From` and `TryFrom` would say the same twice.
impl Kind {
    /// The published number of the kind.
    pub fn number(self) -> u32
        ensures { result ≡ published self }
    {
        self as u32
    }

    /// The kind whose published number is `number`; none where no kind has it.
    pub fn from_number(number: u32) -> Option<Kind>
        ensures answer { result ≡ kind_from number }
        ensures exact { Numbered number result }
    {
        KINDS.iter().copied().find(|kind| kind.number() == number)
    }
}

impl fmt::Display for Kind {
    ghost output = { λ kind. Some (name_of kind) };

    fn fmt<W: Write>(&self, f: &mut Formatter<W>) -> fmt::Result {
        f.write_str(match self {
            Kind::Name => "name",
            Kind::Text => "text",
            Kind::Integer => "integer",
        })
    }
}
