//! Terms with what a catalogue says of them, and how two of them compare.
ghost use Rattle.std.specs.Prelude.{◌≡◌};
ghost use Rattle.catalogue.specs.Entries.{integer_of};
ghost use Rattle.filter.specs.Comparing.{equal, less};
ghost use Rattle.filter.specs.Filters.{known};
ghost use Rattle.filter.specs.Terms.{entry_of, known_of};

use crate::truth::Truth;
use catalogue::catalogue::Catalogue;
use catalogue::kind::Kind;

/// A term, and what a catalogue says of it.
#[derive(Clone, Copy)]
pub(crate) struct Term {
    number: u32,
    kind: Kind,
    value: i32,
}

impl Term {
    /// The term with this number, looked up.
    pub(crate) fn look_up<C: Catalogue>(number: u32, catalogue: &mut C) -> Term
        ensures answer { known_of result ≡ known (C.Catalogue.entries catalogue.old) number }
        ensures same { C.Catalogue.entries catalogue.new ≡ C.Catalogue.entries catalogue.old }
        ensures kept { C.Catalogue.kept catalogue.new ≡ C.Catalogue.kept catalogue.old }
    {
        let (kind, value) = catalogue.lookup(number);
        Term {
            number,
            kind,
            value,
        }
    }

    /// The integer that the term is, if it is one.
    fn integer(self) -> Option<i32>
        ensures { result ≡ integer_of (entry_of self) }
    {
        match self.kind {
            Kind::Integer => Some(self.value),
            Kind::Name | Kind::Text => None,
        }
    }

    /// Two integers are equal if their values are, any other two terms if their numbers are.
    pub(crate) fn equal(self, other: Term) -> Truth
        ensures { result ≡ equal (known_of self) (known_of other) }
    {
        match (self.integer(), other.integer()) {
            (Some(a), Some(b)) => Truth::from(a == b),
            _ => Truth::from(self.number == other.number),
        }
    }

    /// Of two integers the one with the smaller value is less; any other two terms do not compare.
    pub(crate) fn less(self, other: Term) -> Truth
        ensures { result ≡ less (known_of self) (known_of other) }
    {
        match (self.integer(), other.integer()) {
            (Some(a), Some(b)) => Truth::from(a < b),
            _ => Truth::Error,
        }
    }
}
