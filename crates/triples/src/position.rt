//! The three positions of a triple.
ghost use Rattle.std.specs.Prelude.{◌≡◌};
ghost use Rattle.triples.specs.Order.{value_at, number_from};

use crate::triple::Triple;

/// One of the three positions of a triple.
#[derive(Clone, Copy, Debug, PartialEq, Eq)]
pub enum Position {
    Subject,
    Property,
    Object,
}

impl Triple {
    /// The number at the position.
    pub fn value(self, position: Position) -> u32
        ensures { result ≡ value_at position self }
    {
        match position {
            Position::Subject => self.subject,
            Position::Property => self.property,
            Position::Object => self.object,
        }
    }
}

/// The number at the position of the triple found, if it is not below the bound.
pub(crate) fn offered(found: Option<Triple>, position: Position, bound: u32) -> Option<u32>
    ensures { result ≡ number_from position bound found }
{
    found
        .map(|triple| triple.value(position))
        .filter(|number| bound <= *number)
}
