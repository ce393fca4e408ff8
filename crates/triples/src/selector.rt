//! Which triples are asked for: at each position a number to match, or any.
ghost use Rattle.std.specs.Prelude.{◌≡◌};
ghost use Rattle.triples.specs.Selectors.{accepts, matches, select, floor, passed, aim, selector_of};

use crate::position::Position;
use crate::triple::{ORIGIN, Triple};

/// The entry of a selector that every number matches.
pub const ANY: u32 = 0;

// Kept as numbers with 0 for any: this is the published form of a selector.
/// For each position the number that a triple must have there, or 0 for any.
#[derive(Clone, Copy, Debug, PartialEq, Eq)]
pub struct Selector {
    pub subject: u32,
    pub property: u32,
    pub object: u32,
}

/// Whether a number matches one entry of a selector.
fn fits(entry: u32, number: u32) -> bool
    ensures { result ≡ accepts entry number }
{
    entry == ANY || entry == number
}

impl Selector {
    /// Whether the triple has the selector's numbers.
    pub fn matches(self, triple: Triple) -> bool
        ensures { result ≡ matches self triple }
    {
        fits(self.subject, triple.subject)
            && fits(self.property, triple.property)
            && fits(self.object, triple.object)
    }

    /// The selector with the number as its entry at the position.
    pub fn with(self, position: Position, number: u32) -> Selector
        ensures { result ≡ select self position number }
    {
        match position {
            Position::Subject => Selector {
                subject: number,
                ..self
            },
            Position::Property => Selector {
                property: number,
                ..self
            },
            Position::Object => Selector {
                object: number,
                ..self
            },
        }
    }

    /// Whether the triple is behind all those that match, as far as the leading entries tell.
    pub(crate) fn is_passed(self, triple: Triple) -> bool
        ensures { result ≡ passed self triple }
    {
        // Kept as one number at a time: with tuples, a seek of an object took twice as long and more.
        match self {
            Selector { subject: ANY, .. } => false,
            Selector { subject, .. } if subject != triple.subject => subject < triple.subject,
            Selector { property: ANY, .. } => false,
            Selector { property, .. } if property != triple.property => property < triple.property,
            Selector { object, .. } => object != ANY && object < triple.object,
        }
    }

    /// The start from which one seek finds the least number at the position that is not below the bound, if
    /// such a number is there: where the entries before the position are known, or the position's own entry
    /// is. None elsewhere.
    pub fn aim(self, position: Position, bound: u32) -> Option<Triple>
        ensures { result ≡ aim self position bound }
    {
        match position {
            Position::Subject => Some(Triple {
                subject: bound,
                ..ORIGIN
            }),
            Position::Property if self.subject != ANY => Some(Triple {
                subject: self.subject,
                property: bound,
                object: ANY,
            }),
            Position::Object if self.subject != ANY && self.property != ANY => Some(Triple {
                object: bound,
                ..Triple::from(self)
            }),
            Position::Property => (self.property != ANY).then_some(ORIGIN),
            Position::Object => (self.object != ANY).then_some(ORIGIN),
        }
    }
}

/// The selector read as a triple: no triple before it matches.
impl From<Selector> for Triple {
    ghost from_gives = { λ s t. t ≡ floor s };

    fn from(selector: Selector) -> Triple {
        let Selector {
            subject,
            property,
            object,
        } = selector;
        Triple {
            subject,
            property,
            object,
        }
    }
}

/// The selector with the triple's numbers as its entries.
impl From<Triple> for Selector {
    ghost from_gives = { λ t s. s ≡ selector_of t };

    fn from(triple: Triple) -> Selector {
        let Triple {
            subject,
            property,
            object,
        } = triple;
        Selector {
            subject,
            property,
            object,
        }
    }
}
