//! A refusal with the place that it names.
ghost use Rattle.std.specs.Prelude.{◌≡◌, Some};
ghost use Rattle.refusal.specs.Numbers.{published};
ghost use Rattle.refusal.specs.Texts.{rejection_text};

use crate::refusal::Refusal;
use std::fmt;
use std::fmt::{Formatter, Write};

/// A refusal and its place, counted from 0; the place is 0 where the refusal names none. It shows as the
/// published number of the refusal, and the place.
#[derive(Clone, Copy, Debug, PartialEq, Eq)]
pub struct Rejection {
    pub refusal: Refusal,
    // Kept as a number: a refusal that names no place is published with place 0, and shows so.
    pub place: usize,
}

impl Rejection {
    /// A refusal that names no place.
    pub fn unplaced(refusal: Refusal) -> Rejection
        ensures { (result.refusal ≡ refusal) × (result.place ≡ 0) }
    {
        Rejection { refusal, place: 0 }
    }
}

/// The published number of the refusal, and the place.
impl From<Rejection> for (u32, usize) {
    ghost from_gives = { λ r pair. pair ≡ (published r.refusal, r.place) };

    fn from(rejection: Rejection) -> (u32, usize) {
        (rejection.refusal.number(), rejection.place)
    }
}

impl fmt::Display for Rejection {
    ghost output = { λ r. Some (rejection_text r) };

    fn fmt<W: Write>(&self, f: &mut Formatter<W>) -> fmt::Result {
        let number = self.refusal.number();
        let place = self.place;
        write!(f, "{number} at {place}")
    }
}

impl Refusal {
    /// The refusal at the place that it names.
    pub fn at(self, place: usize) -> Rejection
        ensures { (result.refusal ≡ self) × (result.place ≡ place) }
    {
        Rejection {
            refusal: self,
            place,
        }
    }
}
