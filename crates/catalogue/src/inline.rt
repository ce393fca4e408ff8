//! A catalogue that is computed from the number alone.
ghost use Rattle.catalogue.specs.Inlining.{inlined};
ghost use Rattle.catalogue.specs.Laws.{inlined_proper};

use crate::catalogue::Catalogue;
use crate::kind::Kind;

/// The least number of an integer.
pub const FIRST_INTEGER: u32 = 500_001;

/// The largest number of an integer.
pub const LAST_INTEGER: u32 = 1_000_000;

/// The number of the integer 0.
pub const ZERO_AT: i32 = 750_001;

/// A catalogue in which the numbers from `FIRST_INTEGER` to `LAST_INTEGER` are integers in a row, 0 at
/// `ZERO_AT`, and all others are names.
#[derive(Clone, Copy)]
pub struct Inline;

impl Catalogue for Inline {
    ghost entries = { λ _. inlined };

    ghost proper = { λ _ n. inlined_proper n };

    ghost Kept = { Self };

    ghost kept = { λ c. c };

    fn lookup(&mut self, number: u32) -> (Kind, i32) {
        if (FIRST_INTEGER..=LAST_INTEGER).contains(&number) {
            (Kind::Integer, number as i32 - ZERO_AT)
        } else {
            (Kind::Name, 0)
        }
    }
}
