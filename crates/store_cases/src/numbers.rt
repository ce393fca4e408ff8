//! Triples, selectors and refusals from plain numbers, and back.
ghost use Rattle.refusal.specs.Numbers.{published};
ghost use Rattle.std.specs.Prelude.{◌≡◌};
ghost use Rattle.store_cases.specs.Numbers.{triple_from, selector_from};

use refusal::rejection::Rejection;
use triples::selector::Selector;
use triples::triple::Triple;

/// Each term, 0, the number over the top, and the largest: as entries of selectors and starts, and as bounds.
pub const NUMBERS: [u32; 8] = [0, 1, 2, 3, 4, 5, 6, 4_294_967_295];

// Kept as two functions: no tuple, triple or selector is this crate's own, so no `From` can stand here.
/// The triple of these numbers.
pub fn triple_of(numbers: (u32, u32, u32)) -> Triple
    ensures { result ≡ triple_from numbers }
{
    let (subject, property, object) = numbers;
    Triple {
        subject,
        property,
        object,
    }
}

/// The selector of these entries.
pub fn selector_of(entries: (u32, u32, u32)) -> Selector
    ensures { result ≡ selector_from entries }
{
    triple_of(entries).into()
}

// Kept as a function: its many callers would each have to say with `into` which pair they want.
/// The published number of the refusal, and its place.
pub fn said(rejection: Rejection) -> (u32, usize)
    ensures { result ≡ (published rejection.refusal, rejection.place) }
{
    rejection.into()
}
