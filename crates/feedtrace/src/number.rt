//! Numbers with a sign, as decimal digits.
ghost use Rattle.std.specs.Prelude.{◌≡◌};
ghost use Rattle.feedtrace.specs.Numerals.{signed_from};
ghost use Rattle.feedtrace.specs.WrittenLines.{SignedReadsBack};

use console::number::number_of;

/// The greatest number that a line may give.
pub(crate) const MOST_NUMBER: u32 = u32::MAX;

/// The number that decimal digits say, behind a minus if it is below 0; none where it has more than 32 bits.
pub(crate) fn signed_of(text: &[u8]) -> Option<i32>
    ensures said { result ≡ signed_from text.now }
    ensures law { SignedReadsBack text.now result }
{
    let (sign, digits) = match text {
        [b'-', digits @ ..] => (-1, digits),
        digits => (1, digits),
    };
    let number = number_of(digits, i32::MIN.unsigned_abs())?;
    i32::try_from(sign * i64::from(number)).ok()
}
