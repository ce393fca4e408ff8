//! Numbers, as decimal digits.
ghost use Rattle.std.specs.Prelude.{◌≡◌};
ghost use Rattle.console.specs.Numerals.{ReadsNumerals, digit_value, followed, number_from};

// Kept as a fold: `parse` wants text and takes a plus in front, which no number of a line may have.
/// The number that decimal digits say; none where there is no digit or something else, or where the number is
/// greater than `most`.
pub fn number_of(digits: &[u8], most: u32) -> Option<u32>
    ensures said { result ≡ number_from most digits.now }
    ensures law { ReadsNumerals most digits.now result }
{
    if digits.is_empty() {
        return None;
    }
    digits
        .iter()
        .try_fold(0, |number, c| followed_by(number, *c))
        .filter(|number| *number <= most)
}

/// The number with the digit behind its own; none where `c` is no digit, or the number has no room.
fn followed_by(number: u32, c: u8) -> Option<u32>
    ensures { result ≡ followed number c }
{
    number.checked_mul(10)?.checked_add(digit(c)?)
}

/// What a decimal digit counts.
fn digit(c: u8) -> Option<u32>
    ensures { result ≡ digit_value c }
{
    char::from(c).to_digit(10)
}
