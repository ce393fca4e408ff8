//! Reading a number at a place of a byte string.
ghost use Rattle.std.specs.Prelude.{◌≡◌, ◌≤◌, length, drop, MatchOption};
ghost use Rattle.varint.specs.Calls.{answer};
ghost use Rattle.varint.specs.Decode.{decode, span, value};
ghost use Rattle.varint.specs.Encode.{most_bytes};
ghost use Rattle.varint.specs.Ending.{IsFirst, padded};

use crate::number::{GROUP, MORE, MOST_BYTES, Number, ReadError};

/// The number that begins at the place `at`, with its length. `EndsEarly` where no byte below 128
/// follows, however many bytes there are, and also where `at` is not a place of the string; `Malformed`
/// where the number ends but is not in its shortest form or takes more than 32 bits.
pub fn read(bytes: &[u8], at: usize) -> Result<Number, ReadError>
    ensures { result ≡ answer (decode (drop at bytes.now)) }
{
    let rest = bytes.get(at..).unwrap_or(&[]);
    let number = first_number(rest).ok_or(ReadError::EndsEarly)?;
    if number.len() > MOST_BYTES || is_padded(number) {
        return Err(ReadError::Malformed);
    }
    let value = u32::try_from(value_of(number)).map_err(|_| ReadError::Malformed)?;
    Ok(Number {
        value,
        length: number.len(),
    })
}

/// The bytes of the number that the bytes begin with: all up to the first one below 128, however far.
fn first_number(bytes: &[u8]) -> Option<&[u8]>
    ensures { MatchOption result (span bytes.now ≡ 0) (λ number. IsFirst bytes.now number.now) }
{
    let last = bytes.iter().position(|byte| *byte < MORE)?;
    Some(&bytes[..=last])
}

/// The number has more than one byte, and its last byte adds nothing to it.
fn is_padded(number: &[u8]) -> bool
    ensures { result ≡ padded number.now }
{
    matches!(number, [_, .., 0])
}

/// The value that the groups of at most five bytes make.
fn value_of(number: &[u8]) -> u64
    requires { length number.now ≤ most_bytes }
    ensures { result ≡ value number.now }
{
    number.iter().rev().fold(
        0,
        |value, byte| value * u64::from(GROUP) + u64::from(byte % MORE),
    )
}
