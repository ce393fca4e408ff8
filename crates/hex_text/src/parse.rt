//! Reading bytes from their text.
ghost use Rattle.std.specs.Prelude.{◌≡◌, ◌==◌, length, filter_map, is_some, IfOk, MatchOption};
ghost use Rattle.hex_text.specs.Calls.{Parsed};
ghost use Rattle.hex_text.specs.Reading.{parted, read_text, GoesOn};
ghost use Rattle.hex_text.specs.Words.{word_value, words};
ghost use Rattle.hex_text.specs.declared.parse.ParseError.TheVariants.{Memory};

use std::alloc::{AllocError, Global};

/// What stands between two bytes.
const SPACE: u8 = b' ';

/// How many digits a byte has.
const DIGITS: usize = 2;

/// How many values a digit has.
const BASE: u32 = 16;

/// Why a text gives no bytes.
#[derive(Clone, Copy, Debug, PartialEq, Eq)]
pub enum ParseError {
    /// The text is not two hexadecimal digits a byte, with spaces between.
    NotHex,
    /// The text is bytes, but memory for them is wanting.
    Memory,
}

impl From<AllocError> for ParseError {
    ghost from_gives = { λ _ e. e ≡ Memory };

    fn from(_e: AllocError) -> ParseError {
        ParseError::Memory
    }
}

/// The bytes that the text stands for: two hexadecimal digits each, capitals or not, with one space or
/// more between; spaces may also stand in front and behind. `NotHex` for any other text.
pub fn parse(heap: Global, text: &[u8]) -> Result<Vec<u8>, ParseError>
    ensures { Parsed (read_text text.now) result }
{
    if !is_hex(text) {
        return Err(ParseError::NotHex);
    }
    Ok(bytes_of(heap, text)?)
}

// Kept as a walk of its own: `split` looks for a word's end, however far it is, before the word is judged.
/// Whether the text stands for bytes. Nothing behind the first thing that is neither a space nor a byte is
/// looked at.
fn is_hex(text: &[u8]) -> bool
    ensures { result ≡ is_some (read_text text.now) }
{
    let mut rest = text;
    while let Some(after) = behind_first(rest) {
        rest = after;
    }
    rest.is_empty()
}

/// What stands behind the space or the byte that the text begins with; none where it begins with neither.
fn behind_first(text: &[u8]) -> Option<&[u8]>
    ensures { MatchOption result (is_some (read_text text.now) ≡ (length text.now == 0))
        (λ after. GoesOn text.now after.now) }
{
    let (first, after) = text.split_first()?;
    if *first == SPACE {
        return Some(after);
    }
    let (word, rest) = text.split_at_checked(DIGITS)?;
    (byte_of(word).is_some() && is_parted(rest)).then_some(rest)
}

/// Whether the text may stand behind a byte: it is empty, or begins with a space.
fn is_parted(text: &[u8]) -> bool
    ensures { result ≡ parted text.now }
{
    text.first().is_none_or(|c| *c == SPACE)
}

/// The bytes that words of the text make.
fn bytes_of(heap: Global, text: &[u8]) -> Result<Vec<u8>, AllocError>
    ensures { IfOk result (λ v. v.items ≡ filter_map word_value (words text.now)) }
{
    text.split(|c| *c == SPACE)
        .filter_map(byte_of)
        .collect(heap)
}

/// The byte that a word of two digits makes, the higher first; none for any other word.
fn byte_of(word: &[u8]) -> Option<u8>
    ensures { result ≡ word_value word.now }
{
    let [high, low] = word else {
        return None;
    };
    let high = char::from(*high).to_digit(BASE)?;
    let low = char::from(*low).to_digit(BASE)?;
    u8::try_from(BASE * high + low).ok()
}
