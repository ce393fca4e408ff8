//! What is expected where a command cannot be carried out.
ghost use Rattle.std.specs.Prelude.{◌≡◌, Some};
ghost use Rattle.console.specs.Answers.{expected_text};
ghost use Rattle.console.specs.Failures.{expected_for};

use hex_text::parse::ParseError;
use std::fmt;
use std::fmt::{Formatter, Write};

/// The greatest length that a command may give.
pub const MOST_LENGTH: u32 = 1_000_000;

/// What was expected, of the line or of the session.
#[derive(Clone, Copy)]
pub enum Expected {
    /// A command as the first word.
    Command,
    /// Two hexadecimal digits for each byte, with spaces between.
    Bytes,
    /// A length from 0 to `MOST_LENGTH`.
    Length,
    /// Nothing behind the command.
    LineEnd,
    /// A current query.
    Query,
    /// More memory.
    Memory,
}

impl From<ParseError> for Expected {
    ghost from_gives = { λ e y. y ≡ expected_for e };

    fn from(error: ParseError) -> Expected {
        match error {
            ParseError::NotHex => Expected::Bytes,
            ParseError::Memory => Expected::Memory,
        }
    }
}

impl fmt::Display for Expected {
    ghost output = { λ e. Some (expected_text e) };

    fn fmt<W: Write>(&self, f: &mut Formatter<W>) -> fmt::Result {
        match self {
            Expected::Command => f.write_str("query, write or show"),
            Expected::Bytes => f.write_str(
                "two hexadecimal digits for each byte, with spaces between",
            ),
            Expected::Length => write!(f, "a length from 0 to {MOST_LENGTH}"),
            Expected::LineEnd => f.write_str("nothing behind the command"),
            Expected::Query => f.write_str("a current query"),
            Expected::Memory => f.write_str("more memory"),
        }
    }
}
