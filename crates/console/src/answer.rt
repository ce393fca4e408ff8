//! What a session answers.
ghost use Rattle.std.specs.Prelude.{Some};
ghost use Rattle.console.specs.Answers.{answer_line};

use hex_text::text::HexText;
use query::inspect::Counts;
use std::fmt;
use std::fmt::{Formatter, Write};

/// The answer to a command. It shows as its line, without the line's end.
#[derive(Drop)]
pub enum Answer {
    /// The bytes are a query, which is the current one now.
    Counts(Counts),
    /// The current query was written, as these bytes.
    Bytes(Vec<u8>),
    /// The current query is to be shown, in place of a line.
    Shown,
}

impl fmt::Display for Answer {
    ghost output = { λ a. Some (answer_line a) };

    fn fmt<W: Write>(&self, f: &mut Formatter<W>) -> fmt::Result {
        match self {
            Answer::Counts(counts) => write!(f, "query: {counts}"),
            Answer::Bytes(bytes) => {
                let text = HexText {
                    bytes: bytes.as_slice(),
                };
                write!(f, "bytes: {text}")
            }
            Answer::Shown => Ok(()),
        }
    }
}
