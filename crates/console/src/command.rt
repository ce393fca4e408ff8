//! What the lines of a console ask about queries.
ghost use Rattle.hex_text.specs.Reading.{read_text};
ghost use Rattle.console.specs.Numerals.{most_length, number_from};
ghost use Rattle.console.specs.Requests.{asked, asked_by, query_of, show_before, write_at, Meets, Obeys};

use crate::expected::{Expected, MOST_LENGTH};
use crate::line::{is_absent, split_word, trim, trim_start};
use crate::number::number_of;
use hex_text::parse;
use std::alloc::Global;

// Kept as an enum that a session matches on: a line is read whole before its command is carried out.
/// What a line asks.
#[derive(Drop)]
pub enum Command {
    /// Reads the bytes as a query, which becomes the current one.
    Query(Vec<u8>),
    /// Writes the current query into a buffer of so many bytes.
    Write(u32),
    /// Shows the current query as a person reads it.
    Show,
}

impl Command {
    /// The command that stands in the line, by its first word; white space at the line's ends does not
    /// matter. None where the line is blank or a remark; an error where it asks nothing that can be carried
    /// out, or where memory for the bytes of a query is wanting.
    pub fn parse(heap: Global, line: &[u8]) -> Result<Option<Command>, Expected>
        ensures { Meets (asked line.now) result }
    {
        let (word, rest) = split_word(trim(line));
        if is_absent(word) {
            return Ok(None);
        }
        Ok(Some(Command::of(heap, word, rest)?))
    }

    /// The command of the word, with what follows it.
    fn of(heap: Global, word: &[u8], rest: &[u8]) -> Result<Command, Expected>
        ensures { Obeys (asked_by word.now rest.now) result }
    {
        match word {
            b"query" => Command::query(heap, rest),
            b"write" => Command::write(trim_start(rest)),
            b"show" => Command::show(rest),
            _ => Err(Expected::Command),
        }
    }

    /// The query whose bytes the text says.
    fn query(heap: Global, text: &[u8]) -> Result<Command, Expected>
        ensures { Obeys (query_of (read_text text.now)) result }
    {
        Ok(Command::Query(parse::parse(heap, text)?))
    }

    /// The writing at the length that the text says.
    fn write(text: &[u8]) -> Result<Command, Expected>
        ensures { Obeys (write_at (number_from most_length text.now)) result }
    {
        number_of(text, MOST_LENGTH)
            .map(Command::Write)
            .ok_or(Expected::Length)
    }

    /// The listing, if the text is empty.
    fn show(text: &[u8]) -> Result<Command, Expected>
        ensures { Obeys (show_before text.now) result }
    {
        match text {
            [] => Ok(Command::Show),
            _ => Err(Expected::LineEnd),
        }
    }
}
