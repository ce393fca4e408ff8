//! The fields of a line, one after the other.
ghost use Rattle.std.specs.Prelude.{◌≡◌};
ghost use Rattle.feedtrace.specs.Fields.{Parted, alone, first_from, first_number, first_position};
ghost use Rattle.feedtrace.specs.Fields.{first_row, first_signed, first_triple, next_word, behind_word};
ghost use Rattle.feedtrace.specs.Fields.{position_of};

use crate::number::{MOST_NUMBER, signed_of};
use console::line::{split_word, trim_start};
use console::number::number_of;
use triples::position::Position;
use triples::triple::Triple;

/// What is left of a line.
#[derive(Clone, Copy)]
pub(crate) struct Fields<'a> {
    pub(crate) rest: &'a [u8],
}

impl<'a> Fields<'a> {
    /// The word that stands first.
    pub(crate) fn word(&mut self) -> &'a [u8]
        ensures first { result.now ≡ next_word self.old.rest.now }
        ensures rest { self.new.rest.now ≡ behind_word self.old.rest.now }
    {
        let (word, rest) = split_word(trim_start(self.rest));
        self.rest = rest;
        word
    }

    /// The number that stands first; none where no number up to 4,294,967,295 does.
    pub(crate) fn number(&mut self) -> Option<u32>
        ensures { Parted result self.new.rest.now (first_number self.old.rest.now) }
    {
        number_of(self.word(), MOST_NUMBER)
    }

    /// The number with its sign that stands first; none where none of 32 bits does.
    pub(crate) fn signed(&mut self) -> Option<i32>
        ensures { Parted result self.new.rest.now (first_signed self.old.rest.now) }
    {
        signed_of(self.word())
    }

    /// The three numbers that stand first, as a triple.
    pub(crate) fn triple(&mut self) -> Option<Triple>
        ensures { Parted result self.new.rest.now (first_triple self.old.rest.now) }
    {
        let subject = self.number()?;
        let property = self.number()?;
        let object = self.number()?;
        Some(Triple {
            subject,
            property,
            object,
        })
    }

    /// The sixteen numbers that stand first, as the values of a row.
    pub(crate) fn row_values(&mut self) -> Option<[u32; 16]>
        ensures { Parted result self.new.rest.now (first_row self.old.rest.now) }
    {
        let mut row = [0; 16];
        for value in row.iter_mut() {
            *value = self.number()?;
        }
        Some(row)
    }

    /// The position whose name stands first.
    pub(crate) fn position(&mut self) -> Option<Position>
        ensures { Parted result self.new.rest.now (first_position self.old.rest.now) }
    {
        position_of(self.word())
    }

    /// The word `from`, if it stands first.
    pub(crate) fn from_word(&mut self) -> Option<()>
        ensures { Parted result self.new.rest.now (first_from self.old.rest.now) }
    {
        match self.word() {
            b"from" => Some(()),
            _ => None,
        }
    }

    /// The value, if nothing is left.
    pub(crate) fn end<T: Drop>(self, value: T) -> Option<T>
        ensures { result ≡ alone value self.entry.rest.now }
    {
        self.rest.is_empty().then_some(value)
    }
}

/// The position that the word names.
fn position_of(word: &[u8]) -> Option<Position>
    ensures { result ≡ position_of word.now }
{
    match word {
        b"subject" => Some(Position::Subject),
        b"property" => Some(Position::Property),
        b"object" => Some(Position::Object),
        _ => None,
    }
}
