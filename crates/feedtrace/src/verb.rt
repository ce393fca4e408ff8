//! What the first word of a line says of tables, layers and questions.
ghost use Rattle.std.specs.Prelude.{◌≡◌, Some};
ghost use Rattle.feedtrace.specs.Commands.{form_text};
ghost use Rattle.feedtrace.specs.Verbs.{verb_of};

use std::fmt;
use std::fmt::{Formatter, Write};

/// What the first word of a line says of tables, layers and questions. It shows as the command with what
/// follows it.
#[derive(Clone, Copy)]
pub enum Verb {
    /// The word `row-store`.
    RowStore,
    /// The word `property-store`.
    PropertyStore,
    /// The word `catalogue`.
    Catalogue,
    /// The word `inverse`.
    Inverse,
    /// The word `withdrawn`.
    Withdrawn,
    /// The word `withdraw`.
    Withdraw,
    /// The word `restore`.
    Restore,
    /// The word `seek`.
    Seek,
    /// The word `leap`.
    Leap,
    /// The word `lookup`.
    Lookup,
    /// The word `scan`.
    Scan,
    /// The word `trace`.
    Trace,
    /// The word `filter`.
    Filter,
}

impl Verb {
    /// What the word says; none where it says nothing of tables, layers and questions.
    pub(crate) fn of(word: &[u8]) -> Option<Verb>
        ensures { result ≡ verb_of word.now }
    {
        match word {
            b"row-store" => Some(Verb::RowStore),
            b"property-store" => Some(Verb::PropertyStore),
            b"catalogue" => Some(Verb::Catalogue),
            b"inverse" => Some(Verb::Inverse),
            b"withdrawn" => Some(Verb::Withdrawn),
            b"withdraw" => Some(Verb::Withdraw),
            b"restore" => Some(Verb::Restore),
            b"seek" => Some(Verb::Seek),
            b"leap" => Some(Verb::Leap),
            b"lookup" => Some(Verb::Lookup),
            b"scan" => Some(Verb::Scan),
            b"trace" => Some(Verb::Trace),
            b"filter" => Some(Verb::Filter),
            _ => None,
        }
    }
}

impl fmt::Display for Verb {
    ghost output = { λ verb. Some (form_text verb) };

    fn fmt<W: Write>(&self, f: &mut Formatter<W>) -> fmt::Result {
        f.write_str(match self {
            Verb::RowStore => "row-store T",
            Verb::PropertyStore => "property-store T",
            Verb::Catalogue => "catalogue inline, or catalogue listed",
            Verb::Inverse => "inverse P Q",
            Verb::Withdrawn => "withdrawn alone",
            Verb::Withdraw => "withdraw S P O",
            Verb::Restore => "restore S P O",
            Verb::Seek => "seek A B C from S P O",
            Verb::Leap =>
                "leap subject, property or object, then A B C from N, with 0 at that place",
            Verb::Lookup => "lookup N",
            Verb::Scan => "scan A B C",
            Verb::Trace => "trace N",
            Verb::Filter => "filter A V0 .. V15, or filter A B V0 .. V15",
        })
    }
}
