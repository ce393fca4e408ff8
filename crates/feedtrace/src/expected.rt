//! What is expected where a line cannot be carried out.
ghost use Rattle.std.specs.Prelude.{◌≡◌, Some};
ghost use Rattle.feedtrace.specs.Errors.{expected_text};
ghost use Rattle.feedtrace.specs.Failures.{memory};
ghost use Rattle.feedtrace.specs.declared.expected.Expected.TheVariants as expected;

use crate::verb::Verb;
use console::expected::Expected as Shared;
use std::alloc::AllocFailed;
use std::fmt;
use std::fmt::{Formatter, Write};

/// The words that begin a command.
const COMMANDS: &str =
    "a command: row-store, property-store, catalogue, inverse, withdrawn, withdraw, restore, \
    seek, leap, lookup, scan, trace, filter, query, write or show";

/// What was expected, of the line or of the session.
#[derive(Clone, Copy)]
pub enum Expected {
    /// What the commands about queries expect too.
    Shared(Shared),
    /// The command in its form.
    Form(Verb),
    /// A current store.
    Store,
    /// A table that no layer lies over, for an inverse layer to go over.
    BareTable,
    /// A store without a withdrawn layer, for one to go over.
    NoWithdrawnLayer,
    /// A withdrawn layer on top.
    WithdrawnLayer,
    /// An alternative of the current query.
    Alternative,
    /// A block of an alternative of the current query.
    Block,
    /// A triple, in that line of a row store's table.
    RowLine(u64),
    /// A directory entry or a pair, in that line of a property store's table.
    EntryLine(u64),
    /// A record, in that line of a catalogue's table.
    RecordLine(u64),
    /// The end of the table.
    End,
}

impl<T: Drop> From<AllocFailed<T>> for Expected {
    ghost from_gives = { λ _ y. y ≡ memory };

    fn from(_error: AllocFailed<T>) -> Expected {
        Expected::Shared(Shared::Memory)
    }
}

impl fmt::Display for Expected {
    ghost output = { λ e. Some (expected_text e) };

    fn fmt<W: Write>(&self, f: &mut Formatter<W>) -> fmt::Result {
        match self {
            Expected::Shared(Shared::Command) => f.write_str(COMMANDS),
            Expected::Shared(expected) => write!(f, "{expected}"),
            Expected::Form(verb) => write!(f, "{verb}"),
            Expected::Store => f.write_str("a current store"),
            Expected::BareTable => f.write_str("a store without layers"),
            Expected::NoWithdrawnLayer => f.write_str("a store without a withdrawn layer"),
            Expected::WithdrawnLayer => f.write_str("a withdrawn layer on top"),
            Expected::Alternative => f.write_str("an alternative of the current query"),
            Expected::Block => f.write_str("a block of the current query"),
            Expected::RowLine(line) => write!(f, "S P O in line {line} of the table"),
            Expected::EntryLine(line) => {
                write!(
                    f,
                    "property P FIRST, or pair S O, in line {line} of the table"
                )
            }
            Expected::RecordLine(line) => write!(f, "KIND VALUE in line {line} of the table"),
            Expected::End => f.write_str("end"),
        }
    }
}
