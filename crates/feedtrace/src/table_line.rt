//! The lines of a table.
ghost use Rattle.std.specs.Prelude.{◌≡◌};
ghost use Rattle.feedtrace.specs.TableLines.{Pushed, entry_line, pair_line, record_line, row_line};
ghost use Rattle.feedtrace.specs.Drafts.{draft_of, line_expected, Drafted, EntryTaken};
ghost use Rattle.feedtrace.specs.WrittenLines.{EntryReadsBack, PairReadsBack, RecordReadsBack, RowReadsBack};

use crate::expected::Expected;
use crate::field::Fields;
use crate::loading::Lists;
use catalogue::record::Record;
use triples::entry::DirectoryEntry;
use triples::pair::Pair;
use triples::property_store::PropertyTable;
use triples::triple::Triple;

// Kept as one function for each element: each reads other fields, and one over all would take closures.
impl Fields<'_> {
    /// A triple, if nothing follows it.
    fn row(mut self) -> Option<Triple>
        ensures said { result ≡ row_line self.entry.rest.now }
        ensures law { RowReadsBack self.entry.rest.now result }
    {
        let triple = self.triple()?;
        self.end(triple)
    }

    /// A directory entry, if nothing follows it.
    fn entry(mut self) -> Option<DirectoryEntry>
        ensures said { result ≡ entry_line self.entry.rest.now }
        ensures law { EntryReadsBack self.entry.rest.now result }
    {
        let property = self.number()?;
        let first = self.number()?;
        self.end(DirectoryEntry { property, first })
    }

    /// A pair, if nothing follows it.
    fn pair(mut self) -> Option<Pair>
        ensures said { result ≡ pair_line self.entry.rest.now }
        ensures law { PairReadsBack self.entry.rest.now result }
    {
        let subject = self.number()?;
        let object = self.number()?;
        self.end(Pair { subject, object })
    }

    /// A kind and a value with its sign, if nothing follows them.
    fn record(mut self) -> Option<Record>
        ensures said { result ≡ record_line self.entry.rest.now }
        ensures law { RecordReadsBack self.entry.rest.now result }
    {
        let kind = self.number()?;
        let value = self.signed()?;
        self.end(Record { kind, value })
    }
}

/// Puts the element behind the list; nothing is put where there is none and `wanted` is expected, or where
/// memory is wanting.
fn push<T: Drop>(list: &mut Vec<T>, element: Option<T>, wanted: Expected) -> Result<(), Expected>
    ensures { Pushed wanted element list.old.items result list.new.items }
{
    list.push(element.ok_or(wanted)?)?;
    Ok(())
}

/// Takes a line of a property store: a directory entry or a pair.
fn take_entry(table: &mut PropertyTable, text: &[u8], wanted: Expected) -> Result<(), Expected>
    ensures { EntryTaken wanted text.now table.old result table.new }
{
    let mut fields = Fields { rest: text };
    match fields.word() {
        b"property" => push(&mut table.directory, fields.entry(), wanted),
        b"pair" => push(&mut table.pairs, fields.pair(), wanted),
        _ => Err(wanted),
    }
}

impl Lists {
    /// What is expected of line `line` of the table.
    pub(crate) fn line(&self, line: u64) -> Expected
        ensures { result ≡ line_expected (draft_of self.now) line }
    {
        match self {
            Lists::Rows(..) => Expected::RowLine(line),
            Lists::Properties(..) => Expected::EntryLine(line),
            Lists::Records(_) => Expected::RecordLine(line),
        }
    }

    /// Takes a line of the table: its element is put behind the list that it belongs to. Nothing is put where
    /// the line has another form and `wanted` is expected, or where memory is wanting.
    pub(crate) fn take(&mut self, text: &[u8], wanted: Expected) -> Result<(), Expected>
        ensures { Drafted wanted (draft_of self.old) text.now result (draft_of self.new) }
    {
        match self {
            Lists::Rows(_, rows) => push(rows, Fields { rest: text }.row(), wanted),
            Lists::Properties(_, table) => take_entry(table, text, wanted),
            Lists::Records(records) => push(records, Fields { rest: text }.record(), wanted),
        }
    }
}
