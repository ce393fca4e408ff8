//! A table while its lines come in.
use crate::expected::Expected;
use catalogue::record::Record;
use triples::property_store::PropertyTable;
use triples::triple::Triple;

/// The lists of a table, so far.
#[derive(Drop)]
pub(crate) enum Lists {
    Rows(u32, Vec<Triple>),
    Properties(u32, PropertyTable),
    Records(Vec<Record>),
}

/// A table that is being read: its lists so far, or what was expected where its command or a line was wrong;
/// and how many lines stand behind its command, blank lines and remarks too.
#[derive(Drop)]
pub(crate) struct Loading {
    pub(crate) lists: Result<Lists, Expected>,
    pub(crate) lines: u64,
}
