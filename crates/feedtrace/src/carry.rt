//! Carrying out tasks.
ghost use Rattle.std.specs.Prelude.{◌≡◌, []};
ghost use Rattle.feedtrace.specs.Drafts.{draft_or};
ghost use Rattle.feedtrace.specs.Does.{Begun, Inlined, Does};

use crate::either::Either;
use crate::expected::Expected;
use crate::failure::Failure;
use crate::loading::{Lists, Loading};
use crate::outcome::Outcome;
use crate::session::Session;
use crate::task::Task;
use catalogue::inline::Inline;
use std::alloc::Global;
use triples::property_store::PropertyTable;

impl Session {
    /// Carries out the task; one that begins a table has no outcome yet.
    pub(crate) fn carry_out(&mut self, heap: Global, task: Task) -> Result<Option<Outcome>, Failure>
        ensures { Does task self.old result self.new }
    {
        match task {
            Task::RowStore(top) => {
                self.begin(Ok(Lists::Rows(top, Vec::new(heap))));
                Ok(None)
            }
            Task::PropertyStore(top) => {
                self.begin(Ok(Lists::Properties(top, empty_table(heap))));
                Ok(None)
            }
            Task::ListedCatalogue => {
                self.begin(Ok(Lists::Records(Vec::new(heap))));
                Ok(None)
            }
            Task::MalformedTable(verb) => {
                self.begin(Err(Expected::Form(verb)));
                Ok(None)
            }
            Task::InlineCatalogue => Ok(Some(self.take_inline())),
            Task::Inverse(property, inverse) => self.lay_inverse(property, inverse).map(Some),
            Task::Withdrawn => self.lay_withdrawn().map(Some),
            Task::Withdraw(triple) => self.withdraw(triple).map(Some),
            Task::Restore(triple) => self.restore(triple).map(Some),
            Task::Seek(selector, start) => self.seek(selector, start).map(Some),
            Task::Leap(position, selector, bound) => self.leap(position, selector, bound).map(Some),
            Task::Lookup(number) => Ok(Some(self.lookup(number))),
            Task::Scan(selector) => self.scan(heap, selector).map(Some),
            Task::Trace(term) => self.trace(heap, term).map(Some),
            Task::Filter(part, row) => self.filter(part, row).map(Some),
        }
    }

    /// Begins a table with these lists, which are empty, or with what was expected of its command.
    fn begin(&mut self, lists: Result<Lists, Expected>)
        ensures { Begun (draft_or lists) self.old self.new }
    {
        self.loading = Some(Loading { lists, lines: 0 });
    }

    /// The inline catalogue becomes the current one.
    fn take_inline(&mut self) -> Outcome
        ensures { Inlined self.old result self.new }
    {
        self.book = Either::Left(Inline);
        Outcome::Inline
    }
}

/// The lists of a property store before any line.
fn empty_table(heap: Global) -> PropertyTable
    ensures { (result.directory.items ≡ []) × (result.pairs.items ≡ []) }
{
    PropertyTable {
        directory: Vec::new(heap),
        pairs: Vec::new(heap),
    }
}
