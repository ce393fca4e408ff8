//! Making stores and catalogues of the tables that were read.
ghost use Rattle.std.specs.Prelude.{◌≡◌};
ghost use Rattle.feedtrace.specs.Drafts.{draft_of};
ghost use Rattle.feedtrace.specs.Drafts as drafts;
ghost use Rattle.feedtrace.specs.Layerings.{bare};
ghost use Rattle.feedtrace.specs.Loads.{Loaded};

use crate::current::{Table, bare};
use crate::either::Either;
use crate::failure::Failure;
use crate::loading::Lists;
use crate::outcome::Outcome;
use crate::session::Session;
use catalogue::listed::Listed;
use catalogue::record::Record;
use triples::property_store::{PropertyStore, PropertyTable};
use triples::row_store::RowStore;
use triples::triple::Triple;

impl Session {
    /// The table becomes the current store or catalogue, or it is refused and all is as it was.
    pub(crate) fn load(&mut self, lists: Lists) -> Result<Outcome, Failure>
        ensures { Loaded (draft_of lists) self.old result self.new }
    {
        match lists {
            Lists::Rows(top, rows) => self.load_rows(top, rows),
            Lists::Properties(top, table) => self.load_properties(top, table),
            Lists::Records(records) => self.load_records(records),
        }
    }

    /// The table becomes the current store, without layers.
    fn put(&mut self, table: Table)
        ensures { self.new ≡ record self.old { store = Some (bare table) } }
    {
        self.store = Some(bare(table));
    }

    // Kept as three: loader, place and counts differ; a shared one would take nearly every line as a closure.
    /// The rows become the current store.
    fn load_rows(&mut self, top: u32, rows: Vec<Triple>) -> Result<Outcome, Failure>
        ensures { Loaded (drafts.rows top rows.items) self.old result self.new }
    {
        let triples = rows.len();
        let store = RowStore::load(top, rows)?;
        self.put(Either::Left(store));
        Ok(Outcome::Rows { top, triples })
    }

    /// The directory and the pairs become the current store.
    fn load_properties(&mut self, top: u32, table: PropertyTable) -> Result<Outcome, Failure>
        ensures { Loaded (drafts.properties top table.directory.items table.pairs.items)
            self.old result self.new }
    {
        let properties = table.directory.len();
        let pairs = table.pairs.len();
        let store = PropertyStore::load(top, table)?;
        self.put(Either::Right(store));
        Ok(Outcome::Properties {
            top,
            properties,
            pairs,
        })
    }

    /// The records become the current catalogue.
    fn load_records(&mut self, records: Vec<Record>) -> Result<Outcome, Failure>
        ensures { Loaded (drafts.records records.items) self.old result self.new }
    {
        let count = records.len();
        let catalogue = Listed::load(records)?;
        self.book = Either::Right(catalogue);
        Ok(Outcome::Listed(count))
    }
}
