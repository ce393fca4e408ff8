//! Questions to the current store, the current catalogue and the current query.
ghost use Rattle.std.specs.Borrow.{sem};
ghost use Rattle.feedtrace.specs.Currents.{LendsStore, StoreOf};
ghost use Rattle.feedtrace.specs.Judging.{Judged};
ghost use Rattle.feedtrace.specs.Tasks.{Asked, Looked, SeekAnswer, LeapAnswer, ScanAnswer};
ghost use Rattle.feedtrace.specs.Tasks.{TraceAnswer};

use crate::current::Layered;
use crate::expected::Expected;
use crate::failure::Failure;
use crate::outcome::Outcome;
use crate::part::Part;
use crate::session::Session;
use catalogue::catalogue::Catalogue;
use console::expected::Expected as Shared;
use std::alloc::Global;
use trace::scan::scan;
use trace::trace::trace as reached_from;
use triples::position::Position;
use triples::selector::Selector;
use triples::store::Store;
use triples::triple::Triple;

impl Session {
    // Kept as a match: through `ok_or` the proof loses that the store is lent, so `lends` doesn't close.
    /// The current store.
    pub(crate) fn current(&mut self) -> Result<&mut Layered, Expected>
        ensures* lends { sem 𝓛 (LendsStore self.entry result) }
        ensures value { StoreOf self.old result }
    {
        match self.store.as_mut() {
            Some(store) => Ok(store),
            None => Err(Expected::Store),
        }
    }

    /// The least triple of the current store that matches and is not below the start.
    pub(crate) fn seek(&mut self, selector: Selector, start: Triple) -> Result<Outcome, Failure>
        ensures { Asked (SeekAnswer selector start) self.old result self.new }
    {
        let store = self.current()?;
        Ok(Outcome::Found(store.seek(selector, start)))
    }

    /// The smallest number from the bound on at the position of a matching triple of the current store.
    pub(crate) fn leap(
        &mut self,
        position: Position,
        selector: Selector,
        bound: u32,
    ) -> Result<Outcome, Failure>
        ensures { Asked (LeapAnswer position selector bound) self.old result self.new }
    {
        let store = self.current()?;
        Ok(Outcome::Number(store.leap(position, selector, bound)))
    }

    /// The triples of the current store that match, ascending.
    pub(crate) fn scan(&mut self, heap: Global, selector: Selector) -> Result<Outcome, Failure>
        ensures { Asked (ScanAnswer selector) self.old result self.new }
    {
        let store = self.current()?;
        Ok(Outcome::Triples(scan(heap, store, selector)?))
    }

    /// The terms that the term reaches in the current store, breadth first.
    pub(crate) fn trace(&mut self, heap: Global, term: u32) -> Result<Outcome, Failure>
        ensures { Asked (TraceAnswer term) self.old result self.new }
    {
        let store = self.current()?;
        Ok(Outcome::Terms(reached_from(heap, store, term)?))
    }

    /// The truth of the filter of the part of the current query, on the row under the current catalogue.
    pub(crate) fn filter(&mut self, part: Part, row: [u32; 16]) -> Result<Outcome, Failure>
        ensures { Judged part row self.old result self.new }
    {
        let query = self.queries.query().ok_or(Expected::Shared(Shared::Query))?;
        let truth = part.truth(query, &row, &mut self.book)?;
        Ok(Outcome::Truth(truth))
    }

    /// Kind and value of the number in the current catalogue.
    pub(crate) fn lookup(&mut self, number: u32) -> Outcome
        ensures { Looked number self.old result self.new }
    {
        let (kind, value) = self.book.lookup(number);
        Outcome::Entry { kind, value }
    }
}
