//! The state of the console between two lines, and one step of it, from a line to its answer.
ghost use Rattle.std.specs.Prelude.{◌≡◌, None};
ghost use Rattle.console.specs.Sessions.{current};
ghost use Rattle.catalogue.specs.Inlining.{inlined};
ghost use Rattle.feedtrace.specs.Books.{book_entries};
ghost use Rattle.feedtrace.specs.Does.{pending};
ghost use Rattle.feedtrace.specs.Sessions.{Answered};

use crate::answer::Answer;
use crate::current::{Book, Layered};
use crate::either::Either;
use crate::failure::Failure;
use crate::loading::Loading;
use crate::task::Task;
use catalogue::inline::Inline;
use console::line::trim;
use console::session::Session as Queries;
use std::alloc::Global;

/// What is current: the query that was read last, the store that was loaded last with the layers over it, the
/// catalogue, and the table whose lines are coming in, if one is.
#[derive(Drop)]
pub(crate) struct Session {
    pub(crate) queries: Queries,
    pub(crate) store: Option<Layered>,
    pub(crate) book: Book,
    pub(crate) loading: Option<Loading>,
}

impl Session {
    /// A session in which there is no query and no store, the catalogue is inline, and no table is being
    /// read.
    pub(crate) fn new() -> Session
        ensures query { current result.queries ≡ None }
        ensures store { result.store ≡ None }
        ensures catalogue { book_entries result.book ≡ inlined }
        ensures table { pending result ≡ None }
    {
        Session {
            queries: Queries::new(),
            store: None,
            book: Either::Left(Inline),
            loading: None,
        }
    }

    /// Answers a line: a line of the table that is being read, or else a command; nothing where it asks
    /// nothing, or is only read. A failure leaves what is current as it was.
    pub(crate) fn answer(&mut self, heap: Global, line: &[u8]) -> Result<Option<Answer>, Failure>
        ensures { Answered line.now self.old result self.new }
    {
        let text = trim(line);
        if self.loading.is_some() {
            return self.table_line(text);
        }
        match Task::parse(text)? {
            Some(task) => Ok(self.carry_out(heap, task)?.map(Answer::Task)),
            None => Ok(self.queries.answer(heap, text)?.map(Answer::Query)),
        }
    }
}
