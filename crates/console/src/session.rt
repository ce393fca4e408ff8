//! The session of a console: what is current between two lines, and one step of it, from a line to its
//! answer.
ghost use Rattle.std.specs.Prelude.{◌≡◌, [], map, None};
ghost use Rattle.std.specs.Option.{option_map, unwrap_or};
ghost use Rattle.query.specs.Parts.{group_of};
ghost use Rattle.query.specs.Shape.{shape};
ghost use Rattle.console.specs.Sessions.{current, Answered, Steps, Showed, Took, Wrote};

use crate::answer::Answer;
use crate::command::Command;
use crate::expected::Expected;
use crate::failure::Failure;
use crate::reply::Reply;
use query::query::Query;
use query::read;
use std::alloc::Global;

/// What is current: the query that was read last, if any was.
#[derive(Drop)]
pub struct Session {
    query: Option<Query>,
}

impl Session {
    /// A session in which nothing is current.
    pub fn new() -> Session
        ensures { current result ≡ None }
    {
        Session { query: None }
    }

    /// Answers the line; nothing where it asks nothing. A failure leaves the session as it was, and so does
    /// every line but one with a query that is read.
    pub fn answer(&mut self, heap: Global, line: &[u8]) -> Result<Option<Answer>, Failure>
        ensures { Answered line.now self.old result self.new }
    {
        match Command::parse(heap, line)? {
            Some(command) => Ok(Some(self.step(heap, command)?)),
            None => Ok(None),
        }
    }

    /// Carries out the command and answers it. A failure leaves the session as it was, and so does every
    /// command but a query that is read.
    pub fn step(&mut self, heap: Global, command: Command) -> Result<Answer, Failure>
        ensures { Steps self.old command result self.new }
    {
        match command {
            Command::Query(bytes) => self.take(heap, bytes.as_slice()),
            Command::Write(length) => self.write(heap, length),
            Command::Show => self.show(),
        }
    }

    /// The current query, if there is one.
    pub fn query(&self) -> Option<&Query>
        ensures { option_map (λ query. shape query.now) result ≡ current self.now }
    {
        self.query.as_ref()
    }

    /// The answer, with the alternatives of the current query that it is printed with; none where there is no
    /// current query.
    pub fn reply<'a>(&'a self, answer: &'a Answer) -> Reply<'a>
        ensures answer { result.answer.now ≡ answer.now }
        ensures alternatives { map group_of result.alternatives.now ≡ unwrap_or (current self.now) [] }
    {
        let alternatives = self.query().map(Query::alternatives).unwrap_or(&[]);
        Reply {
            answer,
            alternatives,
        }
    }

    /// Reads the bytes; the query that they are becomes the current one.
    fn take(&mut self, heap: Global, bytes: &[u8]) -> Result<Answer, Failure>
        ensures { Took bytes.now self.old result self.new }
    {
        let query = read::read(heap, bytes)?;
        let counts = query.counts();
        self.query = Some(query);
        Ok(Answer::Counts(counts))
    }

    /// Writes the current query into a buffer of so many bytes.
    fn write(&self, heap: Global, length: u32) -> Result<Answer, Failure>
        ensures { Wrote length self.now result }
    {
        let query = self.query().ok_or(Expected::Query)?;
        let mut buffer = vec![in heap; 0u8; length as usize]?;
        let written = query.write(buffer.as_mut_slice())?;
        buffer.truncate(written);
        Ok(Answer::Bytes(buffer))
    }

    /// Says whether there is a current query to show.
    fn show(&self) -> Result<Answer, Failure>
        ensures { Showed self.now result }
    {
        self.query().ok_or(Expected::Query)?;
        Ok(Answer::Shown)
    }
}
