//! The lines of a table in a session, and its end.
ghost use Rattle.std.specs.Prelude.{◌≡◌};
ghost use Rattle.feedtrace.specs.Does.{pending};
ghost use Rattle.feedtrace.specs.Drafts.{pending_of, progress_of};
ghost use Rattle.feedtrace.specs.Lines.{Ended, Finished, ReadInto, TableLine, unfinished};

use crate::answer::Answer;
use crate::expected::Expected;
use crate::failure::Failure;
use crate::loading::Loading;
use crate::outcome::Outcome;
use crate::session::Session;

/// How many lines of a table there are between two remarks on how far it is.
const REMARK_EVERY: u64 = 100_000;

impl Session {
    /// How many lines of the table are read, at each hundred thousandth; none elsewhere.
    pub(crate) fn progress(&self) -> Option<u64>
        ensures { result ≡ progress_of (pending self.now) }
    {
        let lines = self.loading.as_ref()?.lines;
        (lines > 0 && lines % REMARK_EVERY == 0).then_some(lines)
    }

    /// What is expected where the input ends: the end of the table, if one is being read.
    pub(crate) fn unfinished(&self) -> Option<Failure>
        ensures { result ≡ unfinished (pending self.now) }
    {
        self.loading
            .as_ref()
            .map(|_| Failure::Expected(Expected::End))
    }

    /// Answers a line of the table that is being read; nothing where it is only read.
    pub(crate) fn table_line(&mut self, text: &[u8]) -> Result<Option<Answer>, Failure>
        ensures { TableLine text.now self.old result self.new }
    {
        match text {
            b"end" => self.finish(),
            _ => {
                self.read_line(text);
                Ok(None)
            }
        }
    }

    // Kept as a second test, as in `finish`: a table taken in `answer` would go back at each line but `end`.
    /// Reads a line into the table that is being read.
    fn read_line(&mut self, text: &[u8])
        ensures { ReadInto text.now self.old self.new }
    {
        if let Some(loading) = &mut self.loading {
            loading.read(text);
        }
    }

    /// Ends the table that is being read.
    fn finish(&mut self) -> Result<Option<Answer>, Failure>
        ensures { Finished self.old result self.new }
    {
        match self.loading.take() {
            Some(loading) => Ok(Some(Answer::Task(self.end(loading)?))),
            None => Ok(None),
        }
    }

    /// The end of the table: it is loaded, or its command or one of its lines was wrong.
    fn end(&mut self, table: Loading) -> Result<Outcome, Failure>
        ensures { Ended (pending_of table) self.old result self.new }
    {
        self.load(table.lists?)
    }
}
