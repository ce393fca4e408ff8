//! The forms of tasks.
ghost use Rattle.std.specs.Prelude.{◌≡◌};
ghost use Rattle.feedtrace.specs.Fields.{Parted};
ghost use Rattle.feedtrace.specs.Forms.{begins_table, catalogue_form, catalogue_of, filter_form};
ghost use Rattle.feedtrace.specs.Forms.{inverse_form, leap_form, seek_form, task_asked, task_fields};
ghost use Rattle.feedtrace.specs.Forms.{task_form};
ghost use Rattle.feedtrace.specs.WrittenTasks.{TaskReadsBack};

use crate::expected::Expected;
use crate::field::Fields;
use crate::part::Part;
use crate::task::Task;
use crate::verb::Verb;
use console::line::split_word;
use triples::selector::ANY;

impl Task {
    /// The task that the text asks; none where its first word is no task's. An error where what follows the
    /// word has another form than the task's, and no table begins.
    pub(crate) fn parse(text: &[u8]) -> Result<Option<Task>, Expected>
        ensures said { result ≡ task_asked text.now }
        ensures law { TaskReadsBack text.now result }
    {
        let (word, rest) = split_word(text);
        let Some(verb) = Verb::of(word) else {
            return Ok(None);
        };
        match Task::of(verb, rest) {
            Some(task) => Ok(Some(task)),
            None if begins_table(verb, rest) => Ok(Some(Task::MalformedTable(verb))),
            None => Err(Expected::Form(verb)),
        }
    }

    /// The task that the word and what follows it are; none where it has another form.
    fn of(verb: Verb, text: &[u8]) -> Option<Task>
        ensures { result ≡ task_form verb text.now }
    {
        let mut fields = Fields { rest: text };
        let task = fields.task(verb)?;
        fields.end(task)
    }
}

/// Whether the word begins a table, with what follows it, be it well formed or not.
fn begins_table(verb: Verb, rest: &[u8]) -> bool
    ensures { result ≡ begins_table verb rest.now }
{
    match verb {
        Verb::RowStore | Verb::PropertyStore => true,
        Verb::Catalogue => matches!(Fields { rest }.word(), b"listed"),
        _ => false,
    }
}

/// The beginning of the kind of catalogue that the word names.
fn catalogue_of(word: &[u8]) -> Option<Task>
    ensures { result ≡ catalogue_of word.now }
{
    match word {
        b"inline" => Some(Task::InlineCatalogue),
        b"listed" => Some(Task::ListedCatalogue),
        _ => None,
    }
}

impl Fields<'_> {
    /// The task of the word, as far as its form goes.
    fn task(&mut self, verb: Verb) -> Option<Task>
        ensures { Parted result self.new.rest.now (task_fields verb self.old.rest.now) }
    {
        match verb {
            Verb::RowStore => Some(Task::RowStore(self.number()?)),
            Verb::PropertyStore => Some(Task::PropertyStore(self.number()?)),
            Verb::Catalogue => self.catalogue(),
            Verb::Inverse => self.inverse(),
            Verb::Withdrawn => Some(Task::Withdrawn),
            Verb::Withdraw => Some(Task::Withdraw(self.triple()?)),
            Verb::Restore => Some(Task::Restore(self.triple()?)),
            Verb::Seek => self.seek(),
            Verb::Leap => self.leap(),
            Verb::Lookup => Some(Task::Lookup(self.number()?)),
            Verb::Scan => Some(Task::Scan(self.triple()?.into())),
            Verb::Trace => Some(Task::Trace(self.number()?)),
            Verb::Filter => self.filter(),
        }
    }

    /// The kind of catalogue that is named.
    fn catalogue(&mut self) -> Option<Task>
        ensures { Parted result self.new.rest.now (catalogue_form self.old.rest.now) }
    {
        catalogue_of(self.word())
    }

    /// The inverse layer of two properties.
    fn inverse(&mut self) -> Option<Task>
        ensures { Parted result self.new.rest.now (inverse_form self.old.rest.now) }
    {
        let property = self.number()?;
        let inverse = self.number()?;
        Some(Task::Inverse(property, inverse))
    }

    /// The seeking by a selector from a start.
    fn seek(&mut self) -> Option<Task>
        ensures { Parted result self.new.rest.now (seek_form self.old.rest.now) }
    {
        let wanted = self.triple()?;
        self.from_word()?;
        let start = self.triple()?;
        Some(Task::Seek(wanted.into(), start))
    }

    /// The leap at a position, by a selector with 0 there, from a bound.
    fn leap(&mut self) -> Option<Task>
        ensures { Parted result self.new.rest.now (leap_form self.old.rest.now) }
    {
        let position = self.position()?;
        let wanted = self.triple()?;
        self.from_word()?;
        let bound = self.number()?;
        (wanted.value(position) == ANY).then_some(Task::Leap(position, wanted.into(), bound))
    }

    /// The filter of an alternative; or, where one number more stands, of a block of it.
    fn filter(&mut self) -> Option<Task>
        ensures { Parted result self.new.rest.now (filter_form self.old.rest.now) }
    {
        let alternative = self.number()?;
        let behind = *self;
        let row = self.row_values()?;
        if self.rest.is_empty() {
            return Some(Task::Filter(Part::Alternative(alternative), row));
        }
        *self = behind;
        let block = self.number()?;
        let row = self.row_values()?;
        Some(Task::Filter(Part::Block(alternative, block), row))
    }
}
