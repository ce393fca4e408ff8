//! Reading the lines of a table, one after the other.
ghost use Rattle.feedtrace.specs.Drafts.{pending_of, LineRead};

use crate::loading::Loading;
use console::line::{is_absent, split_word};

impl Loading {
    /// Reads a line of the table. A blank line or a remark is only counted; after a wrong line no more is
    /// taken.
    pub(crate) fn read(&mut self, text: &[u8])
        ensures { LineRead (pending_of self.old) text.now (pending_of self.new) }
    {
        self.lines = self.lines.saturating_add(1);
        let line = self.lines;
        let (word, _) = split_word(text);
        if is_absent(word) {
            return;
        }
        if let Ok(lists) = &mut self.lists
            && let Err(expected) = lists.take(text, lists.line(line))
        {
            self.lists = Err(expected);
        }
    }
}
