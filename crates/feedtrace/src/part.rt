//! Parts of a query, and the truths of their filters.
ghost use Rattle.std.specs.Prelude.{◌≡◌};
ghost use Rattle.query.specs.Shape.{shape};
ghost use Rattle.feedtrace.specs.Books.{book_entries};
ghost use Rattle.feedtrace.specs.Judging.{part_truth};

use crate::current::Book;
use crate::expected::Expected;
use filter::parts::{block_truth, group_truth};
use filter::truth::Truth;
use query::query::Query;

/// A part of a query that has a filter, by numbers counted from 0.
#[derive(Clone, Copy)]
pub enum Part {
    /// An alternative.
    Alternative(u32),
    /// A block: the number of its alternative, then its own there.
    Block(u32, u32),
}

impl Part {
    /// The truth of the part's filter on the row; what was expected where the query has no such part. The
    /// catalogue stays as it was.
    pub(crate) fn truth(
        self,
        query: &Query,
        row: &[u32; 16],
        book: &mut Book,
    ) -> Result<Truth, Expected>
        ensures answer { result ≡ part_truth (book_entries book.old) row.now (shape query.now) self }
        ensures same { book.new ≡ book.old }
    {
        match self {
            Part::Alternative(alternative) => {
                group_truth(query, alternative as usize, row, book).ok_or(Expected::Alternative)
            }
            Part::Block(alternative, block) => {
                let truth = block_truth(query, alternative as usize, block as usize, row, book);
                truth.ok_or(Expected::Block)
            }
        }
    }
}
