//! Loading a row store, or saying why not.
ghost use Rattle.std.specs.Prelude.{◌≡◌, vec_len, MatchResult};
ghost use Rattle.triples.specs.Rows.{RowsOutcome};
ghost use Rattle.triples.specs.Loads.{RowsLoaded};

use crate::ascent::fall;
use crate::element::first_outside;
use crate::row_store::{MOST_TRIPLES, RowStore};
use crate::store::LARGEST_TOP;
use crate::triple::Triple;
use refusal::declined::{Declined, accepted};
use refusal::refusal::Refusal;
use refusal::rejection::Rejection;

/// Accepts a top and triples that are a row store, or says why they are none.
fn check(top: u32, rows: &[Triple]) -> Result<(), Rejection>
    ensures { MatchResult result (λ _. RowsOutcome top rows.now None)
        (λ r. RowsOutcome top rows.now (Some r)) }
{
    if top > LARGEST_TOP || rows.len() > MOST_TRIPLES {
        return Err(Rejection::unplaced(Refusal::OverLimit));
    }
    if let Some(place) = first_outside(rows, top) {
        return Err(Refusal::OutsideTerms.at(place));
    }
    match fall(rows) {
        Some(place) => Err(Refusal::NotAscending.at(place)),
        None => Ok(()),
    }
}

impl RowStore {
    /// A row store of these triples. Refused by 1 if the top or the number of triples is over 1,000,000, by 3
    /// at the first triple with a number that is 0 or over the top, by 4 at a triple that is not above the
    /// one before it, each over the whole list before the next; the list then comes back as it was.
    pub fn load(top: u32, rows: Vec<Triple>) -> Result<RowStore, Declined<Vec<Triple>>>
        ensures { RowsLoaded top rows result }
    {
        let rows = accepted(check(top, &rows), rows)?;
        Ok(RowStore { top, rows })
    }

    /// The number of triples.
    pub fn len(&self) -> usize
        ensures { result ≡ vec_len self.now.rows }
    {
        self.rows.len()
    }
}
