//! A store that is one strictly ascending list of triples.
ghost use Rattle.std.specs.Prelude.{◌≤◌, vec_len};
ghost use Rattle.triples.specs.Meaning.{largest_top};
ghost use Rattle.triples.specs.Tables.{Ordered, AllGood, triple_good, itself};
ghost use Rattle.triples.specs.Rows.{most_triples};

use crate::triple::Triple;

/// The most triples of a row store.
pub const MOST_TRIPLES: usize = 1_000_000;

/// A top, and its triples in one list.
#[derive(Drop)]
pub struct RowStore {
    /// At most 1,000,000.
    pub(crate) top: u32,
    /// Strictly ascending, each number from 1 to the top.
    pub(crate) rows: Vec<Triple>,
    ghost small: { top ≤ largest_top },
    ghost few: { vec_len rows ≤ most_triples },
    ghost terms: { AllGood (triple_good top) rows.items },
    ghost ordered: { Ordered itself rows.items },
}
