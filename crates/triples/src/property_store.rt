//! A store of pairs, each property's in a list of its own.
ghost use Rattle.std.specs.Prelude.{◌≤◌, length, vec_len};
ghost use Rattle.triples.specs.Meaning.{largest_top};
ghost use Rattle.triples.specs.Tables.{AllGood, pair_good};
ghost use Rattle.triples.specs.Directory.{EntriesGood};
ghost use Rattle.triples.specs.Sections.{SectionsOrdered, most_entries, most_pairs};

use crate::entry::DirectoryEntry;
use crate::pair::Pair;

/// The most entries of a directory.
pub const MOST_ENTRIES: usize = 4096;

/// The most pairs of a property store.
pub const MOST_PAIRS: usize = 1_000_000;

/// A top, a directory, and the pairs of all its entries, one entry's behind the other's.
#[derive(Drop)]
pub struct PropertyStore {
    /// At most 1,000,000.
    pub(crate) top: u32,
    // Kept as a directory with places: a table is published in this form, and loading it allocates nothing.
    /// Properties ascend strictly from 1 to the top; first places begin at 0, never fall, and none is over
    /// the number of pairs.
    pub(crate) directory: Vec<DirectoryEntry>,
    /// Each entry's ascend strictly; each number is from 1 to the top.
    pub(crate) pairs: Vec<Pair>,
    ghost small: { top ≤ largest_top },
    ghost few: { (vec_len directory ≤ most_entries) × (vec_len pairs ≤ most_pairs) },
    ghost good: { EntriesGood top directory.items (length pairs.items) },
    ghost terms: { AllGood (pair_good top) pairs.items },
    ghost ordered: { SectionsOrdered directory.items pairs.items },
}

/// The lists that a property store is loaded from.
#[derive(Drop)]
pub struct PropertyTable {
    pub directory: Vec<DirectoryEntry>,
    pub pairs: Vec<Pair>,
}
