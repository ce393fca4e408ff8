//! A directory over a list of pairs: which pairs belong to which property.
ghost use Rattle.std.specs.Prelude.{◌≡◌, ◌<◌, ◌≤◌, length, MatchOption};
ghost use Rattle.triples.specs.Directory.{follows, first_of, end_of, section, entry_good};
ghost use Rattle.triples.specs.Directory.{EntriesGood, FirstBroken};
ghost use Rattle.triples.specs.Sections.{SectionsOrdered, Fallen};
ghost use Rattle.triples.specs.Spans.{Spanned};

use crate::ascent::fall;
use crate::entry::DirectoryEntry;
use crate::pair::Pair;
use crate::selector::ANY;
use crate::store::is_term;
use std::ops::Range;

// Kept by index: the first entry has none before it, so a walk over neighbours would leave it out.
/// Whether entry `i` goes on from the one before it: the first begins at place 0, a later one has a larger
/// property and no smaller place.
fn is_next(directory: &[DirectoryEntry], i: usize) -> bool
    requires { i < length directory.now }
    ensures { result ≡ follows directory.now i }
{
    let entry = directory[i];
    if i == 0 {
        return entry.first == 0;
    }
    let previous = directory[i - 1];
    previous.property < entry.property && previous.first <= entry.first
}

// Kept as parameters: a `Table` is only made of a directory that is known to be in order.
/// Whether entry `i` is in order, in a table of so many pairs.
fn is_in_order(top: u32, directory: &[DirectoryEntry], pairs: usize, i: usize) -> bool
    requires { i < length directory.now }
    ensures { result ≡ entry_good top directory.now pairs i }
{
    let entry = directory[i];
    is_term(top, entry.property) && entry.first as usize <= pairs && is_next(directory, i)
}

// Kept by index: an entry is judged with the one before it, and the first has none.
/// The first entry that is broken, in a table of so many pairs; none where all are good.
pub(crate) fn first_broken(top: u32, directory: &[DirectoryEntry], pairs: usize) -> Option<usize>
    ensures { MatchOption result (EntriesGood top directory.now pairs) (FirstBroken top directory.now pairs) }
{
    (0..directory.len()).find(|i| !is_in_order(top, directory, pairs, *i))
}

/// A top, a directory whose entries are in order, and the pairs of all of them.
#[derive(Drop)]
pub(crate) struct Table<'a> {
    pub(crate) top: u32,
    pub(crate) directory: &'a [DirectoryEntry],
    pub(crate) pairs: &'a [Pair],
    ghost good: { EntriesGood top directory.now (length pairs.now) },
}

impl<'a> Table<'a> {
    /// The place behind the pairs of entry `i`.
    fn end(&self, i: usize) -> usize
        requires { i < length self.now.directory.now }
        ensures answer { result ≡ end_of self.now.directory.now (length self.now.pairs.now) i }
        ensures within { (first_of self.now.directory.now i ≤ result)
            × (result ≤ length self.now.pairs.now) }
    {
        match self.directory.get(i + 1) {
            Some(next) => next.first as usize,
            None => self.pairs.len(),
        }
    }

    /// The pairs of entry `i`.
    pub(crate) fn pairs_of(&self, i: usize) -> &'a [Pair]
        requires { i < length self.now.directory.now }
        ensures { result.now ≡ section self.now.directory.now self.now.pairs.now i }
    {
        &self.pairs[self.directory[i].first as usize..self.end(i)]
    }

    /// The place of a pair that is not above the one before it in its entry; none where each entry's pairs
    /// ascend.
    pub(crate) fn fall_in_entry(&self) -> Option<usize>
        ensures { MatchOption result (SectionsOrdered self.now.directory.now self.now.pairs.now)
            (Fallen self.now.directory.now self.now.pairs.now) }
    {
        // Kept as a loop: std has lemmas on `find`, and none on `find_map`, whose proof didn't close.
        for (i, entry) in self.directory.iter().enumerate() {
            if let Some(place) = fall(self.pairs_of(i)) {
                return Some(entry.first as usize + place);
            }
        }
        None
    }

    /// The entries whose property the selector's entry accepts: all, or one, or none.
    pub(crate) fn span_of(&self, wanted: u32) -> Range<usize>
        ensures { Spanned self.now.directory.now wanted result }
    {
        if wanted == ANY {
            return 0..self.directory.len();
        }
        match self
            .directory
            .binary_search_by_key(&wanted, |entry| entry.property)
        {
            Ok(i) => i..i + 1,
            Err(i) => i..i,
        }
    }
}
