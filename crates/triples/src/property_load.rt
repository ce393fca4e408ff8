//! Loading a property store, or saying why not.
ghost use Rattle.std.specs.Prelude.{◌≡◌, vec_len, MatchResult};
ghost use Rattle.triples.specs.Sections.{TableOutcome};
ghost use Rattle.triples.specs.Loads.{TableLoaded};

use crate::element::first_outside;
use crate::entry::DirectoryEntry;
use crate::pair::Pair;
use crate::property_store::{MOST_ENTRIES, MOST_PAIRS, PropertyStore, PropertyTable};
use crate::store::LARGEST_TOP;
use crate::table::{Table, first_broken};
use refusal::declined::{Declined, accepted};
use refusal::refusal::Refusal;
use refusal::rejection::Rejection;

/// Accepts a top, a directory and pairs that are a property store, or says why they are none.
fn check(top: u32, directory: &[DirectoryEntry], pairs: &[Pair]) -> Result<(), Rejection>
    ensures { MatchResult result (λ _. TableOutcome top directory.now pairs.now None)
        (λ r. TableOutcome top directory.now pairs.now (Some r)) }
{
    if top > LARGEST_TOP || directory.len() > MOST_ENTRIES || pairs.len() > MOST_PAIRS {
        return Err(Rejection::unplaced(Refusal::OverLimit));
    }
    if directory.is_empty() && !pairs.is_empty() {
        return Err(Rejection::unplaced(Refusal::DirectoryBroken));
    }
    if let Some(entry) = first_broken(top, directory, pairs.len()) {
        return Err(Refusal::DirectoryBroken.at(entry));
    }
    if let Some(place) = first_outside(pairs, top) {
        return Err(Refusal::OutsideTerms.at(place));
    }
    let table = Table {
        top,
        directory,
        pairs,
    };
    match table.fall_in_entry() {
        Some(place) => Err(Refusal::NotAscending.at(place)),
        None => Ok(()),
    }
}

impl PropertyStore {
    /// A property store of these lists. Refused by 1 if the top or the number of pairs is over 1,000,000, or
    /// there are more than 4,096 entries; by 2 at the first broken entry, or at 0 where there are pairs and
    /// no entries; by 3 at the first pair with a number that is 0 or over the top; by 4 at a pair that is not
    /// above the one before it in its entry; each over the whole table before the next. The lists then come
    /// back as they were.
    pub fn load(top: u32, table: PropertyTable) -> Result<PropertyStore, Declined<PropertyTable>>
        ensures { TableLoaded top table result }
    {
        let table = accepted(check(top, &table.directory, &table.pairs), table)?;
        let PropertyTable { directory, pairs } = table;
        Ok(PropertyStore {
            top,
            directory,
            pairs,
        })
    }

    /// The number of directory entries.
    pub fn entries(&self) -> usize
        ensures { result ≡ vec_len self.now.directory }
    {
        self.directory.len()
    }

    /// The number of pairs.
    pub fn len(&self) -> usize
        ensures { result ≡ vec_len self.now.pairs }
    {
        self.pairs.len()
    }
}
