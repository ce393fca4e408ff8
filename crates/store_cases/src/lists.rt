//! Six triples, as a list and as a table, and lists of triples, entries and pairs from plain numbers.
ghost use Rattle.std.specs.Prelude.{◌≡◌, IfOk, map};
ghost use Rattle.store_cases.specs.Numbers.{triple_from, entry_from, pair_from};

use crate::numbers::triple_of;
use std::alloc::{AllocError, Global};
use triples::entry::DirectoryEntry;
use triples::pair::Pair;
use triples::property_store::PropertyTable;
use triples::triple::Triple;

/// Six triples over the terms from 1 to 5.
pub const LIST: [(u32, u32, u32); 6] = [
    (1, 2, 1),
    (1, 4, 5),
    (2, 2, 3),
    (2, 4, 1),
    (2, 4, 4),
    (5, 2, 1),
];

/// The directory of the same triples, with an empty entry first, in the middle and last.
pub const DIRECTORY: [(u32, u32); 5] = [(1, 0), (2, 0), (3, 3), (4, 3), (5, 6)];

/// The pairs of the same triples.
pub const PAIRS: [(u32, u32); 6] = [(1, 1), (2, 3), (5, 1), (1, 5), (2, 1), (2, 4)];

// Kept as three functions: one for all, given a closure and clauses on its calls, proves and is longer.
/// The triples of these numbers.
pub fn rows(heap: Global, list: &[(u32, u32, u32)]) -> Result<Vec<Triple>, AllocError>
    ensures { IfOk result (λ v. v.items ≡ map triple_from list.now) }
{
    list.iter().copied().map(triple_of).collect(heap)
}

/// The entries of these properties and first places.
fn entries_of(heap: Global, list: &[(u32, u32)]) -> Result<Vec<DirectoryEntry>, AllocError>
    ensures { IfOk result (λ v. v.items ≡ map entry_from list.now) }
{
    list.iter()
        .copied()
        .map(|(property, first)| DirectoryEntry { property, first })
        .collect(heap)
}

/// The pairs of these subjects and objects.
fn pairs_of(heap: Global, list: &[(u32, u32)]) -> Result<Vec<Pair>, AllocError>
    ensures { IfOk result (λ v. v.items ≡ map pair_from list.now) }
{
    list.iter()
        .copied()
        .map(|(subject, object)| Pair { subject, object })
        .collect(heap)
}

/// The directory and the pairs of these numbers.
pub fn table(
    heap: Global,
    directory: &[(u32, u32)],
    pairs: &[(u32, u32)],
) -> Result<PropertyTable, AllocError>
    ensures { IfOk result (λ t. (t.directory.items ≡ map entry_from directory.now)
        × (t.pairs.items ≡ map pair_from pairs.now)) }
{
    Ok(PropertyTable {
        directory: entries_of(heap, directory)?,
        pairs: pairs_of(heap, pairs)?,
    })
}
