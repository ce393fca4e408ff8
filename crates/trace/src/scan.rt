//! All triples that match a selector.
ghost use Rattle.std.specs.Prelude.{◌≡◌, IfOk};
ghost use Rattle.trace.specs.Scans.{Scanned};

use std::alloc::{AllocError, Global};
use triples::matches::Matches;
use triples::selector::Selector;
use triples::store::Store;
use triples::triple::{ORIGIN, Triple};

// Kept as a clause: a store may move things about when asked; no invariant tells what it meant before.
/// The triples of the store that match the selector, each once, ascending; none where none matches. An error
/// where memory is wanting. The store means and keeps what it did.
pub fn scan<S: Store>(
    heap: Global,
    store: &mut S,
    selector: Selector,
) -> Result<Vec<Triple>, AllocError>
    ensures answer { IfOk result (λ v. Scanned (S.Store.meaning store.old).has selector v.items) }
    ensures same { S.Store.meaning store.new ≡ S.Store.meaning store.old }
    ensures kept { S.Store.kept store.new ≡ S.Store.kept store.old }
{
    // Kept as a loop: where memory is wanting, `collect` tells nothing of the store, whose meaning stays.
    let mut found = Vec::new(heap);
    for triple in Matches::new(store, selector, ORIGIN) {
        found.push(triple)?;
    }
    Ok(found)
}
