//! What a term reaches.
ghost use Rattle.std.specs.Prelude.{◌≡◌, IfOk};
ghost use Rattle.trace.specs.Steps.{Traced};

use crate::level::level;
use std::alloc::{AllocError, Global};
use triples::store::Store;

// Kept as a clause: a store may move things about when asked; no invariant tells what it meant before.
/// The terms that `term` reaches by one step or more, where a step goes from the subject of a triple to its
/// object: each once, those first that fewer steps lead to, ascending where as many do. The term itself is
/// among them only where a cycle leads back to it; a number that is no subject reaches nothing. An error
/// where memory is wanting. The store means and keeps what it did.
pub fn trace<S: Store>(heap: Global, store: &mut S, term: u32) -> Result<Vec<u32>, AllocError>
    ensures answer { IfOk result (λ v. Traced (S.Store.meaning store.old).has term v.items) }
    ensures same { S.Store.meaning store.new ≡ S.Store.meaning store.old }
    ensures kept { S.Store.kept store.new ≡ S.Store.kept store.old }
{
    let places = store.top() as usize + 1;
    let mut seen = vec![in heap; false; places]?;
    let mut front = vec![in heap; term]?;
    let mut reached = Vec::new(heap);
    // Kept as a loop: an iterator of levels would hold the store and the marks, and each level may fail.
    // Invariant: for some number of steps, `reached` is what so many or fewer lead to, and
    // `front` what no fewer do.
    'levels: while !front.is_empty() {
        front = level(heap, store, front.as_slice(), seen.as_mut_slice())?;
        reached.extend_from_slice(front.as_slice())?;
    }
    Ok(reached)
}
