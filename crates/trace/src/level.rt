//! One level of a trace: the terms one step from those of the level before.
ghost use Rattle.std.specs.Prelude.{◌≡◌, ◌<◌, length, IfOk};
ghost use Rattle.trace.specs.Levels.{Level};

use crate::visit::visit;
use std::alloc::{AllocError, Global};
use triples::store::Store;

// Kept as a clause: a store may move things about when asked; no invariant tells what it meant before.
// Kept as parameters: `scan` and `trace` are public with theirs, and the marks go on from `level` to `visit`.
/// The terms one step from those of `front` that are not seen yet, each once, ascending. Marks them as seen.
pub(crate) fn level<S: Store>(
    heap: Global,
    store: &mut S,
    front: &[u32],
    seen: &mut [bool],
) -> Result<Vec<u32>, AllocError>
    requires { (S.Store.meaning store.old).top < length seen.old }
    ensures answer { IfOk result (λ v. Level (S.Store.meaning store.old).has front.now seen.old seen.new
        v.items) }
    ensures same { S.Store.meaning store.new ≡ S.Store.meaning store.old }
    ensures kept { S.Store.kept store.new ≡ S.Store.kept store.old }
{
    let mut found = Vec::new(heap);
    for term in front {
        visit(store, *term, seen, &mut found)?;
    }
    found.sort_unstable();
    Ok(found)
}
