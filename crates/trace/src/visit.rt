//! The terms one step from a term.
ghost use Rattle.std.specs.Prelude.{◌≡◌, ◌<◌, length, IfOk};
ghost use Rattle.trace.specs.Levels.{Visited};

use std::alloc::AllocError;
use std::mem;
use triples::matches::Matches;
use triples::selector::{ANY, Selector};
use triples::store::Store;
use triples::triple::ORIGIN;

// Kept as a clause: a store may move things about when asked; no invariant tells what it meant before.
/// Puts the terms one step from `term` that are not seen yet behind those found, each once, and marks them.
pub(crate) fn visit<S: Store>(
    store: &mut S,
    term: u32,
    seen: &mut [bool],
    found: &mut Vec<u32>,
) -> Result<(), AllocError>
    requires { (S.Store.meaning store.old).top < length seen.old }
    ensures answer { IfOk result (λ _. Visited (S.Store.meaning store.old).has term seen.old
        found.old.items seen.new found.new.items) }
    ensures same { S.Store.meaning store.new ≡ S.Store.meaning store.old }
    ensures kept { S.Store.kept store.new ≡ S.Store.kept store.old }
{
    // As an entry of a selector 0 stands for any number, but as a term it is none.
    if term == ANY {
        return Ok(());
    }
    let selector = Selector {
        subject: term,
        property: ANY,
        object: ANY,
    };
    for triple in Matches::new(store, selector, ORIGIN) {
        let first_met = !mem::replace(&mut seen[triple.object as usize], true);
        if first_met {
            found.push(triple.object)?;
        }
    }
    Ok(())
}
