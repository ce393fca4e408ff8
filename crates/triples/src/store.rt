//! What it takes to be a store of triples.
ghost use Rattle.std.specs.Prelude.{◌≡◌};
ghost use Rattle.triples.specs.Meaning.{Meaning, Sound, least_term, term};
ghost use Rattle.triples.specs.Seeks.{Sought, Leapt};

use crate::position::{Position, offered};
use crate::selector::Selector;
use crate::triple::{ORIGIN, Triple};

/// The least term.
pub const FIRST_TERM: u32 = 1;

/// The largest top of a store.
pub const LARGEST_TOP: u32 = 1_000_000;

/// Whether the number is a term under the top: from 1 to the top.
pub fn is_term(top: u32, number: u32) -> bool
    ensures { result ≡ term top number }
{
    (FIRST_TERM..=top).contains(&number)
}

/// The least term from the bound on.
fn first_term(bound: u32) -> u32
    ensures { result ≡ least_term bound }
{
    bound.max(FIRST_TERM)
}

// Kept as arguments and clauses: the calls are published, and an invariant sees one time only.
/// A top and a set of triples over the terms from 1 to the top. Everything above is proved against this
/// meaning alone, for each kind of store. No call refuses anything, and each leaves the meaning as it is, and
/// what the kind of store says that it keeps; it may move other things about inside itself when asked, so the
/// calls take `&mut self`.
pub trait Store {
    /// What the store stands for.
    ghost meaning: { Self → Meaning };

    /// The top is at most 1,000,000, and every triple has a term from 1 to the top at each position. A store
    /// that held another number would have answers that going over the terms never finds.
    ghost sound: { (s : Self) → Sound (meaning s) };

    /// What kind of thing `kept` is.
    ghost Kept: { Type 0 };

    /// What else of the store no question changes: of a table all of it, of a layer what the store below
    /// stands for and keeps, and what is withdrawn or turned. What is taken off or restored later hangs on
    /// it.
    ghost kept: { Self → Kept };

    /// The top.
    fn top(&mut self) -> u32
        ensures answer { result ≡ (meaning self.old).top }
        ensures same { meaning self.new ≡ meaning self.old }
        ensures kept { kept self.new ≡ kept self.old };

    /// The least triple that matches the selector and is not below the start; none where there is none.
    fn seek(&mut self, selector: Selector, start: Triple) -> Option<Triple>
        ensures answer { Sought (meaning self.old).has selector start result }
        ensures same { meaning self.new ≡ meaning self.old }
        ensures kept { kept self.new ≡ kept self.old };

    /// The smallest number from the bound on that stands at the position in some triple that matches the
    /// selector; none where there is none. One seek answers it where the entries before the position are
    /// known, or its own entry is; elsewhere this body asks for one number after the other, and a kind of
    /// store does better where its order allows.
    fn leap(&mut self, position: Position, selector: Selector, bound: u32) -> Option<u32>
        ensures answer { Leapt (meaning self.old).has position selector bound result }
        ensures same { meaning self.new ≡ meaning self.old }
        ensures kept { kept self.new ≡ kept self.old }
    {
        if let Some(start) = selector.aim(position, bound) {
            let found = self.seek(selector, start);
            return offered(found, position, bound);
        }
        let top = self.top();
        // Kept as a loop: a proof knows nothing of a store that a closure under `find` has asked.
        for number in first_term(bound)..top + 1 {
            if self.seek(selector.with(position, number), ORIGIN).is_some() {
                return Some(number);
            }
        }
        None
    }
}
