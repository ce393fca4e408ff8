//! Laying the inverse of a property over a store, and taking it off.
ghost use Rattle.std.specs.Prelude.{◌≡◌};
ghost use Rattle.layers.specs.Inverting.{Inverted};

use crate::inverse::Inverse;
use crate::turn::Turn;
use refusal::declined::Declined;
use refusal::refusal::Refusal;
use refusal::rejection::Rejection;
use triples::store::{Store, is_term};

impl<S: Store> Inverse<S> {
    // Kept as two numbers: a `Turn` holds only what is no 0, and this is where they are tested.
    /// The store with the inverse of the property; the two may be the same. Refused with 25, with no place,
    /// where one of them is 0 or over the top; the store then comes back. Below the layer, or given back, it
    /// means and keeps what it did.
    pub fn new(mut below: S, property: u32, inverse: u32) -> Result<Inverse<S>, Declined<S>>
        ensures { Inverted S.Store.meaning S.Store.kept below property inverse result }
    {
        let top = below.top();
        // Kept in place: with `accepted`, the facts that a `Turn` stands on would be behind a result.
        if is_term(top, property) && is_term(top, inverse) {
            Ok(Inverse {
                below,
                turn: Turn { property, inverse },
            })
        } else {
            Err(Declined {
                rejection: Rejection::unplaced(Refusal::PropertyOutside),
                given: below,
            })
        }
    }

    /// The store below.
    pub fn into_below(self) -> S
        ensures { result ≡ self.below }
    {
        self.below
    }
}
