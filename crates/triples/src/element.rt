//! The elements of the lists that a store keeps, each with the triple that it stands for.
ghost use Rattle.std.specs.Prelude.{◌≡◌, ℕ, Bool, MatchOption};
ghost use Rattle.triples.specs.declared.triple.Triple.{Triple};
ghost use Rattle.triples.specs.Tables.{AllGood, FirstBad, triple_good, pair_good, triple_of};

use crate::pair::Pair;
use crate::store::is_term;
use crate::triple::Triple;

/// An element of a list that is ordered by the triples that its elements stand for.
pub(crate) trait Element {
    /// The triple that the element stands for, in a list whose property is given.
    ghost placed: { ℕ → Self → Triple };

    /// The element's own numbers are terms up to the top.
    ghost good: { ℕ → Self → Bool };

    /// The triple that the element stands for, in a list of the property.
    fn triple(&self, property: u32) -> Triple
        ensures { result ≡ placed property self.now };

    /// Whether the element's own numbers are terms up to the top.
    fn is_good(&self, top: u32) -> bool
        ensures { result ≡ good top self.now };
}

impl Element for Triple {
    ghost placed = { λ _ t. t };

    ghost good = { triple_good };

    fn triple(&self, _property: u32) -> Triple {
        *self
    }

    fn is_good(&self, top: u32) -> bool {
        is_term(top, self.subject) && is_term(top, self.property) && is_term(top, self.object)
    }
}

impl Element for Pair {
    ghost placed = { triple_of };

    ghost good = { pair_good };

    fn triple(&self, property: u32) -> Triple {
        Triple {
            subject: self.subject,
            property,
            object: self.object,
        }
    }

    fn is_good(&self, top: u32) -> bool {
        is_term(top, self.subject) && is_term(top, self.object)
    }
}

/// The first element whose own numbers are not all terms up to the top; none where all are.
pub(crate) fn first_outside<T: Element>(items: &[T], top: u32) -> Option<usize>
    ensures { MatchOption result (AllGood (T.Element.good top) items.now)
        (FirstBad (T.Element.good top) items.now) }
{
    items.iter().position(|item| !item.is_good(top))
}
