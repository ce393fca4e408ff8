//! Searching a list whose elements stand for strictly ascending triples.
ghost use Rattle.std.specs.Prelude.{◌≡◌, map};
ghost use Rattle.triples.specs.Meaning.{among};
ghost use Rattle.triples.specs.Tables.{Ordered};
ghost use Rattle.triples.specs.Finding.{Split, offer_of};
ghost use Rattle.triples.specs.Seeks.{Sought, Leapt};

use crate::element::Element;
use crate::position::{Position, offered};
use crate::selector::Selector;
use crate::triple::Triple;
use crate::union::least_of;

/// A list of the property whose elements stand for strictly ascending triples.
#[derive(Drop)]
pub(crate) struct Run<'a, T: Element> {
    pub(crate) items: &'a [T],
    pub(crate) property: u32,
    ghost ordered: { Ordered (T.placed property) items.now },
}

/// The number at the position of the triple, if the triple matches and the number is not below the bound.
fn offer(triple: Triple, position: Position, selector: Selector, bound: u32) -> Option<u32>
    ensures { result ≡ offer_of triple position selector bound }
{
    let found = selector.matches(triple).then_some(triple);
    offered(found, position, bound)
}

// Kept as arguments: a question comes as the calls of a store have it, which are published.
impl<'a, T: Element> Run<'a, T> {
    /// How many elements stand for a triple before the start.
    fn lower_bound(&self, start: Triple) -> usize
        ensures { Split (T.Element.placed self.now.property) self.now.items.now start result }
    {
        self.items
            .partition_point(|item| item.triple(self.property) < start)
    }

    /// The least triple of the list that matches the selector and is not below the start.
    pub(crate) fn seek(&self, selector: Selector, start: Triple) -> Option<Triple>
        ensures { Sought (among (map (T.Element.placed self.now.property) self.now.items.now))
            selector start result }
    {
        let from = self.lower_bound(start.max(selector.into()));
        self.items[from..]
            .iter()
            .map(|item| item.triple(self.property))
            .take_while(|triple| !selector.is_passed(*triple))
            .find(|triple| selector.matches(*triple))
    }

    /// The smallest number from the bound on at the position of a triple of the list that matches, by going
    /// over the triples that may.
    fn pass_over(&self, position: Position, selector: Selector, bound: u32) -> Option<u32>
        ensures { Leapt (among (map (T.Element.placed self.now.property) self.now.items.now))
            position selector bound result }
    {
        let from = self.lower_bound(selector.into());
        let mut least = None;
        // Kept as a loop: a chain that folds what the triples offer took up to 1.8 times as long.
        for item in &self.items[from..] {
            let triple = item.triple(self.property);
            if let Some(number) = offer(triple, position, selector, bound) {
                least = least_of(least, Some(number));
            } else if selector.is_passed(triple) {
                return least;
            }
        }
        least
    }

    /// The smallest number from the bound on at the position of a triple of the list that matches.
    pub(crate) fn leap(&self, position: Position, selector: Selector, bound: u32) -> Option<u32>
        ensures { Leapt (among (map (T.Element.placed self.now.property) self.now.items.now))
            position selector bound result }
    {
        match selector.aim(position, bound) {
            Some(start) => offered(self.seek(selector, start), position, bound),
            None => self.pass_over(position, selector, bound),
        }
    }
}
