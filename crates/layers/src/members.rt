//! What a small set of triples holds, and how it changes.
ghost use Rattle.std.specs.Prelude.{◌≡◌, cond, false, [], ◌∷◌, ◌++◌, length, is_ok, is_some};
ghost use Rattle.std.specs.Prelude.{nat_lt, position};
ghost use Rattle.triples.specs.Meaning.{among};
ghost use Rattle.triples.specs.Order.{same};
ghost use Rattle.layers.specs.Members.{members};
ghost use Rattle.layers.specs.Sets.{most_withdrawn, Removed};

use crate::triple_set::TripleSet;
use arrayvec::{ArrayVec, CapacityError};
use triples::triple::Triple;

impl TripleSet {
    /// A set with no triple.
    pub(crate) fn empty() -> TripleSet
        ensures { members result ≡ [] }
    {
        TripleSet {
            triples: ArrayVec::new(),
        }
    }

    /// How many triples the set holds.
    pub(crate) fn len(&self) -> usize
        ensures { result ≡ length (members self.now) }
    {
        self.triples.len()
    }

    /// The place of the triple among the members, if it is one.
    fn place_of(&self, triple: Triple) -> Option<usize>
        ensures { result ≡ position (λ t. same t triple) (members self.now) }
    {
        self.triples.as_slice().iter().position(|t| *t == triple)
    }

    /// Whether the triple is a member.
    pub(crate) fn has(&self, triple: Triple) -> bool
        ensures { result ≡ among (members self.now) triple }
    {
        self.triples.as_slice().contains(&triple)
    }

    /// Puts in a triple that is no member; it comes back where there is no room.
    pub(crate) fn add(&mut self, triple: Triple) -> Result<(), CapacityError<Triple>>
        requires { among (members self.old) triple ≡ false }
        ensures room { is_ok result ≡ nat_lt (length (members self.old)) most_withdrawn }
        ensures list { members self.new
            ≡ cond (is_ok result) (members self.old ++ triple ∷ []) (members self.old) }
    {
        self.triples.try_push(triple)
    }

    /// Takes the triple out, the last member in its place, if it is a member.
    pub(crate) fn take(&mut self, triple: Triple) -> Option<Triple>
        ensures { Removed (members self.old) triple (is_some result) (members self.new) }
    {
        let place = self.place_of(triple)?;
        Some(self.triples.swap_remove(place))
    }
}
