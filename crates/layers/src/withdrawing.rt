//! Withdrawing triples, and putting them back.
ghost use Rattle.std.specs.Prelude.{◌≡◌, [], length};
ghost use Rattle.layers.specs.Members.{members};
ghost use Rattle.layers.specs.Withdrawals.{without, Withdraws, Restores};

use crate::triple_set::TripleSet;
use crate::withdrawn::Withdrawn;
use refusal::refusal::Refusal;
use refusal::rejection::Rejection;
use triples::selector::ANY;
use triples::store::Store;
use triples::triple::Triple;

// Kept as a clause: a store may move things about when asked; no invariant tells what it meant before.
/// Whether the store holds the triple.
fn is_held<S: Store>(store: &mut S, triple: Triple) -> bool
    ensures answer { result ≡ (S.Store.meaning store.old).has triple }
    ensures same { S.Store.meaning store.new ≡ S.Store.meaning store.old }
    ensures kept { S.Store.kept store.new ≡ S.Store.kept store.old }
{
    // No store holds a 0, which a selector would take for any number, and the seek would go over many.
    if triple.subject == ANY || triple.property == ANY || triple.object == ANY {
        return false;
    }
    store.seek(triple.into(), triple) == Some(triple)
}

impl<S: Store> Withdrawn<S> {
    /// The store with nothing withdrawn from it.
    pub fn new(below: S) -> Withdrawn<S>
        ensures answer { without (S.Store.meaning result.below) (members result.gone)
            ≡ S.Store.meaning below }
        ensures written { members result.gone ≡ [] }
        ensures same { result.below ≡ below }
    {
        Withdrawn {
            below,
            gone: TripleSet::empty(),
        }
    }

    /// How many triples are withdrawn.
    pub fn count(&self) -> usize
        ensures { result ≡ length (members self.now.gone) }
    {
        self.gone.len()
    }

    /// The store below.
    pub fn into_below(self) -> S
        ensures { result ≡ self.below }
    {
        self.below
    }

    /// Withdraws the triple: it, and nothing else, is out of the meaning. Refused with 21 where it is
    /// withdrawn already, else with 22 where the store below does not hold it, else with 23 where 256 are
    /// withdrawn, each with no place; a refusal changes nothing.
    pub fn withdraw(&mut self, triple: Triple) -> Result<(), Rejection>
        ensures answer { Withdraws (S.Store.meaning self.old.below)
            (members self.old.gone) triple result (members self.new.gone) }
        ensures same { S.Store.meaning self.new.below ≡ S.Store.meaning self.old.below }
        ensures kept { S.Store.kept self.new.below ≡ S.Store.kept self.old.below }
    {
        if self.gone.has(triple) {
            return Err(Rejection::unplaced(Refusal::AlreadyWithdrawn));
        }
        if !is_held(&mut self.below, triple) {
            return Err(Rejection::unplaced(Refusal::NotStored));
        }
        self.gone
            .add(triple)
            .map_err(|_| Rejection::unplaced(Refusal::WithdrawnFull))
    }

    /// Puts the triple back: it is in the meaning if it is in the store below, as what is withdrawn always is
    /// (`theorems`), and nothing else changes. Refused with 24, with no place, where it is not withdrawn; a
    /// refusal changes nothing.
    pub fn restore(&mut self, triple: Triple) -> Result<(), Rejection>
        ensures answer { Restores (S.Store.meaning self.old.below)
            (members self.old.gone) triple result (members self.new.gone) }
        ensures same { self.new.below ≡ self.old.below }
    {
        self.gone
            .take(triple)
            .ok_or(Rejection::unplaced(Refusal::NotWithdrawn))?;
        Ok(())
    }
}
