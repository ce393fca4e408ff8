//! Sets of variables against each other.
ghost use Rattle.std.specs.Prelude.{◌≡◌, ℕ, ◌<◌, true, false, Bool, ◌&&◌, ◌||◌, MatchBool};
ghost use Rattle.query.specs.Limits.{variables};
ghost use Rattle.query.specs.Variables.{member, kept_in};

use crate::variables::VariableSet;
use std::array;

impl VariableSet {
    /// The variables that `both` takes, told of each whether either set has it.
    fn zip_with<F: Fn(bool, bool) -> bool>(&self, other: &VariableSet, both: F) -> VariableSet
        requires { F.IsAlwaysCallable both }
        ensures { (f : Bool → Bool → Bool) → ((x y r : Bool) → F.post both x y r → r ≡ f x y)
            → (v : ℕ) → v < variables → member v result ≡ f (member v self.now) (member v other.now) }
    {
        VariableSet {
            members: array::from_fn(|v| both(self.members[v], other.members[v])),
        }
    }

    /// The variables that are in one of the sets.
    pub(crate) fn union(&self, other: &VariableSet) -> VariableSet
        ensures { (v : ℕ) → v < variables → member v result ≡ (member v self.now || member v other.now) }
    {
        self.zip_with(other, |a, b| a || b)
    }

    /// The variables that are in both sets.
    pub(crate) fn intersection(&self, other: &VariableSet) -> VariableSet
        ensures { (v : ℕ) → v < variables → member v result ≡ (member v self.now && member v other.now) }
    {
        self.zip_with(other, |a, b| a && b)
    }

    /// Whether every member is a member of the other set too.
    pub(crate) fn is_subset(&self, other: &VariableSet) -> bool
        ensures { MatchBool result ((v : ℕ) → v < variables → kept_in self.now other.now v ≡ true)
            ((v : ℕ) × ((v < variables) × (kept_in self.now other.now v ≡ false))) }
    {
        let mut pairs = self.members.iter().zip(&other.members);
        pairs.all(|(a, b)| !a || *b)
    }
}
