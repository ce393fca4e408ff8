//! The variables that stand in triples.
ghost use Rattle.std.specs.Prelude.{◌≡◌, ℕ, ◌<◌, false, ◌||◌, List, [], ◌∷◌, ◌++◌};
ghost use Rattle.query.specs.Limits.{variables};
ghost use Rattle.query.specs.Variables.{member, Gathers};
ghost use Rattle.query.specs.Lawful.{is_variable};
ghost use Rattle.query.specs.declared.pattern.TriplePattern.{TriplePattern as Pattern};

use crate::pattern::TriplePattern;
use crate::place::Place;
use crate::variables::{VARIABLES, VariableSet};

impl VariableSet {
    /// The set with no members.
    pub(crate) fn empty() -> VariableSet
        ensures { Gathers result [] }
    {
        VariableSet {
            members: [false; VARIABLES],
        }
    }

    /// Makes the place a member, if it is a variable.
    fn add(&mut self, place: Place)
        ensures { (v : ℕ) → v < variables → member v self.new ≡ (member v self.old || is_variable v place) }
    {
        if let Place::Variable(v) = place {
            let v = v as usize;
            // Kept by index: after a write through `get_mut` a proof knows nothing of the array.
            if v < VARIABLES {
                self.members[v] = true;
            }
        }
    }

    /// Makes the variables of the triple members.
    pub(crate) fn add_triple(&mut self, triple: &TriplePattern)
        ensures { (ts : List Pattern) → Gathers self.old ts → Gathers self.new (ts ++ triple.now ∷ []) }
    {
        self.add(triple.subject);
        self.add(triple.property);
        self.add(triple.object);
    }
}
