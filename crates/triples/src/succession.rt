//! The triple right behind another.
ghost use Rattle.std.specs.Prelude.{◌≡◌};
ghost use Rattle.triples.specs.Succession.{step};

use crate::triple::Triple;

impl Triple {
    /// The triple right behind this one: the same subject and property, and the next object; this one again
    /// where its object is the largest 32-bit number, which no store holds.
    pub fn behind(self) -> Triple
        ensures { result ≡ step self }
    {
        Triple {
            object: self.object.saturating_add(1),
            ..self
        }
    }
}
