//! Changing the layers over the current store.
ghost use Rattle.feedtrace.specs.Laying.{Changed, InverseOn, WithdrawnOn, WithdrewOn, RestoredOn};

use crate::expected::Expected;
use crate::failure::Failure;
use crate::outcome::Outcome;
use crate::session::Session;
use triples::triple::Triple;

impl Session {
    // Kept as two, with `lay_withdrawn`: one function with the change as a closure is no shorter.
    // Kept as a taking and a putting back: layers take the store by value, and it comes back where they fail.
    // Kept as two numbers, as a layer takes them: they are tested only there.
    /// Puts an inverse layer over the current store.
    pub(crate) fn lay_inverse(&mut self, property: u32, inverse: u32) -> Result<Outcome, Failure>
        ensures { Changed (InverseOn property inverse) self.old result self.new }
    {
        let store = self.store.take().ok_or(Expected::Store)?;
        let (after, outcome) = store.under_inverse(property, inverse);
        self.store = Some(after);
        outcome
    }

    /// Puts a withdrawn layer over the current store.
    pub(crate) fn lay_withdrawn(&mut self) -> Result<Outcome, Failure>
        ensures { Changed WithdrawnOn self.old result self.new }
    {
        let store = self.store.take().ok_or(Expected::Store)?;
        let (after, outcome) = store.under_withdrawn();
        self.store = Some(after);
        outcome
    }

    /// Withdraws the triple from the current store.
    pub(crate) fn withdraw(&mut self, triple: Triple) -> Result<Outcome, Failure>
        ensures { Changed (WithdrewOn triple) self.old result self.new }
    {
        self.current()?.withdraw(triple)
    }

    /// Restores the triple to the current store.
    pub(crate) fn restore(&mut self, triple: Triple) -> Result<Outcome, Failure>
        ensures { Changed (RestoredOn triple) self.old result self.new }
    {
        self.current()?.restore(triple)
    }
}
