//! Layers over a table, and what they withdraw.
ghost use Rattle.feedtrace.specs.Laying.{InverseOn, WithdrawnOn, WithdrewOn, RestoredOn};

use crate::current::{Layered, bare};
use crate::either::Either;
use crate::expected::Expected;
use crate::failure::Failure;
use crate::outcome::Outcome;
use layers::inverse::Inverse;
use layers::withdrawn::Withdrawn;
use refusal::declined::Declined;
use triples::triple::Triple;

impl Layered {
    // Kept as a pair, as below: layers take the store by value, and it comes back where none is laid.
    // Kept as two numbers, as a layer takes them: they are tested only there.
    /// Puts an inverse layer over the table; another layering is left as it is.
    pub(crate) fn under_inverse(
        self,
        property: u32,
        inverse: u32,
    ) -> (Layered, Result<Outcome, Failure>)
        ensures { InverseOn property inverse self result.1 result.0 }
    {
        match self {
            Either::Left(Either::Left(table)) => match Inverse::new(table, property, inverse) {
                Ok(layer) => (
                    Either::Left(Either::Right(layer)),
                    Ok(Outcome::Inverse { property, inverse }),
                ),
                Err(Declined { rejection, given }) => (bare(given), Err(rejection.into())),
            },
            other => (other, Err(Expected::BareTable.into())),
        }
    }

    /// Puts a withdrawn layer over the table or the inverse layer; another layering is left as it is.
    pub(crate) fn under_withdrawn(self) -> (Layered, Result<Outcome, Failure>)
        ensures { WithdrawnOn self result.1 result.0 }
    {
        match self {
            Either::Left(store) => (Either::Right(Withdrawn::new(store)), Ok(Outcome::Layered)),
            other => (other, Err(Expected::NoWithdrawnLayer.into())),
        }
    }

    // Kept as two, with `restore`: a function given the layer's call would need a clause over any such call.
    /// Withdraws the triple, if a withdrawn layer is on top: so many are withdrawn then.
    pub(crate) fn withdraw(&mut self, triple: Triple) -> Result<Outcome, Failure>
        ensures { WithdrewOn triple self.old result self.new }
    {
        let Either::Right(layer) = self else {
            return Err(Expected::WithdrawnLayer.into());
        };
        layer.withdraw(triple)?;
        Ok(Outcome::Withdrawn(layer.count()))
    }

    /// Restores the triple, if a withdrawn layer is on top: so many are withdrawn then.
    pub(crate) fn restore(&mut self, triple: Triple) -> Result<Outcome, Failure>
        ensures { RestoredOn triple self.old result self.new }
    {
        let Either::Right(layer) = self else {
            return Err(Expected::WithdrawnLayer.into());
        };
        layer.restore(triple)?;
        Ok(Outcome::Withdrawn(layer.count()))
    }
}
