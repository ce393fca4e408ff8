//! A rejection that hands back what was given.
ghost use Rattle.std.specs.Prelude.{◌≡◌, Ok, Err, MatchResult};

use crate::rejection::Rejection;

/// Why a call said no, and what it was handed by value, as it was.
#[derive(Drop)]
pub struct Declined<T> {
    pub rejection: Rejection,
    pub given: T,
}

/// What was given, where it was checked and is accepted; else why it is not, and what was given, as it was.
pub fn accepted<T>(checked: Result<(), Rejection>, given: T) -> Result<T, Declined<T>>
    ensures { MatchResult result (λ x. (checked ≡ Ok _) × (x ≡ given))
        (λ d. (checked ≡ Err d.rejection) × (d.given ≡ given)) }
{
    match checked {
        Ok(()) => Ok(given),
        Err(rejection) => Err(Declined { rejection, given }),
    }
}
