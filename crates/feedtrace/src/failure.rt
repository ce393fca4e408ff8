//! Why a line has no answer.
ghost use Rattle.std.specs.Prelude.{◌≡◌, Some};
ghost use Rattle.feedtrace.specs.Failures.{failure_for, failure_line, memory};
ghost use Rattle.feedtrace.specs.declared.failure.Failure.TheVariants as failure;

use crate::expected::Expected;
use console::expected::Expected as Shared;
use console::failure::Failure as QueryFailure;
use refusal::declined::Declined;
use refusal::rejection::Rejection;
use std::alloc::AllocError;
use std::fmt;
use std::fmt::{Formatter, Write};

// Kept beside the queries' own: in a `Failure<E>` the impls of `From<E>` and `From<Rejection>` overlap.
/// Why a line has no answer. It shows as its line, without the line's end.
#[derive(Clone, Copy)]
pub enum Failure {
    /// The library refuses what the line asks.
    Refused(Rejection),
    /// The line or the session lacks what is expected.
    Expected(Expected),
}

impl From<Rejection> for Failure {
    ghost from_gives = { λ x y. y ≡ failure.Refused x };

    fn from(rejection: Rejection) -> Failure {
        Failure::Refused(rejection)
    }
}

impl<T: Drop> From<Declined<T>> for Failure {
    ghost from_gives = { λ x y. y ≡ failure.Refused x.rejection };

    fn from(declined: Declined<T>) -> Failure {
        Failure::Refused(declined.rejection)
    }
}

impl From<Expected> for Failure {
    ghost from_gives = { λ x y. y ≡ failure.Expected x };

    fn from(expected: Expected) -> Failure {
        Failure::Expected(expected)
    }
}

impl From<AllocError> for Failure {
    ghost from_gives = { λ _ y. y ≡ failure.Expected memory };

    fn from(_error: AllocError) -> Failure {
        Failure::Expected(Expected::Shared(Shared::Memory))
    }
}

impl From<QueryFailure> for Failure {
    ghost from_gives = { λ x y. y ≡ failure_for x };

    fn from(failure: QueryFailure) -> Failure {
        match failure {
            QueryFailure::Refused(rejection) => Failure::Refused(rejection),
            QueryFailure::Expected(expected) => Failure::Expected(Expected::Shared(expected)),
        }
    }
}

impl fmt::Display for Failure {
    ghost output = { λ e. Some (failure_line e) };

    fn fmt<W: Write>(&self, f: &mut Formatter<W>) -> fmt::Result {
        match self {
            Failure::Refused(rejection) => write!(f, "refused {rejection}"),
            Failure::Expected(expected) => write!(f, "error: expected {expected}"),
        }
    }
}
