//! Why a line has no answer.
ghost use Rattle.std.specs.Prelude.{◌≡◌, Some};
ghost use Rattle.console.specs.Answers.{failure_line};
ghost use Rattle.console.specs.Failures.{failure_for};
ghost use Rattle.console.specs.declared.expected.Expected.TheVariants.{Memory};
ghost use Rattle.console.specs.declared.failure.Failure.TheVariants as failure;

use crate::expected::Expected;
use query::error::ReadError;
use refusal::rejection::Rejection;
use std::alloc::AllocError;
use std::fmt;
use std::fmt::{Formatter, Write};

/// Why a line has no answer. It shows as its line, without the line's end.
#[derive(Clone, Copy)]
pub enum Failure {
    /// The bytes are no query, or the buffer is too short.
    Refused(Rejection),
    /// The command cannot be carried out.
    Expected(Expected),
}

impl From<Rejection> for Failure {
    ghost from_gives = { λ e y. y ≡ failure.Refused e };

    fn from(rejection: Rejection) -> Failure {
        Failure::Refused(rejection)
    }
}

impl From<Expected> for Failure {
    ghost from_gives = { λ e y. y ≡ failure.Expected e };

    fn from(expected: Expected) -> Failure {
        Failure::Expected(expected)
    }
}

impl From<AllocError> for Failure {
    ghost from_gives = { λ _ y. y ≡ failure.Expected Memory };

    fn from(_error: AllocError) -> Failure {
        Failure::Expected(Expected::Memory)
    }
}

impl From<ReadError> for Failure {
    ghost from_gives = { λ e y. y ≡ failure_for e };

    fn from(error: ReadError) -> Failure {
        match error {
            ReadError::Refused(rejection) => rejection.into(),
            ReadError::Memory => Expected::Memory.into(),
        }
    }
}

impl fmt::Display for Failure {
    ghost output = { λ e. Some (failure_line e) };

    fn fmt<W: Write>(&self, f: &mut Formatter<W>) -> fmt::Result {
        match self {
            Failure::Refused(rejection) => write!(f, "refused {rejection}"),
            Failure::Expected(expected) => write!(f, "error: expected {expected}"),
        }
    }
}
