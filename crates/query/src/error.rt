//! Why a query was not read.
ghost use Rattle.std.specs.Prelude.{◌≡◌};
ghost use Rattle.query.specs.declared.error.ReadError.TheVariants.{Refused};

use refusal::rejection::Rejection;

/// Why a query was not read: the bytes are refused, or they are a query and there is no memory for it.
#[derive(Clone, Copy)]
pub enum ReadError {
    Refused(Rejection),
    Memory,
}

impl From<Rejection> for ReadError {
    ghost from_gives = { λ x y. y ≡ Refused x };

    fn from(rejection: Rejection) -> ReadError {
        ReadError::Refused(rejection)
    }
}
