//! Truth values of filters and of their nodes.
ghost use Rattle.std.specs.Prelude.{◌≡◌, Some};
ghost use Rattle.filter.specs.Truths.{truth_of, name_of, negated, conjunction, disjunction};

use std::fmt;
use std::fmt::{Formatter, Write};

/// A truth value. Only true lets a row pass.
#[derive(Clone, Copy, Debug, PartialEq, Eq)]
pub enum Truth {
    False,
    True,
    /// What is asked has no answer: a variable has no value, or what is compared does not compare.
    Error,
}

impl Truth {
    /// True and false change places; an error stays.
    pub(crate) fn negated(self) -> Truth
        ensures { result ≡ negated self }
    {
        match self {
            Truth::True => Truth::False,
            Truth::False => Truth::True,
            Truth::Error => Truth::Error,
        }
    }

    /// And: one false makes it false; without one, an error makes it an error.
    pub(crate) fn and(self, other: Truth) -> Truth
        ensures { result ≡ conjunction self other }
    {
        match (self, other) {
            (Truth::False, _) | (_, Truth::False) => Truth::False,
            (Truth::Error, _) | (_, Truth::Error) => Truth::Error,
            (Truth::True, Truth::True) => Truth::True,
        }
    }

    /// Or: one true makes it true; without one, an error makes it an error.
    pub(crate) fn or(self, other: Truth) -> Truth
        ensures { result ≡ disjunction self other }
    {
        match (self, other) {
            (Truth::True, _) | (_, Truth::True) => Truth::True,
            (Truth::Error, _) | (_, Truth::Error) => Truth::Error,
            (Truth::False, Truth::False) => Truth::False,
        }
    }
}

/// The truth of a test: true where it holds, false where it does not.
impl From<bool> for Truth {
    ghost from_gives = { λ test truth. truth ≡ truth_of test };

    fn from(test: bool) -> Truth {
        if test { Truth::True } else { Truth::False }
    }
}

/// A truth shows as `true`, `false` or `error`.
impl fmt::Display for Truth {
    ghost output = { λ truth. Some (name_of truth) };

    fn fmt<W: Write>(&self, f: &mut Formatter<W>) -> fmt::Result {
        f.write_str(match self {
            Truth::True => "true",
            Truth::False => "false",
            Truth::Error => "error",
        })
    }
}
