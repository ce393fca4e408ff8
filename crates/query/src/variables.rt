//! Sets of variables.
ghost use Rattle.std.specs.Prelude.{◌≡◌, length};
ghost use Rattle.query.specs.Limits.{variables};

use crate::place::MOST_VARIABLE;

/// How many variables there are.
pub(crate) const VARIABLES: usize = MOST_VARIABLE as usize + 1;

/// A set of variables: which of them are members.
#[derive(Clone, Copy)]
pub(crate) struct VariableSet {
    // Kept as flags: checking allocates nothing, and flags need no law about bits.
    pub(crate) members: [bool; VARIABLES],
    ghost full: { length members ≡ variables },
}
