//! A property and its inverse.
ghost use Rattle.std.specs.Prelude.{◌≤◌};
ghost use Rattle.triples.specs.Meaning.{first_term};

/// A property and its inverse, which may be the same: `s p o` turns into `o q s`.
#[derive(Clone, Copy)]
pub(crate) struct Turn {
    pub(crate) property: u32,
    pub(crate) inverse: u32,
    /// Not 0, which a selector takes for any.
    ghost known: { first_term ≤ property },
    /// Not 0, which is no term.
    ghost named: { first_term ≤ inverse },
}
