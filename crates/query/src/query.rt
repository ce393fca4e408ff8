//! Queries.
ghost use Rattle.std.specs.Prelude.{◌≡◌, true, map, length};
ghost use Rattle.query.specs.Format.{bytes_of};
ghost use Rattle.query.specs.Lawful.{lawful};
ghost use Rattle.query.specs.Parts.{group_of};

use crate::alternative::Alternative;

/// A query: its alternatives, which keep every limit, and how many bytes they take when written.
#[derive(Drop)]
pub struct Query {
    pub(crate) alternatives: Vec<Alternative>,
    pub(crate) size: usize,
    ghost keeps: { lawful (map group_of alternatives.items) ≡ true },
    ghost measured: { size ≡ length (bytes_of (map group_of alternatives.items)) },
}
