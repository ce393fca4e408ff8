//! A small set of triples, in place.
ghost use Rattle.std.specs.Prelude.{◌≤◌, length};
ghost use Rattle.layers.specs.Sets.{most_withdrawn, Once};

use arrayvec::ArrayVec;
use triples::triple::Triple;

/// The most triples that can be withdrawn at a time.
pub const MOST_WITHDRAWN: usize = 256;

/// Up to 256 triples, no two the same.
#[derive(Drop)]
pub(crate) struct TripleSet {
    pub(crate) triples: ArrayVec<Triple, MOST_WITHDRAWN>,
    ghost few: { length triples.items ≤ most_withdrawn },
    ghost once: { Once triples.items },
}
