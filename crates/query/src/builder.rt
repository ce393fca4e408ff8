//! The builder of a query.
use crate::kept::Kept;
use crate::tally::Tally;
use crate::variables::VariableSet;

/// The most alternatives of a query.
pub(crate) const MOST_ALTERNATIVES: u32 = 8;

/// The most blocks of an alternative.
pub(crate) const MOST_BLOCKS: u32 = 4;

/// What has come in of a query: how many triples and nodes were counted, the variables of the parts of the
/// alternative in work, and, if the query is built and not only checked, the parts themselves.
#[derive(Drop)]
pub(crate) struct Builder {
    pub(crate) triples: Tally,
    pub(crate) nodes: Tally,
    /// The variables of the part in work.
    pub(crate) part: VariableSet,
    /// The variables of the required triples.
    pub(crate) required: VariableSet,
    /// The variables of the blocks.
    pub(crate) in_blocks: VariableSet,
    /// The variables that two blocks have.
    pub(crate) in_two_blocks: VariableSet,
    // Kept as a flag: refusal 17 comes behind the last byte, so that a wrong number is named before it.
    /// Whether blocks of a finished alternative share a variable that its required triples lack.
    pub(crate) shared: bool,
    // Kept as an option: parts not asked for and parts let go for want of memory are alike, and only a
    // reader that asked for them finishes.
    /// The parts, if they are kept and there was memory for all of them.
    pub(crate) kept: Option<Kept>,
}
