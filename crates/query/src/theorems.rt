//! Functions that carry a theorem: each does nothing, and its contract is the statement.
ghost use Rattle.query.specs.Theorems.{AcceptedExactly, OneWritingEach, RefusedForGood};

/// A byte string is accepted exactly if it is the writing of a lawful query.
pub fn accepted_exactly()
    ensures { AcceptedExactly }
{}

/// No two byte strings are the same query, and no two lawful queries have the same bytes.
pub fn one_writing_each()
    ensures { OneWritingEach }
{}

/// After a refusal of one number, every byte string that agrees up to the end of that number is refused
/// alike.
pub fn refused_for_good()
    ensures { RefusedForGood }
{}
