//! Functions that carry a theorem: each does nothing, and its contract is the statement. What a theorem needs
//! of a query or a store its type gives.
ghost use Rattle.query.specs.Shape.{shape};
ghost use Rattle.algebra.specs.Examples.{WorkedExamples};
ghost use Rattle.algebra.specs.Theorems.{WalkListsAnswers, SolutionsInWords, OnceInEach};
ghost use Rattle.algebra.specs.Theorems.{SameUnderAllPruners, PrunersLawful, LookAheadInWords};
ghost use Rattle.algebra.specs.Theorems.{OrderIsTotal, WalkTakesTheLowest, BasicPatterns};
ghost use Rattle.algebra.specs.Theorems.{CountedAsDefined, OnlyCountsMatter, BytesSayTheAnswer};

use catalogue::catalogue::Catalogue;
use query::query::Query;
use triples::store::Store;

/// Whatever pruner is asked that keeps the law, the walk lists the query's answers: each as often as the
/// algebra counts it, in their order, none passed over, none twice.
pub fn walk_lists_answers<S: Store, C: Catalogue>(query: &Query, store: &S, catalogue: &C)
    ensures { WalkListsAnswers (S.Store.meaning store.now) (C.Catalogue.entries catalogue.now)
        (shape query.now) }
{}

/// A row is a solution of an alternative exactly if what the words ask of an answer, part by part, holds of
/// it.
pub fn solutions_in_words<S: Store, C: Catalogue>(query: &Query, store: &S, catalogue: &C)
    ensures { SolutionsInWords (S.Store.meaning store.now) (C.Catalogue.entries catalogue.now)
        (shape query.now) }
{}

/// No alternative has a row twice, and a row can be an answer of several.
pub fn once_in_each<S: Store, C: Catalogue>(query: &Query, store: &S, catalogue: &C)
    ensures { OnceInEach (S.Store.meaning store.now) (C.Catalogue.entries catalogue.now) (shape query.now) }
{}

/// Which pruner is asked does not change the list of answers, if it keeps the law.
pub fn same_under_all_pruners<S: Store, C: Catalogue>(query: &Query, store: &S, catalogue: &C)
    ensures { SameUnderAllPruners (S.Store.meaning store.now) (C.Catalogue.entries catalogue.now)
        (shape query.now) }
{}

/// The order of answers is strict, and of any two answers one comes before the other.
pub fn order_is_total<S: Store, C: Catalogue>(query: &Query, store: &S, catalogue: &C)
    ensures { OrderIsTotal (S.Store.meaning store.now) (C.Catalogue.entries catalogue.now) (shape query.now) }
{}

/// Trying every term, and looking ahead, leave out no value that the law protects.
pub fn pruners_lawful()
    ensures { PrunersLawful }
{}

/// Looking ahead admits a value exactly if it is a term, and each triple of the part, by itself, is matched
/// by a triple of the store.
pub fn look_ahead_in_words<S: Store>(query: &Query, store: &S)
    ensures { LookAheadInWords (S.Store.meaning store.now) (shape query.now) }
{}

/// The walk of a part takes the lowest variable without a value.
pub fn walk_takes_the_lowest()
    ensures { WalkTakesTheLowest }
{}

/// A basic graph pattern has each row once that gives its variables values under which its triples are in the
/// store.
pub fn basic_patterns()
    ensures { BasicPatterns }
{}

/// The operators count rows as the recommendation says.
pub fn counted_as_defined()
    ensures { CountedAsDefined }
{}

/// The operators depend on how often each row is there, and on nothing else of a list of rows.
pub fn only_counts_matter()
    ensures { OnlyCountsMatter }
{}

/// The worked examples hold of the definitions.
pub fn worked_examples()
    ensures { WorkedExamples }
{}

/// An answer is read back from its bytes, no two have the same bytes, and a query's answer takes at most 52.
pub fn bytes_say_the_answer<S: Store, C: Catalogue>(query: &Query, store: &S, catalogue: &C)
    ensures { BytesSayTheAnswer (S.Store.meaning store.now) (C.Catalogue.entries catalogue.now)
        (shape query.now) }
{}
