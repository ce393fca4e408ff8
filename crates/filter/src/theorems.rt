//! Functions that carry a theorem: each does nothing, and its contract is the statement.
ghost use Rattle.filter.specs.Examples.{FilterExamples};
ghost use Rattle.filter.specs.Theorems.{TruthsAreTheOnly};

/// The truths of a filter's nodes are one for each node, each what its node makes of them, and no others are.
pub fn truths_are_the_only()
    ensures { TruthsAreTheOnly }
{}

/// Each rule of a filter's truth holds in an example.
pub fn filters_by_example()
    ensures { FilterExamples }
{}
