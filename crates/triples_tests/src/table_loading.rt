//! Which directories with pairs are taken, and why the others are refused.
use std::alloc::Global;
use std::process::Abort;
use std::test::Fail;
use store_cases::lists::table;
use store_cases::numbers::said;
use triples::property_store::PropertyStore;

/// A top, properties with first places, and pairs, with the number of the refusal and its place, none where
/// they are taken.
struct Case {
    name: &'static str,
    top: u32,
    directory: &'static [(u32, u32)],
    pairs: &'static [(u32, u32)],
    refused: Option<(u32, usize)>,
}

/// Situations where the directory or the top decides.
const DIRECTORIES: [Case; 25] = [
    Case {
        name: "no entry and no pair under top 0",
        top: 0,
        directory: &[],
        pairs: &[],
        refused: None,
    },
    Case {
        name: "an entry under top 0",
        top: 0,
        directory: &[(1, 0)],
        pairs: &[],
        refused: Some((2, 0)),
    },
    Case {
        name: "pairs without entries",
        top: 3,
        directory: &[],
        pairs: &[(1, 1)],
        refused: Some((2, 0)),
    },
    Case {
        name: "bad pairs without entries",
        top: 3,
        directory: &[],
        pairs: &[(0, 4)],
        refused: Some((2, 0)),
    },
    Case {
        name: "the largest top as property, subject and object",
        top: 1_000_000,
        directory: &[(1_000_000, 0)],
        pairs: &[(1_000_000, 1_000_000)],
        refused: None,
    },
    Case {
        name: "a top over the largest",
        top: 1_000_001,
        directory: &[],
        pairs: &[],
        refused: Some((1, 0)),
    },
    Case {
        name: "a top over the largest, and a broken entry",
        top: 1_000_001,
        directory: &[(0, 0)],
        pairs: &[],
        refused: Some((1, 0)),
    },
    Case {
        name: "property 0",
        top: 3,
        directory: &[(0, 0)],
        pairs: &[(1, 1)],
        refused: Some((2, 0)),
    },
    Case {
        name: "a later property 0",
        top: 3,
        directory: &[(1, 0), (0, 1)],
        pairs: &[(1, 1)],
        refused: Some((2, 1)),
    },
    Case {
        name: "a property over the top",
        top: 3,
        directory: &[(1, 0), (4, 1)],
        pairs: &[(1, 1)],
        refused: Some((2, 1)),
    },
    Case {
        name: "the largest 32-bit property",
        top: 3,
        directory: &[(4_294_967_295, 0)],
        pairs: &[],
        refused: Some((2, 0)),
    },
    Case {
        name: "equal properties",
        top: 3,
        directory: &[(2, 0), (2, 1)],
        pairs: &[(1, 1), (1, 2)],
        refused: Some((2, 1)),
    },
    Case {
        name: "properties that fall",
        top: 3,
        directory: &[(1, 0), (3, 1), (2, 2)],
        pairs: &[(1, 1), (1, 1), (1, 1)],
        refused: Some((2, 2)),
    },
    Case {
        name: "a first place that is not 0",
        top: 3,
        directory: &[(1, 1)],
        pairs: &[(1, 1)],
        refused: Some((2, 0)),
    },
    Case {
        name: "places that fall",
        top: 3,
        directory: &[(1, 0), (2, 2), (3, 1)],
        pairs: &[(1, 1), (1, 2), (1, 3)],
        refused: Some((2, 2)),
    },
    Case {
        name: "a place behind the last pair",
        top: 3,
        directory: &[(1, 0), (2, 2)],
        pairs: &[(1, 1)],
        refused: Some((2, 1)),
    },
    Case {
        name: "the largest 32-bit place",
        top: 3,
        directory: &[(1, 0), (2, 4_294_967_295)],
        pairs: &[(1, 1)],
        refused: Some((2, 1)),
    },
    Case {
        name: "the first of two broken entries",
        top: 3,
        directory: &[(1, 0), (1, 1), (0, 2)],
        pairs: &[(1, 1)],
        refused: Some((2, 1)),
    },
    Case {
        name: "a broken entry, and a bad pair",
        top: 3,
        directory: &[(1, 0), (1, 1)],
        pairs: &[(0, 1)],
        refused: Some((2, 1)),
    },
    Case {
        name: "a broken entry, and equal pairs",
        top: 3,
        directory: &[(1, 0), (2, 3)],
        pairs: &[(1, 1), (1, 1)],
        refused: Some((2, 1)),
    },
    Case {
        name: "an empty first entry",
        top: 3,
        directory: &[(1, 0), (2, 0), (3, 1)],
        pairs: &[(1, 1), (1, 1)],
        refused: None,
    },
    Case {
        name: "an empty middle entry",
        top: 3,
        directory: &[(1, 0), (2, 1), (3, 1)],
        pairs: &[(1, 1), (1, 1)],
        refused: None,
    },
    Case {
        name: "an empty last entry",
        top: 3,
        directory: &[(1, 0), (2, 1), (3, 2)],
        pairs: &[(1, 1), (1, 1)],
        refused: None,
    },
    Case {
        name: "entries that are all empty",
        top: 3,
        directory: &[(1, 0), (2, 0), (3, 0)],
        pairs: &[],
        refused: None,
    },
    Case {
        name: "properties with a gap between them",
        top: 3,
        directory: &[(1, 0), (3, 1)],
        pairs: &[(1, 1), (1, 1)],
        refused: None,
    },
];

/// Situations where the directory is in order and the pairs decide.
const PAIRS: [Case; 14] = [
    Case {
        name: "subject 0",
        top: 3,
        directory: &[(2, 0)],
        pairs: &[(1, 1), (0, 1)],
        refused: Some((3, 1)),
    },
    Case {
        name: "object 0",
        top: 3,
        directory: &[(2, 0)],
        pairs: &[(1, 1), (2, 0)],
        refused: Some((3, 1)),
    },
    Case {
        name: "subject over the top",
        top: 3,
        directory: &[(2, 0)],
        pairs: &[(1, 1), (4, 1)],
        refused: Some((3, 1)),
    },
    Case {
        name: "object over the top",
        top: 3,
        directory: &[(2, 0)],
        pairs: &[(1, 1), (2, 4)],
        refused: Some((3, 1)),
    },
    Case {
        name: "the largest 32-bit subject",
        top: 3,
        directory: &[(2, 0)],
        pairs: &[(4_294_967_295, 1)],
        refused: Some((3, 0)),
    },
    Case {
        name: "a bad pair of a later entry",
        top: 3,
        directory: &[(1, 0), (2, 1)],
        pairs: &[(1, 1), (1, 0)],
        refused: Some((3, 1)),
    },
    Case {
        name: "equal pairs, and a bad pair behind them",
        top: 3,
        directory: &[(1, 0)],
        pairs: &[(1, 1), (1, 1), (4, 1)],
        refused: Some((3, 2)),
    },
    Case {
        name: "equal pairs in one entry",
        top: 3,
        directory: &[(1, 0)],
        pairs: &[(1, 1), (1, 1)],
        refused: Some((4, 1)),
    },
    Case {
        name: "a subject that falls in a later entry",
        top: 3,
        directory: &[(1, 0), (2, 2)],
        pairs: &[(1, 1), (1, 2), (2, 2), (1, 3)],
        refused: Some((4, 3)),
    },
    Case {
        name: "an object that falls in the first entry",
        top: 3,
        directory: &[(1, 0), (2, 2)],
        pairs: &[(1, 2), (1, 1), (1, 1)],
        refused: Some((4, 1)),
    },
    Case {
        name: "a fall behind an empty entry",
        top: 3,
        directory: &[(1, 0), (2, 1), (3, 1)],
        pairs: &[(1, 1), (3, 3), (2, 2)],
        refused: Some((4, 2)),
    },
    Case {
        name: "pairs that fall from one entry to the next",
        top: 3,
        directory: &[(1, 0), (2, 2)],
        pairs: &[(3, 2), (3, 3), (1, 1), (2, 1)],
        refused: None,
    },
    Case {
        name: "equal pairs in two entries",
        top: 3,
        directory: &[(1, 0), (2, 1)],
        pairs: &[(2, 2), (2, 2)],
        refused: None,
    },
    Case {
        name: "objects that fall under subjects that ascend",
        top: 3,
        directory: &[(1, 0)],
        pairs: &[(1, 3), (2, 2), (3, 1)],
        refused: None,
    },
];

// Kept beside that of `row_loading`: one for both would take the load and both comparisons as closures.
/// Fails under a case's name, unless each table is taken or refused as it says, and comes back as it was
/// where it is refused.
fn cases_hold(rt: &impl Abort, heap: Global, cases: &[Case]) -> Result<(), Fail> {
    for case in cases {
        let given = table(heap, case.directory, case.pairs)?;
        let refused = match PropertyStore::load(case.top, given) {
            Ok(store) => {
                let lengths = (case.directory.len(), case.pairs.len());
                assert_eq!(rt; (store.entries(), store.len()), lengths, "{}", case.name);
                None
            }
            Err(declined) => {
                let same = table(heap, case.directory, case.pairs)?;
                assert_eq!(rt; declined.given.directory, same.directory, "{}", case.name);
                assert_eq!(rt; declined.given.pairs, same.pairs, "{}", case.name);
                Some(said(declined.rejection))
            }
        };
        assert_eq!(rt; refused, case.refused, "{}", case.name);
    }
    Ok(())
}

#[test]
fn directories_are_taken_or_refused_as_the_table_says(rt: HostRuntime) -> Result<(), Fail> {
    cases_hold(&rt, rt.alloc(), &DIRECTORIES)
}

#[test]
fn pairs_are_taken_or_refused_as_the_table_says(rt: HostRuntime) -> Result<(), Fail> {
    cases_hold(&rt, rt.alloc(), &PAIRS)
}
