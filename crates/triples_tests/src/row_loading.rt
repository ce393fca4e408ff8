//! Which lists of triples are taken, and why the others are refused.
use std::alloc::Global;
use std::process::Abort;
use std::test::Fail;
use store_cases::lists::rows;
use store_cases::numbers::said;
use triples::row_store::RowStore;

/// A top and a list of triples, with the number of the refusal and its place, none where they are taken.
struct Case {
    name: &'static str,
    top: u32,
    list: &'static [(u32, u32, u32)],
    refused: Option<(u32, usize)>,
}

/// Situations, each with one thing that decides.
const CASES: [Case; 24] = [
    Case {
        name: "no triple under top 0",
        top: 0,
        list: &[],
        refused: None,
    },
    Case {
        name: "a triple under top 0",
        top: 0,
        list: &[(1, 1, 1)],
        refused: Some((3, 0)),
    },
    Case {
        name: "no triple under top 1",
        top: 1,
        list: &[],
        refused: None,
    },
    Case {
        name: "the one triple under top 1",
        top: 1,
        list: &[(1, 1, 1)],
        refused: None,
    },
    Case {
        name: "the largest top, with it at each position",
        top: 1_000_000,
        list: &[(1_000_000, 1_000_000, 1_000_000)],
        refused: None,
    },
    Case {
        name: "a top over the largest",
        top: 1_000_001,
        list: &[],
        refused: Some((1, 0)),
    },
    Case {
        name: "the largest 32-bit top",
        top: 4_294_967_295,
        list: &[],
        refused: Some((1, 0)),
    },
    Case {
        name: "a top over the largest, and a 0",
        top: 1_000_001,
        list: &[(0, 1, 1)],
        refused: Some((1, 0)),
    },
    Case {
        name: "subject 0",
        top: 3,
        list: &[(1, 1, 1), (0, 1, 1)],
        refused: Some((3, 1)),
    },
    Case {
        name: "property 0",
        top: 3,
        list: &[(1, 1, 1), (2, 0, 1)],
        refused: Some((3, 1)),
    },
    Case {
        name: "object 0",
        top: 3,
        list: &[(1, 1, 1), (2, 1, 0)],
        refused: Some((3, 1)),
    },
    Case {
        name: "subject over the top",
        top: 3,
        list: &[(1, 1, 1), (4, 1, 1)],
        refused: Some((3, 1)),
    },
    Case {
        name: "property over the top",
        top: 3,
        list: &[(1, 1, 1), (2, 4, 1)],
        refused: Some((3, 1)),
    },
    Case {
        name: "object over the top",
        top: 3,
        list: &[(1, 1, 1), (2, 1, 4)],
        refused: Some((3, 1)),
    },
    Case {
        name: "the largest 32-bit object",
        top: 3,
        list: &[(1, 1, 4_294_967_295)],
        refused: Some((3, 0)),
    },
    Case {
        name: "the first of two bad triples",
        top: 3,
        list: &[(1, 1, 1), (1, 2, 0), (0, 1, 1)],
        refused: Some((3, 1)),
    },
    Case {
        name: "equal neighbours, and a bad triple behind them",
        top: 3,
        list: &[(1, 1, 1), (1, 1, 1), (4, 1, 1)],
        refused: Some((3, 2)),
    },
    Case {
        name: "equal neighbours",
        top: 3,
        list: &[(1, 2, 3), (1, 2, 3)],
        refused: Some((4, 1)),
    },
    Case {
        name: "the last two equal",
        top: 3,
        list: &[(1, 1, 1), (1, 2, 3), (1, 2, 3)],
        refused: Some((4, 2)),
    },
    Case {
        name: "a subject that falls",
        top: 3,
        list: &[(2, 1, 1), (1, 2, 2)],
        refused: Some((4, 1)),
    },
    Case {
        name: "a property that falls",
        top: 3,
        list: &[(1, 1, 1), (1, 3, 1), (1, 2, 2)],
        refused: Some((4, 2)),
    },
    Case {
        name: "an object that falls",
        top: 3,
        list: &[(1, 1, 2), (1, 1, 1), (1, 1, 3)],
        refused: Some((4, 1)),
    },
    Case {
        name: "equal triples that are no neighbours",
        top: 3,
        list: &[(1, 1, 1), (1, 1, 2), (1, 1, 1)],
        refused: Some((4, 2)),
    },
    Case {
        name: "an object ascends, a property over an object that falls, a subject over both",
        top: 3,
        list: &[(1, 1, 1), (1, 1, 3), (1, 2, 1), (2, 1, 1)],
        refused: None,
    },
];

// Kept beside that of `table_loading`: one for both would take the load and both comparisons as closures.
/// Fails under a case's name, unless each list is taken or refused as it says, and comes back as it was where
/// it is refused.
fn cases_hold(rt: &impl Abort, heap: Global, cases: &[Case]) -> Result<(), Fail> {
    for case in cases {
        let refused = match RowStore::load(case.top, rows(heap, case.list)?) {
            Ok(store) => {
                assert_eq!(rt; store.len(), case.list.len(), "{}", case.name);
                None
            }
            Err(declined) => {
                let same = rows(heap, case.list)?;
                assert_eq!(rt; declined.given, same, "{}", case.name);
                Some(said(declined.rejection))
            }
        };
        assert_eq!(rt; refused, case.refused, "{}", case.name);
    }
    Ok(())
}

#[test]
fn lists_are_taken_or_refused_as_the_table_says(rt: HostRuntime) -> Result<(), Fail> {
    cases_hold(&rt, rt.alloc(), &CASES)
}
