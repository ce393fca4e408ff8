//! Withdrawing and restoring: the refusals in their order, the count, and what is left.
use crate::agreeing::agree;
use crate::plain::without;
use crate::stores::row_store;
use layers::withdrawn::Withdrawn;
use std::alloc::Global;
use std::test::Fail;
use store_cases::lists::LIST;
use store_cases::numbers::{said, selector_of, triple_of};
use triples::position::Position;
use triples::row_store::RowStore;
use triples::store::Store;
use triples::triple::ORIGIN;

// Kept as an enum: a constant cannot hold a method as a value, and two functions around them are no shorter.
/// What is asked of a store with withdrawn triples.
enum Call {
    Withdraw,
    Restore,
}

/// A call with a triple, the number of its refusal and the place, none where it is done, and the count after
/// it.
struct Step {
    name: &'static str,
    call: Call,
    triple: (u32, u32, u32),
    refused: Option<(u32, usize)>,
    count: usize,
}

/// Calls one after the other.
const STEPS: [Step; 16] = [
    Step {
        name: "a triple that is not there",
        call: Call::Withdraw,
        triple: (2, 4, 2),
        refused: Some((22, 0)),
        count: 0,
    },
    Step {
        name: "subject 0",
        call: Call::Withdraw,
        triple: (0, 2, 1),
        refused: Some((22, 0)),
        count: 0,
    },
    Step {
        name: "property 0",
        call: Call::Withdraw,
        triple: (1, 0, 1),
        refused: Some((22, 0)),
        count: 0,
    },
    Step {
        name: "object 0",
        call: Call::Withdraw,
        triple: (1, 2, 0),
        refused: Some((22, 0)),
        count: 0,
    },
    Step {
        name: "three 0s",
        call: Call::Withdraw,
        triple: (0, 0, 0),
        refused: Some((22, 0)),
        count: 0,
    },
    Step {
        name: "a number over the top",
        call: Call::Withdraw,
        triple: (6, 2, 1),
        refused: Some((22, 0)),
        count: 0,
    },
    Step {
        name: "nothing to restore",
        call: Call::Restore,
        triple: (1, 2, 1),
        refused: Some((24, 0)),
        count: 0,
    },
    Step {
        name: "the first",
        call: Call::Withdraw,
        triple: (1, 2, 1),
        refused: None,
        count: 1,
    },
    Step {
        name: "the first again",
        call: Call::Withdraw,
        triple: (1, 2, 1),
        refused: Some((21, 0)),
        count: 1,
    },
    Step {
        name: "the last",
        call: Call::Withdraw,
        triple: (5, 2, 1),
        refused: None,
        count: 2,
    },
    Step {
        name: "one that is not withdrawn",
        call: Call::Restore,
        triple: (2, 2, 3),
        refused: Some((24, 0)),
        count: 2,
    },
    Step {
        name: "one that is not stored",
        call: Call::Restore,
        triple: (0, 0, 0),
        refused: Some((24, 0)),
        count: 2,
    },
    Step {
        name: "the first back",
        call: Call::Restore,
        triple: (1, 2, 1),
        refused: None,
        count: 1,
    },
    Step {
        name: "the first back again",
        call: Call::Restore,
        triple: (1, 2, 1),
        refused: Some((24, 0)),
        count: 1,
    },
    Step {
        name: "one in the middle",
        call: Call::Withdraw,
        triple: (2, 4, 1),
        refused: None,
        count: 2,
    },
    Step {
        name: "the last again",
        call: Call::Withdraw,
        triple: (5, 2, 1),
        refused: Some((21, 0)),
        count: 2,
    },
];

/// The triples that are left after these calls.
const LEFT: [(u32, u32, u32); 4] = [(1, 2, 1), (1, 4, 5), (2, 2, 3), (2, 4, 4)];

/// Triples withdrawn one after the other, each with what is left then.
const RESTS: [((u32, u32, u32), &[(u32, u32, u32)]); 6] = [
    (
        (2, 4, 1),
        &[(1, 2, 1), (1, 4, 5), (2, 2, 3), (2, 4, 4), (5, 2, 1)],
    ),
    ((1, 2, 1), &[(1, 4, 5), (2, 2, 3), (2, 4, 4), (5, 2, 1)]),
    ((2, 4, 4), &[(1, 4, 5), (2, 2, 3), (5, 2, 1)]),
    ((5, 2, 1), &[(1, 4, 5), (2, 2, 3)]),
    ((1, 4, 5), &[(2, 2, 3)]),
    ((2, 2, 3), &[]),
];

/// Triples that are withdrawn.
const GONE: [(u32, u32, u32); 3] = [(1, 4, 5), (2, 4, 1), (5, 2, 1)];

/// With these withdrawn: calls one after the other, that end where they began.
const AFTER_QUESTIONS: [Step; 9] = [
    Step {
        name: "withdrawn still",
        call: Call::Withdraw,
        triple: (1, 4, 5),
        refused: Some((21, 0)),
        count: 3,
    },
    Step {
        name: "the last of them still",
        call: Call::Withdraw,
        triple: (5, 2, 1),
        refused: Some((21, 0)),
        count: 3,
    },
    Step {
        name: "one that was never withdrawn",
        call: Call::Restore,
        triple: (2, 2, 3),
        refused: Some((24, 0)),
        count: 3,
    },
    Step {
        name: "back",
        call: Call::Restore,
        triple: (2, 4, 1),
        refused: None,
        count: 2,
    },
    Step {
        name: "back only once",
        call: Call::Restore,
        triple: (2, 4, 1),
        refused: Some((24, 0)),
        count: 2,
    },
    Step {
        name: "the first back",
        call: Call::Restore,
        triple: (1, 4, 5),
        refused: None,
        count: 1,
    },
    Step {
        name: "the first back only once",
        call: Call::Restore,
        triple: (1, 4, 5),
        refused: Some((24, 0)),
        count: 1,
    },
    Step {
        name: "withdrawn again",
        call: Call::Withdraw,
        triple: (2, 4, 1),
        refused: None,
        count: 2,
    },
    Step {
        name: "the first withdrawn again",
        call: Call::Withdraw,
        triple: (1, 4, 5),
        refused: None,
        count: 3,
    },
];

/// With 256 withdrawn of the subjects 1 to 257: calls one after the other.
const WHEN_FULL: [Step; 11] = [
    Step {
        name: "withdrawn already",
        call: Call::Withdraw,
        triple: (256, 1, 1),
        refused: Some((21, 0)),
        count: 256,
    },
    Step {
        name: "not stored",
        call: Call::Withdraw,
        triple: (258, 1, 1),
        refused: Some((22, 0)),
        count: 256,
    },
    Step {
        name: "no room",
        call: Call::Withdraw,
        triple: (257, 1, 1),
        refused: Some((23, 0)),
        count: 256,
    },
    Step {
        name: "one that is stored back",
        call: Call::Restore,
        triple: (257, 1, 1),
        refused: Some((24, 0)),
        count: 256,
    },
    Step {
        name: "the first back",
        call: Call::Restore,
        triple: (1, 1, 1),
        refused: None,
        count: 255,
    },
    Step {
        name: "the first away again",
        call: Call::Withdraw,
        triple: (1, 1, 1),
        refused: None,
        count: 256,
    },
    Step {
        name: "no room beside it",
        call: Call::Withdraw,
        triple: (257, 1, 1),
        refused: Some((23, 0)),
        count: 256,
    },
    Step {
        name: "the first back again",
        call: Call::Restore,
        triple: (1, 1, 1),
        refused: None,
        count: 255,
    },
    Step {
        name: "room for one",
        call: Call::Withdraw,
        triple: (257, 1, 1),
        refused: None,
        count: 256,
    },
    Step {
        name: "no room again",
        call: Call::Withdraw,
        triple: (1, 1, 1),
        refused: Some((23, 0)),
        count: 256,
    },
    Step {
        name: "withdrawn at last",
        call: Call::Withdraw,
        triple: (257, 1, 1),
        refused: Some((21, 0)),
        count: 256,
    },
];

/// Fails under a call's name, unless each answers as it says.
fn steps_hold(store: &mut Withdrawn<RowStore>, steps: &[Step]) -> Result<(), Fail> {
    for step in steps {
        let triple = triple_of(step.triple);
        let answer = match step.call {
            Call::Withdraw => store.withdraw(triple),
            Call::Restore => store.restore(triple),
        };
        if answer.err().map(said) != step.refused || store.count() != step.count {
            return Err(Fail::new(step.name));
        }
    }
    Ok(())
}

/// The subjects from 1 to 257, each with property 1 and object 1.
fn subjects(heap: Global) -> Result<RowStore, Fail> {
    let rows = (1..=257)
        .map(|subject| triple_of((subject, 1, 1)))
        .collect(heap)?;
    RowStore::load(300, rows).map_err(|_| Fail::new("the row store was refused"))
}

#[test]
fn calls_answer_as_the_table_says_and_change_no_more_than_that(
    rt: HostRuntime,
) -> Result<(), Fail> {
    let mut store = Withdrawn::new(row_store(rt.alloc(), &LIST)?);
    assert_eq!(rt; store.count(), 0);
    steps_hold(&mut store, &STEPS)?;
    agree("left", &mut store, &LEFT)?;
    let mut table = store.into_below();
    assert_eq!(rt; table.len(), LIST.len());
    agree("the store below", &mut table, &LIST)
}

#[test]
fn what_is_withdrawn_stays_so_after_many_questions(rt: HostRuntime) -> Result<(), Fail> {
    let mut store = Withdrawn::new(row_store(rt.alloc(), &LIST)?);
    for triple in GONE {
        assert_eq!(rt; store.withdraw(triple_of(triple)), Ok(()));
    }
    let left = without(rt.alloc(), &LIST, &GONE)?;
    agree("withdrawn", &mut store, left.as_slice())?;
    steps_hold(&mut store, &AFTER_QUESTIONS)?;
    agree("withdrawn again", &mut store, left.as_slice())?;
    assert_eq!(rt; store.count(), GONE.len());
    let mut table = store.into_below();
    assert_eq!(rt; table.len(), LIST.len());
    agree("the store below", &mut table, &LIST)
}

#[test]
fn seek_and_leap_pass_over_what_is_withdrawn(rt: HostRuntime) -> Result<(), Fail> {
    let mut store = Withdrawn::new(row_store(rt.alloc(), &LIST)?);
    for (triple, rest) in RESTS {
        assert_eq!(rt; store.withdraw(triple_of(triple)), Ok(()));
        agree("the rest", &mut store, rest)?;
    }
    assert_eq!(rt; store.count(), 6);
    Ok(())
}

#[test]
fn with_256_withdrawn_there_is_no_room_for_one_more(rt: HostRuntime) -> Result<(), Fail> {
    let every = selector_of((0, 0, 0));
    let mut store = Withdrawn::new(subjects(rt.alloc())?);
    for subject in 1..=256 {
        assert_eq!(rt; store.withdraw(triple_of((subject, 1, 1))), Ok(()));
    }
    assert_eq!(rt; store.count(), 256);
    assert_eq!(rt; store.seek(every, ORIGIN), Some(triple_of((257, 1, 1))));
    assert_eq!(rt; store.leap(Position::Subject, every, 0), Some(257));
    steps_hold(&mut store, &WHEN_FULL)?;
    assert_eq!(rt; store.seek(every, ORIGIN), Some(triple_of((1, 1, 1))));
    assert_eq!(rt; store.leap(Position::Subject, every, 2), None);
    Ok(())
}
