//! Layers over layers.
use crate::agreeing::agree;
use crate::plain::{with_inverse, without};
use crate::stores::{property_store, row_store};
use layers::inverse::Inverse;
use layers::withdrawn::Withdrawn;
use std::test::Fail;
use store_cases::lists::LIST;
use store_cases::numbers::{said, triple_of};

/// A triple to withdraw, what the call answers, and what is left.
type Withdrawal = (
    (u32, u32, u32),
    Result<(), (u32, usize)>,
    &'static [(u32, u32, u32)],
);

/// Triples withdrawn over 3 as the inverse of 4, one after the other.
const WITHDRAWN_OVER_INVERSE: [Withdrawal; 3] = [
    // one whose turned triple stays
    (
        (2, 4, 1),
        Ok(()),
        &[
            (1, 2, 1),
            (1, 3, 2),
            (1, 4, 5),
            (2, 2, 3),
            (2, 4, 4),
            (4, 3, 2),
            (5, 2, 1),
            (5, 3, 1),
        ],
    ),
    // a turned one, whose triple stays
    (
        (4, 3, 2),
        Ok(()),
        &[
            (1, 2, 1),
            (1, 3, 2),
            (1, 4, 5),
            (2, 2, 3),
            (2, 4, 4),
            (5, 2, 1),
            (5, 3, 1),
        ],
    ),
    // one that is neither below nor turned
    (
        (3, 3, 2),
        Err((22, 0)),
        &[
            (1, 2, 1),
            (1, 3, 2),
            (1, 4, 5),
            (2, 2, 3),
            (2, 4, 4),
            (5, 2, 1),
            (5, 3, 1),
        ],
    ),
];

/// What there is with 3 as the inverse of 4 where the triple 2 4 1 was withdrawn below.
const INVERSE_OVER_WITHDRAWN: [(u32, u32, u32); 7] = [
    (1, 2, 1),
    (1, 4, 5),
    (2, 2, 3),
    (2, 4, 4),
    (4, 3, 2),
    (5, 2, 1),
    (5, 3, 1),
];

/// Two properties, each with its inverse, one laid over the other.
const INVERSE_OVER_INVERSE: [(&str, [(u32, u32); 2]); 4] = [
    ("a turned property turned on", [(4, 3), (3, 5)]),
    ("a turned property turned back", [(4, 3), (3, 4)]),
    (
        "two properties that know nothing of each other",
        [(4, 3), (2, 1)],
    ),
    ("the same inverse twice", [(2, 2), (2, 2)]),
];

#[test]
fn withdrawing_over_an_inverse_leaves_the_turned_triple(rt: HostRuntime) -> Result<(), Fail> {
    let Ok(inverse) = Inverse::new(property_store(rt.alloc())?, 4, 3) else {
        return Err(Fail::new("the inverse was refused"));
    };
    let mut store = Withdrawn::new(inverse);
    for (triple, answer, list) in WITHDRAWN_OVER_INVERSE {
        assert_eq!(rt; store.withdraw(triple_of(triple)).map_err(said), answer);
        agree("over an inverse", &mut store, list)?;
    }
    let mut table = store.into_below().into_below();
    assert_eq!(rt; (table.entries(), table.len()), (5, 6));
    agree("the store below", &mut table, &LIST)
}

#[test]
fn withdrawing_below_an_inverse_takes_the_turned_triple_too(rt: HostRuntime) -> Result<(), Fail> {
    let mut below = Withdrawn::new(row_store(rt.alloc(), &LIST)?);
    assert_eq!(rt; below.withdraw(triple_of((2, 4, 1))), Ok(()));
    let Ok(mut store) = Inverse::new(below, 4, 3) else {
        return Err(Fail::new("the inverse was refused"));
    };
    agree("below an inverse", &mut store, &INVERSE_OVER_WITHDRAWN)?;
    let left = without(rt.alloc(), &LIST, &[(2, 4, 1)])?;
    let turned = with_inverse(rt.alloc(), left.as_slice(), 4, 3)?;
    agree(
        "below an inverse, worked out",
        &mut store,
        turned.as_slice(),
    )?;
    let mut below = store.into_below();
    assert_eq!(rt; below.count(), 1);
    agree("the layer below", &mut below, left.as_slice())
}

#[test]
fn an_inverse_over_an_inverse_turns_what_was_turned(rt: HostRuntime) -> Result<(), Fail> {
    for (name, [(first, to_first), (second, to_second)]) in INVERSE_OVER_INVERSE {
        let Ok(below) = Inverse::new(property_store(rt.alloc())?, first, to_first) else {
            return Err(Fail::new(name));
        };
        let Ok(mut store) = Inverse::new(below, second, to_second) else {
            return Err(Fail::new(name));
        };
        let once = with_inverse(rt.alloc(), &LIST, first, to_first)?;
        let twice = with_inverse(rt.alloc(), once.as_slice(), second, to_second)?;
        agree(name, &mut store, twice.as_slice())?;
        let mut below = store.into_below();
        agree(name, &mut below, once.as_slice())?;
        agree(name, &mut below.into_below(), &LIST)?;
    }
    Ok(())
}

#[test]
fn withdrawing_over_withdrawn_keeps_to_its_own_triples(rt: HostRuntime) -> Result<(), Fail> {
    let mut below = Withdrawn::new(row_store(rt.alloc(), &LIST)?);
    assert_eq!(rt; below.withdraw(triple_of((2, 4, 1))), Ok(()));
    let mut store = Withdrawn::new(below);
    assert_eq!(rt; store.count(), 0);
    // what is withdrawn below is not there, and no call on this layer brings it back
    assert_eq!(rt;
        store.withdraw(triple_of((2, 4, 1))).map_err(said),
        Err((22, 0))
    );
    assert_eq!(rt;
        store.restore(triple_of((2, 4, 1))).map_err(said),
        Err((24, 0))
    );
    assert_eq!(rt; store.withdraw(triple_of((1, 2, 1))), Ok(()));
    assert_eq!(rt; store.withdraw(triple_of((2, 4, 4))), Ok(()));
    let left_below = without(rt.alloc(), &LIST, &[(2, 4, 1)])?;
    let left = without(rt.alloc(), left_below.as_slice(), &[(1, 2, 1), (2, 4, 4)])?;
    agree("withdrawn twice", &mut store, left.as_slice())?;
    assert_eq!(rt; store.count(), 2);
    let mut below = store.into_below();
    assert_eq!(rt; below.count(), 1);
    agree("the layer below", &mut below, left_below.as_slice())?;
    assert_eq!(rt; below.restore(triple_of((2, 4, 1))), Ok(()));
    agree("the layer below, restored", &mut below, &LIST)
}

#[test]
fn withdrawn_over_inverse_over_withdrawn_takes_from_all_three(rt: HostRuntime) -> Result<(), Fail> {
    let mut lowest = Withdrawn::new(property_store(rt.alloc())?);
    assert_eq!(rt; lowest.withdraw(triple_of((2, 4, 1))), Ok(()));
    let Ok(inverse) = Inverse::new(lowest, 4, 3) else {
        return Err(Fail::new("the inverse was refused"));
    };
    let mut store = Withdrawn::new(inverse);
    // the turned triple of the one that is withdrawn at the bottom
    assert_eq!(rt;
        store.withdraw(triple_of((1, 3, 2))).map_err(said),
        Err((22, 0))
    );
    // a turned one whose triple stays, and one whose turned triple stays
    assert_eq!(rt; store.withdraw(triple_of((4, 3, 2))), Ok(()));
    assert_eq!(rt; store.withdraw(triple_of((1, 4, 5))), Ok(()));
    let left_lowest = without(rt.alloc(), &LIST, &[(2, 4, 1)])?;
    let turned = with_inverse(rt.alloc(), left_lowest.as_slice(), 4, 3)?;
    let left = without(rt.alloc(), turned.as_slice(), &[(4, 3, 2), (1, 4, 5)])?;
    agree("three layers", &mut store, left.as_slice())?;
    let mut inverse = store.into_below();
    agree("two layers", &mut inverse, turned.as_slice())?;
    let mut lowest = inverse.into_below();
    assert_eq!(rt; lowest.count(), 1);
    agree("one layer", &mut lowest, left_lowest.as_slice())?;
    agree("the store below", &mut lowest.into_below(), &LIST)
}
