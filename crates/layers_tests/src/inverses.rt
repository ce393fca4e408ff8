//! The inverse of a property: when it is refused, which triples come with it, and in which order.
use crate::agreeing::agree;
use crate::plain::with_inverse;
use crate::stores::{property_store, row_store};
use layers::inverse::Inverse;
use std::test::Fail;
use store_cases::lists::LIST;
use store_cases::numbers::{said, selector_of, triple_of};
use triples::position::Position;
use triples::store::Store;

/// Properties and inverses that are refused under top 5.
const REFUSED: [(&str, u32, u32); 7] = [
    ("property 0", 0, 2),
    ("inverse 0", 2, 0),
    ("both 0", 0, 0),
    ("property over the top", 6, 2),
    ("inverse over the top", 2, 6),
    ("the largest 32-bit property", 4_294_967_295, 2),
    ("the largest 32-bit inverse", 2, 4_294_967_295),
];

/// Properties and inverses with the triples that there are then.
const TURNED: [(&str, u32, u32, &[(u32, u32, u32)]); 5] = [
    (
        "an inverse that is new",
        4,
        3,
        &[
            (1, 2, 1),
            (1, 3, 2),
            (1, 4, 5),
            (2, 2, 3),
            (2, 4, 1),
            (2, 4, 4),
            (4, 3, 2),
            (5, 2, 1),
            (5, 3, 1),
        ],
    ),
    (
        "a property that is its own inverse",
        2,
        2,
        &[
            (1, 2, 1),
            (1, 2, 5),
            (1, 4, 5),
            (2, 2, 3),
            (2, 4, 1),
            (2, 4, 4),
            (3, 2, 2),
            (5, 2, 1),
        ],
    ),
    (
        "an inverse that is there, with a triple that is there",
        2,
        4,
        &[
            (1, 2, 1),
            (1, 4, 1),
            (1, 4, 5),
            (2, 2, 3),
            (2, 4, 1),
            (2, 4, 4),
            (3, 4, 2),
            (5, 2, 1),
        ],
    ),
    (
        "the least property as the inverse of the largest, which has no triples",
        5,
        1,
        &LIST,
    ),
    (
        "the largest property as the inverse",
        4,
        5,
        &[
            (1, 2, 1),
            (1, 4, 5),
            (1, 5, 2),
            (2, 2, 3),
            (2, 4, 1),
            (2, 4, 4),
            (4, 5, 2),
            (5, 2, 1),
            (5, 5, 1),
        ],
    ),
];

/// Starts with the least triple `s 3 o` from there on, where 3 is the inverse of 4: none behind the last.
const SOUGHT: [(&str, (u32, u32, u32), Option<(u32, u32, u32)>); 8] = [
    ("from the least", (0, 0, 0), Some((1, 3, 2))),
    ("from a triple that is there", (1, 3, 2), Some((1, 3, 2))),
    ("from behind all of a subject", (1, 3, 3), Some((4, 3, 2))),
    ("from below the inverse", (4, 2, 5), Some((4, 3, 2))),
    (
        "from a property over the inverse",
        (4, 4, 0),
        Some((5, 3, 1)),
    ),
    ("from a subject without triples", (3, 3, 1), Some((4, 3, 2))),
    ("from an object in the middle", (4, 3, 3), Some((5, 3, 1))),
    ("from behind the last", (5, 3, 2), None),
];

/// Bounds with the least subject and the least object of a triple `s 3 o` from there on, or none.
const LEAPT: [(u32, Option<u32>, Option<u32>); 6] = [
    (0, Some(1), Some(1)),
    (1, Some(1), Some(1)),
    (2, Some(4), Some(2)),
    (3, Some(4), None),
    (5, Some(5), None),
    (6, None, None),
];

#[test]
fn a_property_that_is_no_term_is_refused_and_the_store_comes_back(
    rt: HostRuntime,
) -> Result<(), Fail> {
    for (name, property, inverse) in REFUSED {
        let Err(declined) = Inverse::new(row_store(rt.alloc(), &LIST)?, property, inverse) else {
            return Err(Fail::new(name));
        };
        assert_eq!(rt; said(declined.rejection), (25, 0), "{}", name);
        let mut given = declined.given;
        agree(name, &mut given, &LIST)?;
    }
    Ok(())
}

#[test]
fn the_turned_triples_come_with_those_below(rt: HostRuntime) -> Result<(), Fail> {
    for (name, property, inverse, list) in TURNED {
        let Ok(mut store) = Inverse::new(property_store(rt.alloc())?, property, inverse) else {
            return Err(Fail::new(name));
        };
        agree(name, &mut store, list)?;
        let worked_out = with_inverse(rt.alloc(), &LIST, property, inverse)?;
        agree(name, &mut store, worked_out.as_slice())?;
    }
    Ok(())
}

#[test]
fn turned_triples_are_ordered_by_what_was_the_object(rt: HostRuntime) -> Result<(), Fail> {
    let Ok(mut store) = Inverse::new(row_store(rt.alloc(), &LIST)?, 4, 3) else {
        return Err(Fail::new("the inverse was refused"));
    };
    let selector = selector_of((0, 3, 0));
    for (name, start, sought) in SOUGHT {
        assert_eq!(rt;
            store.seek(selector, triple_of(start)),
            sought.map(triple_of),
            "{}",
            name
        );
    }
    for (bound, subject, object) in LEAPT {
        assert_eq!(rt; store.leap(Position::Subject, selector, bound), subject);
        assert_eq!(rt; store.leap(Position::Object, selector, bound), object);
    }
    Ok(())
}
