//! Seek and leap of each kind of store, against the whole list, gone over plainly, and against a table.
use crate::bare::Bare;
use std::test::Fail;
use store_cases::lists::{DIRECTORY, LIST, PAIRS, rows, table};
use store_cases::numbers::{NUMBERS, selector_of, triple_of};
use store_cases::plain::{least, smallest};
use triples::position::Position;
use triples::property_store::PropertyStore;
use triples::row_store::RowStore;
use triples::store::Store;

/// A name, a selector, a start, and what is sought from there on.
type Question = (
    &'static str,
    (u32, u32, u32),
    (u32, u32, u32),
    Option<(u32, u32, u32)>,
);

/// Selectors and starts with what is sought in the list: none where there is nothing.
const SOUGHT: [Question; 14] = [
    ("any from the least", (0, 0, 0), (0, 0, 0), Some((1, 2, 1))),
    (
        "any from a triple that is there",
        (0, 0, 0),
        (2, 2, 3),
        Some((2, 2, 3)),
    ),
    (
        "any from between two triples",
        (0, 0, 0),
        (2, 2, 4),
        Some((2, 4, 1)),
    ),
    (
        "any from a subject that is not there",
        (0, 0, 0),
        (3, 1, 1),
        Some((5, 2, 1)),
    ),
    ("any from behind the last", (0, 0, 0), (5, 2, 2), None),
    (
        "a subject, from below it",
        (2, 0, 0),
        (1, 5, 5),
        Some((2, 2, 3)),
    ),
    (
        "a property over two subjects",
        (0, 4, 0),
        (1, 4, 6),
        Some((2, 4, 1)),
    ),
    (
        "an object over three subjects",
        (0, 0, 1),
        (1, 2, 2),
        Some((2, 4, 1)),
    ),
    (
        "a subject and a property",
        (2, 4, 0),
        (2, 4, 2),
        Some((2, 4, 4)),
    ),
    (
        "a subject and an object",
        (1, 0, 5),
        (0, 0, 0),
        Some((1, 4, 5)),
    ),
    (
        "a property and an object",
        (0, 2, 1),
        (1, 2, 2),
        Some((5, 2, 1)),
    ),
    (
        "all three, from there",
        (2, 4, 4),
        (2, 4, 4),
        Some((2, 4, 4)),
    ),
    ("all three, from behind it", (2, 4, 4), (2, 4, 5), None),
    ("a number over the top", (6, 0, 0), (0, 0, 0), None),
];

// Kept beside its twin in `layers_tests`: a public one would need a contract over each call of the closure.
/// Asks for every three of the numbers, up to the first failure.
fn each_three<F: FnMut((u32, u32, u32)) -> Result<(), Fail>>(mut ask: F) -> Result<(), Fail>
    requires { F.IsAlwaysCallable ask }
{
    for subject in NUMBERS {
        for property in NUMBERS {
            for object in NUMBERS {
                ask((subject, property, object))?;
            }
        }
    }
    Ok(())
}

/// Fails, unless seek answers as the plain list does, from every start.
fn seeks_agree<S: Store>(store: &mut S, selector: (u32, u32, u32)) -> Result<(), Fail> {
    each_three(|start| {
        let found = store.seek(selector_of(selector), triple_of(start));
        if found == least(&LIST, selector, start).map(triple_of) {
            Ok(())
        } else {
            Err(Fail::new("seek"))
        }
    })
}

// Kept beside its twin in `layers_tests`, which takes the list.
/// Whether leap answers as the plain list does, at every position and from every bound.
fn leaps_agree<S: Store>(store: &mut S, selector: (u32, u32, u32)) -> bool {
    [Position::Subject, Position::Property, Position::Object]
        .into_iter()
        .all(|position| {
            NUMBERS.into_iter().all(|bound| {
                let found = store.leap(position, selector_of(selector), bound);
                found == smallest(&LIST, position, selector, bound)
            })
        })
}

/// Fails, unless seek and leap answer as the plain list does for every selector, and the top is 5.
fn agrees<S: Store>(store: &mut S) -> Result<(), Fail> {
    each_three(|selector| {
        seeks_agree(store, selector)?;
        if leaps_agree(store, selector) {
            Ok(())
        } else {
            Err(Fail::new("leap"))
        }
    })?;
    if store.top() != 5 {
        return Err(Fail::new("top"));
    }
    Ok(())
}

/// Fails under a row's name, unless seek answers as the table says.
fn seeks_as_listed<S: Store>(store: &mut S) -> Result<(), Fail> {
    for (name, selector, start, sought) in SOUGHT {
        let found = store.seek(selector_of(selector), triple_of(start));
        if found != sought.map(triple_of) {
            return Err(Fail::new(name));
        }
    }
    Ok(())
}

#[test]
fn a_row_store_answers_as_a_loop_over_its_list(rt: HostRuntime) -> Result<(), Fail> {
    let Ok(mut store) = RowStore::load(5, rows(rt.alloc(), &LIST)?) else {
        return Err(Fail::new("refused"));
    };
    seeks_as_listed(&mut store)?;
    agrees(&mut store)
}

#[test]
fn a_property_store_answers_as_a_loop_over_the_list(rt: HostRuntime) -> Result<(), Fail> {
    let Ok(mut store) = PropertyStore::load(5, table(rt.alloc(), &DIRECTORY, &PAIRS)?) else {
        return Err(Fail::new("refused"));
    };
    seeks_as_listed(&mut store)?;
    agrees(&mut store)
}

#[test]
fn a_leap_by_seeks_alone_answers_as_a_loop_over_the_list(rt: HostRuntime) -> Result<(), Fail> {
    let Ok(inner) = RowStore::load(5, rows(rt.alloc(), &LIST)?) else {
        return Err(Fail::new("refused"));
    };
    let mut store = Bare { inner, asked: 0 };
    agrees(&mut store)?;
    if store.asked == 0 {
        return Err(Fail::new("it was never asked"));
    }
    Ok(())
}
