//! Whether a store answers as a plain list does, whatever is asked.
use std::test::Fail;
use store_cases::numbers::{NUMBERS, selector_of, triple_of};
use store_cases::plain::{least, smallest};
use triples::position::Position;
use triples::store::Store;

// Kept beside its twin in `triples_tests`: a public one would need a contract over each call of the closure.
/// Asks for every three of the numbers, up to the first failure.
fn each_three<F: FnMut((u32, u32, u32)) -> Result<(), Fail>>(mut ask: F) -> Result<(), Fail>
    requires { F.IsAlwaysCallable ask }
{
    for subject in NUMBERS {
        for property in NUMBERS {
            for object in NUMBERS {
                ask((subject, property, object))?;
            }
        }
    }
    Ok(())
}

/// Fails under the name, unless seek finds the least triple of the list, from every start.
fn seeks_agree<S: Store>(
    name: &str,
    store: &mut S,
    list: &[(u32, u32, u32)],
    selector: (u32, u32, u32),
) -> Result<(), Fail> {
    each_three(|start| {
        let found = store.seek(selector_of(selector), triple_of(start));
        if found == least(list, selector, start).map(triple_of) {
            Ok(())
        } else {
            Err(Fail::new(format_args!("seek: {name}")))
        }
    })
}

/// Whether leap finds the smallest number of the list, at every position and from every bound.
fn leaps_agree<S: Store>(
    store: &mut S,
    list: &[(u32, u32, u32)],
    selector: (u32, u32, u32),
) -> bool {
    [Position::Subject, Position::Property, Position::Object]
        .into_iter()
        .all(|position| {
            NUMBERS.into_iter().all(|bound| {
                let found = store.leap(position, selector_of(selector), bound);
                found == smallest(list, position, selector, bound)
            })
        })
}

// Kept beside `agrees` of `triples_tests`: that one asks of one list only, and needs no name.
/// Fails under the name, unless seek and leap answer as going over the list does for every selector, and the
/// top is 5.
pub(crate) fn agree<S: Store>(
    name: &str,
    store: &mut S,
    list: &[(u32, u32, u32)],
) -> Result<(), Fail> {
    each_three(|selector| {
        seeks_agree(name, store, list, selector)?;
        if !leaps_agree(store, list, selector) {
            return Err(Fail::new(format_args!("leap: {name}")));
        }
        Ok(())
    })?;
    if store.top() != 5 {
        return Err(Fail::new(format_args!("top: {name}")));
    }
    Ok(())
}
