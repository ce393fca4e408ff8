//! Filters from the tables have the truths that the tables say.
use crate::cases::CASES;
use crate::setting::{ROW, listed};
use catalogue::catalogue::Catalogue;
use catalogue::inline::Inline;
use filter::parts::group_truth;
use filter::truth::Truth;
use query::query::Query;
use query::read;
use std::alloc::Global;
use std::test::Fail;

/// A comparison that is true, one that is false and one that is an error on the row of the setting.
const TRUE: [u8; 3] = [1, 9, 9];

const FALSE: [u8; 3] = [1, 9, 13];

const ERROR: [u8; 3] = [1, 1, 1];

/// Two nodes, then what and, or make of them, in this order.
const TWO: [([u8; 3], [u8; 3], Truth, Truth); 9] = [
    (TRUE, TRUE, Truth::True, Truth::True),
    (TRUE, FALSE, Truth::False, Truth::True),
    (TRUE, ERROR, Truth::Error, Truth::True),
    (FALSE, TRUE, Truth::False, Truth::True),
    (FALSE, FALSE, Truth::False, Truth::False),
    (FALSE, ERROR, Truth::False, Truth::Error),
    (ERROR, TRUE, Truth::Error, Truth::True),
    (ERROR, FALSE, Truth::False, Truth::Error),
    (ERROR, ERROR, Truth::Error, Truth::Error),
];

/// The query of one alternative that has this group filter and nothing else.
fn with_filter(heap: Global, filter: &[u8]) -> Result<Query, Fail> {
    let mut bytes = vec![in heap; 1, 0, 0]?;
    bytes.extend_from_slice(filter)?;
    read::read(heap, bytes.as_slice()).map_err(|_| Fail::new("the bytes are no query"))
}

/// The truth of the filter on the row of the setting.
fn truth<C: Catalogue>(
    heap: Global,
    filter: &[u8],
    catalogue: &mut C,
) -> Result<Option<Truth>, Fail> {
    let query = with_filter(heap, filter)?;
    Ok(group_truth(&query, 0, &ROW, catalogue))
}

#[test]
fn each_filter_has_the_truth_of_the_table(rt: HostRuntime) -> Result<(), Fail> {
    let mut catalogue = listed(rt.alloc())?;
    for case in CASES.iter() {
        let truth = truth(rt.alloc(), case.filter, &mut catalogue)?;
        assert_eq!(rt; truth, Some(case.truth), "{}", case.name);
    }
    Ok(())
}

#[test]
fn two_truths_together_are_as_in_the_table(rt: HostRuntime) -> Result<(), Fail> {
    let mut catalogue = listed(rt.alloc())?;
    for ([a, b, c], [d, e, f], and, or) in TWO {
        let both = truth(rt.alloc(), &[3, a, b, c, d, e, f, 5, 0, 1], &mut catalogue)?;
        let either = truth(rt.alloc(), &[3, a, b, c, d, e, f, 6, 0, 1], &mut catalogue)?;
        assert_eq!(rt; (both, either), (Some(and), Some(or)));
    }
    Ok(())
}

#[test]
fn a_computed_catalogue_has_integers_where_a_list_has_names(rt: HostRuntime) -> Result<(), Fail> {
    // The terms 750,001 and 750,002: the integers 0 and 1, computed.
    let less = [1, 2, 0xE2, 0xC6, 0x5B, 0xE4, 0xC6, 0x5B];
    let mut catalogue = listed(rt.alloc())?;
    assert_eq!(rt; truth(rt.alloc(), &less, &mut Inline)?, Some(Truth::True));
    assert_eq!(rt;
        truth(rt.alloc(), &less, &mut catalogue)?,
        Some(Truth::Error)
    );
    Ok(())
}
