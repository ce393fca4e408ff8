//! Each part of a query has its own filter, and what is no part has none.
use crate::setting::{ROW, listed};
use filter::parts::{block_truth, group_truth};
use filter::truth::Truth;
use query::read;
use std::test::Fail;

/// Two alternatives. The first has two blocks, with a filter that is true and one that is false, and its
/// group filter is an error; the second has nothing.
const TWO_ALTERNATIVES: [u8; 24] = [
    2, 0, 2, 1, 2, 2, 2, 1, 3, 2, 1, 2, 2, 2, 1, 3, 0, 1, 1, 1, 1, 0, 0, 0,
];

/// Alternatives with the truths of their group filters.
const GROUPS: [(usize, Option<Truth>); 4] = [
    (0, Some(Truth::Error)),
    (1, Some(Truth::True)),
    (2, None),
    (usize::MAX, None),
];

/// Blocks of alternatives with the truths of their filters.
const BLOCKS: [(usize, usize, Option<Truth>); 6] = [
    (0, 0, Some(Truth::True)),
    (0, 1, Some(Truth::False)),
    (0, 2, None),
    (0, usize::MAX, None),
    (1, 0, None),
    (2, 0, None),
];

#[test]
fn each_part_has_its_own_filter(rt: HostRuntime) -> Result<(), Fail> {
    let Ok(query) = read::read(rt.alloc(), &TWO_ALTERNATIVES) else {
        return Err(Fail::new("the bytes are no query"));
    };
    let mut catalogue = listed(rt.alloc())?;
    for (alternative, expected) in GROUPS {
        let truth = group_truth(&query, alternative, &ROW, &mut catalogue);
        assert_eq!(rt; truth, expected, "alternative {alternative}");
    }
    for (alternative, block, expected) in BLOCKS {
        let truth = block_truth(&query, alternative, block, &ROW, &mut catalogue);
        assert_eq!(rt; truth, expected, "block {block} of {alternative}");
    }
    Ok(())
}
