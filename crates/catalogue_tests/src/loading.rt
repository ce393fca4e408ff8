//! Which lists are taken, and why the others are refused.
use catalogue::listed::Listed;
use catalogue::record::Record;
use std::alloc::{AllocError, Global};
use std::test::Fail;

/// Lists of kind and value, each with the number of its refusal and the place, or none where it is taken.
const LISTS: [(&[(u32, i32)], Option<(u32, usize)>); 13] = [
    // no record at all
    (&[], None),
    // each kind
    (&[(1, 0), (2, 0), (3, 0)], None),
    // the least and the largest integer
    (&[(3, -2_147_483_648), (3, 2_147_483_647)], None),
    // kinds next to the published ones, and far from them
    (&[(0, 0)], Some((5, 0))),
    (&[(3, 7), (4, 0)], Some((5, 1))),
    (&[(4_294_967_295, 0)], Some((5, 0))),
    // names and texts with a value
    (&[(1, 1)], Some((5, 0))),
    (&[(1, -1)], Some((5, 0))),
    (&[(2, 0), (2, 1)], Some((5, 1))),
    (&[(2, -1)], Some((5, 0))),
    (&[(1, 0), (1, -2_147_483_648)], Some((5, 1))),
    // the first of two bad records, in both orders
    (&[(1, 0), (4, 0), (2, 5)], Some((5, 1))),
    (&[(1, 0), (2, 5), (4, 0)], Some((5, 1))),
];

/// The list of these kinds and values.
pub(crate) fn list(heap: Global, pairs: &[(u32, i32)]) -> Result<Vec<Record>, AllocError> {
    pairs
        .iter()
        .map(|(kind, value)| Record {
            kind: *kind,
            value: *value,
        })
        .collect(heap)
}

/// The catalogue of these records.
pub(crate) fn taken(records: Vec<Record>) -> Result<Listed, Fail> {
    Listed::load(records).map_err(|_| Fail::new("refused"))
}

#[test]
fn lists_are_taken_or_refused_as_in_the_table(rt: HostRuntime) -> Result<(), Fail> {
    for (pairs, refused) in LISTS {
        let (records, outcome) = match Listed::load(list(rt.alloc(), pairs)?) {
            Ok(listed) => {
                assert_eq!(rt; listed.len(), pairs.len());
                (listed.into_records(), None)
            }
            Err(declined) => (declined.given, Some(declined.rejection.into())),
        };
        assert_eq!(rt; outcome, refused);
        assert_eq!(rt; records.as_slice(), list(rt.alloc(), pairs)?.as_slice());
    }
    Ok(())
}

#[test]
fn a_million_records_are_taken(rt: HostRuntime) -> Result<(), Fail> {
    let name = Record { kind: 1, value: 0 };
    let listed = taken(vec![in rt.alloc(); name; 1_000_000]?)?;
    assert_eq!(rt; listed.len(), 1_000_000);
    Ok(())
}

#[test]
fn a_million_and_one_are_refused_before_a_bad_record_is(rt: HostRuntime) -> Result<(), Fail> {
    let bad = Record { kind: 0, value: 0 };
    let Err(declined) = Listed::load(vec![in rt.alloc(); bad; 1_000_001]?) else {
        return Err(Fail::new("taken"));
    };
    assert_eq!(rt; <(u32, usize)>::from(declined.rejection), (1, 0));
    assert_eq!(rt; declined.given.len(), 1_000_001);
    Ok(())
}
