//! Byte strings from the tables are what the tables say.
use crate::cases::CASES;
use crate::damaged::{DAMAGED, GOOD};
use query::read;

/// Whether the bytes are a query, or else the number of the refusal and its place.
pub(crate) fn outcome(bytes: &[u8]) -> Result<(), (u32, usize)> {
    read::check(bytes).map_err(|rejection| rejection.into())
}

#[test]
fn each_case_is_a_query_or_refused_as_the_table_says(rt: HostRuntime) {
    for case in CASES.iter() {
        assert_eq!(rt; outcome(case.bytes), case.expected, "{}", case.name);
    }
}

#[test]
fn one_damaged_byte_gives_the_one_defined_refusal(rt: HostRuntime) {
    for (at, byte, expected) in DAMAGED {
        let mut bytes = GOOD;
        if let Some(place) = bytes.get_mut(at) {
            *place = byte;
        }
        assert_eq!(rt; outcome(&bytes), expected, "a damaged byte");
    }
}

#[test]
fn every_proper_prefix_of_a_query_ends_early(rt: HostRuntime) {
    for end in 0..GOOD.len() {
        assert_eq!(rt; outcome(&GOOD[0..end]), Err((11, end)), "a proper prefix");
    }
    assert_eq!(rt; outcome(&GOOD), Ok(()));
}
