//! What a number is, in a list and inline.
use crate::loading::{list, taken};
use catalogue::catalogue::Catalogue;
use catalogue::inline::Inline;
use catalogue::kind::Kind;
use std::test::Fail;

/// A list of four records.
const RECORDS: [(u32, i32); 4] = [(2, 0), (3, -2_147_483_648), (3, 2_147_483_647), (3, -1)];

/// Numbers with their kind and value in that list.
const IN_LIST: [(u32, Kind, i32); 8] = [
    (0, Kind::Name, 0),
    (1, Kind::Text, 0),
    (2, Kind::Integer, -2_147_483_648),
    (3, Kind::Integer, 2_147_483_647),
    (4, Kind::Integer, -1),
    (5, Kind::Name, 0),
    (1_000_001, Kind::Name, 0),
    (4_294_967_295, Kind::Name, 0),
];

/// Numbers with their kind and value, computed.
const IN_LINE: [(u32, Kind, i32); 9] = [
    (0, Kind::Name, 0),
    (1, Kind::Name, 0),
    (500_000, Kind::Name, 0),
    (500_001, Kind::Integer, -250_000),
    (750_000, Kind::Integer, -1),
    (750_001, Kind::Integer, 0),
    (1_000_000, Kind::Integer, 249_999),
    (1_000_001, Kind::Name, 0),
    (4_294_967_295, Kind::Name, 0),
];

/// Each kind with its published number.
const NUMBERS: [(Kind, u32); 3] = [(Kind::Name, 1), (Kind::Text, 2), (Kind::Integer, 3)];

/// The catalogue answers as the table says, and again when it is asked anew.
fn answers<C: Catalogue>(catalogue: &mut C, table: &[(u32, Kind, i32)]) -> bool {
    (0..2).all(|_| {
        table.iter().all(|(number, kind, value)| catalogue.lookup(*number) == (*kind, *value))
    })
}

#[test]
fn a_list_answers_for_its_records_and_past_them(rt: HostRuntime) -> Result<(), Fail> {
    let mut listed = taken(list(rt.alloc(), &RECORDS)?)?;
    assert!(rt; answers(&mut listed, &IN_LIST));
    Ok(())
}

#[test]
fn an_empty_list_has_names_only(rt: HostRuntime) -> Result<(), Fail> {
    let mut listed = taken(list(rt.alloc(), &[])?)?;
    let names = [(0, Kind::Name, 0), (1, Kind::Name, 0), (2, Kind::Name, 0)];
    assert!(rt; answers(&mut listed, &names));
    Ok(())
}

#[test]
fn integers_stand_in_a_row(rt: HostRuntime) {
    assert!(rt; answers(&mut Inline, &IN_LINE));
}

#[test]
fn each_kind_has_its_published_number(rt: HostRuntime) {
    for (kind, number) in NUMBERS {
        assert_eq!(rt; kind.number(), number);
    }
}
