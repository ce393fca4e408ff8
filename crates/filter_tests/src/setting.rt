//! The catalogue and the row that the tables speak of.
use catalogue::listed::Listed;
use catalogue::record::Record;
use std::alloc::Global;
use std::test::Fail;

/// Kind and value of the terms from 1 on: a name, two texts, the integers 7, 7, -1 and 0, a name.
const RECORDS: [(u32, i32); 8] = [
    (1, 0),
    (2, 0),
    (2, 0),
    (3, 7),
    (3, 7),
    (3, -1),
    (3, 0),
    (1, 0),
];

/// Variables 1 to 8 each have the term of their own number, variable 15 has term 8, and no other has a value.
pub(crate) const ROW: [u32; 16] = [0, 1, 2, 3, 4, 5, 6, 7, 8, 0, 0, 0, 0, 0, 0, 8];

/// The catalogue of these records.
pub(crate) fn listed(heap: Global) -> Result<Listed, Fail> {
    let records = RECORDS
        .iter()
        .map(|(kind, value)| Record {
            kind: *kind,
            value: *value,
        })
        .collect(heap)?;
    Listed::load(records).map_err(|_| Fail::new("the records are no catalogue"))
}
