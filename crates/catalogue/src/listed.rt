//! A catalogue as a list of records.
ghost use Rattle.std.specs.Prelude.{◌≡◌, true, vec_len, nat_le};
ghost use Rattle.catalogue.specs.Records.{all_valid, most_records};

use crate::record::Record;

/// The most records that a list may have.
pub const MOST_RECORDS: usize = 1_000_000;

/// A catalogue whose first record is for number 1, the second for number 2, and so on; 0 and the numbers
/// that have no record are names. There are at most `MOST_RECORDS` records, and every one is valid.
#[derive(Drop)]
pub struct Listed {
    pub(crate) records: Vec<Record>,
    ghost few: { nat_le (vec_len records) most_records ≡ true },
    ghost sound: { all_valid records.items ≡ true },
}
