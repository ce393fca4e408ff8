//! Lists of records taken in, and given out again.
ghost use Rattle.std.specs.Prelude.{◌≡◌, Some, None, vec_len, MatchResult};
ghost use Rattle.catalogue.specs.Calls.{Loaded};
ghost use Rattle.catalogue.specs.Listing.{listed_outcome};
ghost use Rattle.catalogue.specs.Records.{first_invalid};

use crate::listed::{Listed, MOST_RECORDS};
use crate::record::Record;
use refusal::declined::{Declined, accepted};
use refusal::refusal::Refusal;
use refusal::rejection::Rejection;

impl Listed {
    /// The catalogue of these records. `OverLimit` where there are more than `MOST_RECORDS`; else
    /// `RecordInvalid`, with the place of the first record whose kind is not 1 to 3, or which is no
    /// integer and has a value. A list that is refused comes back as it was.
    pub fn load(records: Vec<Record>) -> Result<Listed, Declined<Vec<Record>>>
        ensures { Loaded records result }
    {
        let records = accepted(check(&records), records)?;
        Ok(Listed { records })
    }

    /// How many records there are.
    pub fn len(&self) -> usize
        ensures { result ≡ vec_len self.now.records }
    {
        self.records.len()
    }

    /// The records, as they were taken in.
    pub fn into_records(self) -> Vec<Record>
        ensures { result ≡ self.records }
    {
        let Listed { records } = self;
        records
    }
}

/// Accepts records that are a catalogue, or says why they are none.
fn check(records: &[Record]) -> Result<(), Rejection>
    ensures { MatchResult result (λ _. listed_outcome records.now ≡ None)
        (λ r. listed_outcome records.now ≡ Some r) }
{
    if records.len() > MOST_RECORDS {
        return Err(Rejection::unplaced(Refusal::OverLimit));
    }
    match first_invalid(records) {
        Some(place) => Err(Refusal::RecordInvalid.at(place)),
        None => Ok(()),
    }
}

/// The place of the first record that is not valid; none where all are.
fn first_invalid(records: &[Record]) -> Option<usize>
    ensures { result ≡ first_invalid records.now }
{
    records.iter().position(|record| record.entry().is_none())
}
