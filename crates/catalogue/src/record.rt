//! Records: entries as they are handed over in a list.
ghost use Rattle.std.specs.Prelude.{◌≡◌};
ghost use Rattle.std.specs.Option.{option_map};
ghost use Rattle.catalogue.specs.Entries.{told};
ghost use Rattle.catalogue.specs.Records.{entry_of};

use crate::kind::Kind;

/// The number of a kind, and a value.
#[derive(Clone, Copy, Debug, PartialEq, Eq)]
pub struct Record {
    // Kept as a number: a list is handed over as it is, and a record of no kind is refused at its place.
    /// The published number of a kind, where the record is valid.
    pub kind: u32,
    /// The value; 0 unless the kind is an integer's, where the record is valid.
    pub value: i32,
}

impl Record {
    /// The entry that the record spells; none where its kind is not 1 to 3, or it is no integer and has a
    /// value.
    pub(crate) fn entry(self) -> Option<(Kind, i32)>
        ensures { result ≡ option_map told (entry_of self) }
    {
        let kind = Kind::from_number(self.kind)?;
        (kind == Kind::Integer || self.value == 0).then_some((kind, self.value))
    }
}
