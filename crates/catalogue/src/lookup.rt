//! The entries of a list of records.
ghost use Rattle.catalogue.specs.Laws.{listed_proper};
ghost use Rattle.catalogue.specs.Listing.{listed_entry};

use crate::catalogue::Catalogue;
use crate::kind::Kind;
use crate::listed::Listed;

impl Catalogue for Listed {
    ghost entries = { λ c. listed_entry c.records.items };

    ghost proper = { λ c n. listed_proper c.records.items n };

    ghost Kept = { Self };

    ghost kept = { λ c. c };

    fn lookup(&mut self, number: u32) -> (Kind, i32) {
        number
            .checked_sub(1)
            .and_then(|place| self.records.get(place as usize))
            .and_then(|record| record.entry())
            .unwrap_or((Kind::Name, 0))
    }
}
