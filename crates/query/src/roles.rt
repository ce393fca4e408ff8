//! Reading single numbers of a query, each in its role.
ghost use Rattle.std.specs.Prelude.{◌≡◌, ℕ, ◌<◌, ◌^◌, Option};
ghost use Rattle.query.specs.Scanning.{ahead, Reads};
ghost use Rattle.query.specs.Grammar as grammar;
ghost use Rattle.query.specs.Readers as readers;

use crate::cursor::Cursor;
use crate::kind::Kind;
use crate::place::{MOST_VARIABLE, Place};
use refusal::refusal::Refusal;
use refusal::rejection::Rejection;
use varint::number::ReadError;

impl<'a> Cursor<'a> {
    /// The next number.
    fn number(&mut self) -> Result<u32, Rejection>
        ensures { Reads (ahead readers.number self.old) result self.new }
    {
        match varint::read::read(self.rest, 0) {
            Ok(number) => {
                let (_, rest) = self.rest.split_at(number.length);
                self.rest = rest;
                self.at += number.length;
                Ok(number.value)
            }
            Err(ReadError::EndsEarly) => Err(Refusal::EndsEarly.at(self.at)),
            Err(ReadError::Malformed) => Err(Refusal::Malformed.at(self.at)),
        }
    }

    /// What the next number stands for; the refusal, at the number's place, where `meant` gives nothing.
    fn number_as<T: Drop, F: FnOnce(u32) -> Option<T>>(
        &mut self,
        refusal: Refusal,
        meant: F,
    ) -> Result<T, Rejection>
        requires { F.IsAlwaysCallable meant }
        ensures { (f : ℕ → Option T) → ((n : ℕ) (o : Option T) → n < 2 ^ 32 → F.post meant n o → o ≡ f n)
            → Reads (ahead (readers.role refusal f) self.old) result self.new }
    {
        let place = self.at;
        let number = self.number()?;
        meant(number).ok_or(refusal.at(place))
    }

    /// A count from `least` to `most`.
    pub(crate) fn count(&mut self, least: u32, most: u32) -> Result<u32, Rejection>
        ensures { Reads (ahead (readers.count least most) self.old) result self.new }
    {
        self.number_as(Refusal::CountOutside, |n| {
            (least..=most).contains(&n).then_some(n)
        })
    }

    /// A place by its code.
    pub(crate) fn place(&mut self) -> Result<Place, Rejection>
        ensures { Reads (ahead grammar.place self.old) result self.new }
    {
        self.number_as(Refusal::PlaceCode, Place::from_code)
    }

    /// A variable that a node names.
    pub(crate) fn variable(&mut self) -> Result<u32, Rejection>
        ensures { Reads (ahead grammar.variable self.old) result self.new }
    {
        self.number_as(Refusal::NodeInvalid, |v| (v <= MOST_VARIABLE).then_some(v))
    }

    /// A node that node number `node` names.
    pub(crate) fn lower(&mut self, node: u32) -> Result<u32, Rejection>
        ensures { Reads (ahead (grammar.lower node) self.old) result self.new }
    {
        self.number_as(
            Refusal::NodeInvalid,
            |named| (named < node).then_some(named),
        )
    }

    /// The kind of a node.
    pub(crate) fn kind(&mut self) -> Result<Kind, Rejection>
        ensures { Reads (ahead grammar.kind self.old) result self.new }
    {
        self.number_as(Refusal::NodeInvalid, Kind::from_number)
    }
}
