//! What every catalogue promises.
ghost use Rattle.std.specs.Prelude.{◌≡◌, ℕ};
ghost use Rattle.catalogue.specs.Entries.{Entry, Proper, told};

use crate::kind::Kind;

/// A kind and a value for each term number.
pub trait Catalogue {
    /// What the catalogue says of each number.
    ghost entries: { Self → ℕ → Entry };

    /// An integer's value is a signed 32-bit number, and any other kind has the value 0; a catalogue
    /// with an entry that is not so is not accepted.
    ghost proper: { (c : Self) (n : ℕ) → Proper (entries c n) };

    /// What kind of thing `kept` is.
    ghost Kept: { Type 0 };

    /// What else of the catalogue no lookup changes: of the listed and the inline one all of it.
    ghost kept: { Self → Kept };

    // Kept as a pair: a lookup is published as a kind and a signed value, 0 for a kind that has none.
    /// The kind and the value of a number, whichever it is. A catalogue may move things about inside
    /// itself to answer; what it says of each number stays as it was, and what it keeps.
    fn lookup(&mut self, number: u32) -> (Kind, i32)
        ensures answer { result ≡ told (entries self.old number) }
        ensures same { entries self.new ≡ entries self.old }
        ensures kept { kept self.new ≡ kept self.old };
}
