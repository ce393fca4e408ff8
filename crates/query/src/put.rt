//! Writing the parts of a query into a buffer.
ghost use Rattle.std.specs.Prelude.{◌≡◌, ℕ, ◌≤◌, true, List, ◌++◌, length, All};
ghost use Rattle.varint.specs.Encode.{encode, largest};
ghost use Rattle.query.specs.Codes.{number_of};
ghost use Rattle.query.specs.Limits.{lawful_place};
ghost use Rattle.query.specs.Format.{counted, place_bytes};
ghost use Rattle.query.specs.Writes.{Fits, Puts};

use crate::kind::Kind;
use crate::place::Place;

// Kept as a buffer with a place: of a rest that one call cuts off and hands on, the proof didn't close.
/// A buffer that is written, and the place that comes next.
#[derive(Drop)]
pub(crate) struct Writer<'a> {
    pub(crate) out: &'a mut [u8],
    pub(crate) at: usize,
}

/// A part of a query that can be written.
pub(crate) trait Coded {
    /// The bytes of the part.
    ghost code: { Self → List ℕ };

    /// The part is one that a lawful query has.
    ghost sound: { Self → Type 0 };

    /// Writes the part where the writer is.
    fn put(&self, writer: &mut Writer<'_>)
        requires sound { sound self.now }
        requires room { Fits (code self.now) writer.old }
        ensures { Puts (code self.now) writer.old writer.new };
}

impl Coded for u32 {
    ghost code = { encode };

    ghost sound = { λ _. Unit {0} };

    fn put(&self, writer: &mut Writer<'_>) {
        match varint::write::write(*self, writer.out, writer.at) {
            Ok(length) => writer.at += length,
            Err(_) => unreachable!(),
        }
    }
}

impl Coded for Place {
    ghost code = { place_bytes };

    ghost sound = { λ p. lawful_place p ≡ true };

    fn put(&self, writer: &mut Writer<'_>) {
        self.code().put(writer);
    }
}

impl Coded for Kind {
    ghost code = { λ k. encode (number_of k) };

    ghost sound = { λ _. Unit {0} };

    fn put(&self, writer: &mut Writer<'_>) {
        u32::from(*self).put(writer);
    }
}

impl<A: Coded, B: Coded> Coded for (A, B) {
    ghost code = { λ p. A.code p.0 ++ B.code p.1 };

    ghost sound = { λ p. A.sound p.0 × B.sound p.1 };

    fn put(&self, writer: &mut Writer<'_>) {
        self.0.put(writer);
        self.1.put(writer);
    }
}

/// How many items there are, and then each.
impl<T: Coded> Coded for &[T] {
    ghost code = { λ s. counted T.code s.now };

    ghost sound = { λ s. (length s.now ≤ largest) × All T.sound s.now };

    fn put(&self, writer: &mut Writer<'_>) {
        (self.len() as u32).put(writer);
        // Kept as a loop: a proof knows nothing of what a closure under `for_each` did to the writer.
        for item in *self {
            item.put(writer);
        }
    }
}
