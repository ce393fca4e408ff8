//! Writing bytes as text.
ghost use Rattle.std.specs.Prelude.{Some};
ghost use Rattle.hex_text.specs.Writing.{text_of};

use std::fmt;
use std::fmt::{Formatter, Write};

/// Bytes that show as their text: two capital digits each, one space between.
#[derive(Clone, Copy)]
pub struct HexText<'a> {
    pub bytes: &'a [u8],
}

impl fmt::Display for HexText<'_> {
    ghost output = { λ t. Some (text_of t.bytes.now) };

    fn fmt<W: Write>(&self, f: &mut Formatter<W>) -> fmt::Result {
        // Kept as a test of `i`: with `split_first`, what is written for an item would stand at two places.
        for (i, &byte) in self.bytes.iter().enumerate() {
            let space = if i == 0 { "" } else { " " };
            write!(f, "{space}{byte:02X}")?;
        }
        Ok(())
    }
}
