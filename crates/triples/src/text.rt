//! A triple as text.
ghost use Rattle.triples.specs.Text.{triple_text};
ghost use Rattle.std.specs.Prelude.{Some};

use crate::triple::Triple;
use std::fmt::{self, Formatter, Write};

/// Subject, property and object as decimal numbers, one space between two.
impl fmt::Display for Triple {
    ghost output = { λ t. Some (triple_text t) };

    fn fmt<W: Write>(&self, f: &mut Formatter<W>) -> fmt::Result {
        let Triple {
            subject,
            property,
            object,
        } = self;
        write!(f, "{subject} {property} {object}")
    }
}
