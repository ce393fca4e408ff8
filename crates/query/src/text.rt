//! Parts of a query, and how much one holds, as text.
ghost use Rattle.std.specs.Prelude.{Some};
ghost use Rattle.query.specs.Texts.{counts_text, place_text, triple_text};

use crate::inspect::Counts;
use crate::pattern::TriplePattern;
use crate::place::Place;
use std::fmt;
use std::fmt::{Formatter, Write};

/// A place shows as `?v0` to `?v15` for a variable, or as the number of a term.
impl fmt::Display for Place {
    ghost output = { λ p. Some (place_text p) };

    fn fmt<W: Write>(&self, f: &mut Formatter<W>) -> fmt::Result {
        match self {
            Place::Variable(variable) => write!(f, "?v{variable}"),
            Place::Term(term) => write!(f, "{term}"),
        }
    }
}

/// A triple pattern shows as its three places and a full stop.
impl fmt::Display for TriplePattern {
    ghost output = { λ t. Some (triple_text t) };

    fn fmt<W: Write>(&self, f: &mut Formatter<W>) -> fmt::Result {
        let TriplePattern {
            subject,
            property,
            object,
        } = self;
        write!(f, "{subject} {property} {object} .")
    }
}

/// Counts show as each number with what it counts.
impl fmt::Display for Counts {
    ghost output = { λ c. Some (counts_text c) };

    fn fmt<W: Write>(&self, f: &mut Formatter<W>) -> fmt::Result {
        let Counts {
            alternatives,
            blocks,
            triples,
            nodes,
        } = self;
        write!(
            f,
            "{alternatives} alternatives, {blocks} blocks, {triples} triples, {nodes} nodes"
        )
    }
}
