//! What is printed for an answer.
ghost use Rattle.console.specs.Answers.{reply_text};

use crate::answer::Answer;
use crate::listing::Listing;
use query::alternative::Alternative;
use std::fmt;
use std::fmt::{Formatter, Write};

/// An answer with the alternatives of the current query, which shows as whole lines: the listing for `Shown`,
/// and one line for any other answer.
#[derive(Clone, Copy)]
pub struct Reply<'a> {
    pub answer: &'a Answer,
    pub alternatives: &'a [Alternative],
}

impl fmt::Display for Reply<'_> {
    ghost output = { λ r. reply_text r.answer.now };

    fn fmt<W: Write>(&self, f: &mut Formatter<W>) -> fmt::Result {
        let alternatives = self.alternatives;
        match self.answer {
            Answer::Shown => fmt::Display::fmt(&Listing { alternatives }, f),
            answer => writeln!(f, "{answer}"),
        }
    }
}
