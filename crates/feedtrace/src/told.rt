//! What a task came to, as text.
ghost use Rattle.std.specs.Prelude.{ℕ, List, Some};
ghost use Rattle.std.specs.Fmt.{WritesOnOk};
ghost use Rattle.feedtrace.specs.Outcomes.{ShowsAs, listing_text, outcome_text};

use crate::outcome::Outcome;
use std::fmt;
use std::fmt::{Display, Formatter, Write};

impl fmt::Display for Outcome {
    ghost output = { λ o. Some (outcome_text o) };

    fn fmt<W: Write>(&self, f: &mut Formatter<W>) -> fmt::Result {
        match self {
            Outcome::Rows { top, triples } => write!(f, "row store: top {top}, {triples} triples"),
            Outcome::Properties {
                top,
                properties,
                pairs,
            } => {
                write!(
                    f,
                    "property store: top {top}, {properties} properties, {pairs} pairs"
                )
            }
            Outcome::Inline => f.write_str("catalogue: inline"),
            Outcome::Listed(records) => write!(f, "catalogue: {records} records"),
            Outcome::Inverse { property, inverse } => write!(f, "inverse: {property} {inverse}"),
            Outcome::Layered => f.write_str("withdrawn: none"),
            Outcome::Withdrawn(count) => write!(f, "withdrawn: {count}"),
            Outcome::Found(Some(triple)) => write!(f, "triple {triple}"),
            Outcome::Number(Some(number)) => write!(f, "value {number}"),
            Outcome::Found(None) | Outcome::Number(None) => f.write_str("none"),
            Outcome::Entry { kind, value } => write!(f, "{kind} {value}"),
            Outcome::Triples(triples) => put_lines(triples.as_slice(), "triples", f),
            Outcome::Terms(terms) => put_lines(terms.as_slice(), "terms reached", f),
            Outcome::Truth(truth) => write!(f, "{truth}"),
        }
    }
}

/// Writes each item on a line of its own, and then how many there are and of what.
fn put_lines<T: Display, W: Write>(items: &[T], what: &str, f: &mut Formatter<W>) -> fmt::Result
    ensures { (text : T → List ℕ) → ShowsAs T.output text
        → WritesOnOk W.write_str_gives f.old result (listing_text text items.now what.now) f.new }
{
    for item in items {
        writeln!(f, "{item}")?;
    }
    let count = items.len();
    write!(f, "{count} {what}")
}
