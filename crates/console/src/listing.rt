//! A query as a person reads it: its alternatives as groups of triples, optional blocks and filters.
use crate::filter::FilterText;
use query::alternative::Alternative;
use query::block::Block;
use std::fmt;
use std::fmt::{Formatter, Write};

/// What stands before each line of a lone alternative, and before the braces of one among several.
const OUTER: &str = "  ";

/// What stands before each line of an alternative among several.
const INNER: &str = "    ";

/// The alternatives of a query, which show as whole lines. A lone one stands between the outer braces;
/// several stand in braces of their own, with `UNION` between.
#[derive(Clone, Copy)]
pub(crate) struct Listing<'a> {
    pub alternatives: &'a [Alternative],
}

impl fmt::Display for Listing<'_> {
    fn fmt<W: Write>(&self, f: &mut Formatter<W>) -> fmt::Result {
        f.write_str("SELECT * WHERE {\n")?;
        match self.alternatives {
            [parts] => {
                let indent = OUTER;
                let group = Group { parts, indent };
                write!(f, "{group}")?
            }
            several => {
                // Kept as a test of `i`: with `split_first`, what a group writes would stand at two places.
                for (i, parts) in several.iter().enumerate() {
                    let indent = INNER;
                    let group = Group { parts, indent };
                    let union = if i == 0 { "" } else { "  UNION\n" };
                    write!(f, "{union}  {{\n{group}  }}\n")?;
                }
            }
        }
        f.write_str("}\n")
    }
}

/// An alternative, which shows as a line for each triple, each optional block and the filter, if it has one,
/// with `indent` before each.
#[derive(Clone, Copy)]
struct Group<'a> {
    parts: &'a Alternative,
    indent: &'static str,
}

impl fmt::Display for Group<'_> {
    fn fmt<W: Write>(&self, f: &mut Formatter<W>) -> fmt::Result {
        let Group { parts, indent } = *self;
        for pattern in &parts.required {
            writeln!(f, "{indent}{pattern}")?;
        }
        for block in &parts.blocks {
            let block = BlockText(block);
            writeln!(f, "{indent}OPTIONAL {{ {block}}}")?;
        }
        if parts.filter.is_empty() {
            return Ok(());
        }
        let filter = FilterText(parts.filter.as_slice());
        writeln!(f, "{indent}{filter}")
    }
}

/// A block, which shows as its triples and its filter, with a space behind each.
#[derive(Clone, Copy)]
struct BlockText<'a>(&'a Block);

impl fmt::Display for BlockText<'_> {
    fn fmt<W: Write>(&self, f: &mut Formatter<W>) -> fmt::Result {
        for pattern in &self.0.triples {
            write!(f, "{pattern} ")?;
        }
        if self.0.filter.is_empty() {
            return Ok(());
        }
        let filter = FilterText(self.0.filter.as_slice());
        write!(f, "{filter} ")
    }
}
