//! Filters as text. A filter whose nodes are each named once, but for the last, is written as the
//! expression of its last node; any other lists its nodes by number, so that no node is written twice.
ghost use Rattle.std.specs.Prelude.{◌≤◌};

use query::node::Node;
use std::fmt;
use std::fmt::{Formatter, Write};

/// A filter's nodes, which show as `FILTER` and an expression; no nodes show as nothing.
#[derive(Clone, Copy)]
pub(crate) struct FilterText<'a>(pub &'a [Node]);

impl fmt::Display for FilterText<'_> {
    fn fmt<W: Write>(&self, f: &mut Formatter<W>) -> fmt::Result {
        let nodes = self.0;
        let expression = Expression(nodes);
        match nodes {
            [] => Ok(()),
            nodes if !is_tree(nodes) => write!(f, "FILTER {}", Numbered(nodes)),
            [.., Node::Bound(_) | Node::Not(_)] => write!(f, "FILTER ({expression})"),
            _ => write!(f, "FILTER {expression}"),
        }
    }
}

/// Whether each node but the last is named exactly once.
fn is_tree(nodes: &[Node]) -> bool {
    let last = nodes.len().saturating_sub(1);
    (0..last).all(|number| uses(nodes, number) == 1)
}

/// How often the nodes name the node `number`.
fn uses(nodes: &[Node], number: usize) -> usize {
    nodes.iter().map(|node| uses_in(*node, number)).sum()
}

/// How often the node names the node `number`.
fn uses_in(node: Node, number: usize) -> usize
    ensures { result ≤ 2 }
{
    match node {
        Node::Not(a) => usize::from(a as usize == number),
        Node::And(a, b) | Node::Or(a, b) => usize::from(a as usize == number)
            + usize::from(b as usize == number),
        _ => 0,
    }
}

/// Nodes that show as the expression of the last, with the nodes that it names in their places.
#[derive(Clone, Copy)]
struct Expression<'a>(&'a [Node]);

impl fmt::Display for Expression<'_> {
    fn fmt<W: Write>(&self, f: &mut Formatter<W>) -> fmt::Result {
        put_expression(self.0, f)
    }
}

// Kept as functions: where `write!` calls a `Display` that leads back to its caller, the proof doesn't close.
/// Writes the expression of the last node, with the nodes that it names in their places.
#[cycle(expression)]
fn put_expression<W: Write>(nodes: &[Node], f: &mut Formatter<W>) -> fmt::Result {
    let Some((node, below)) = nodes.split_last() else {
        return Ok(());
    };
    match *node {
        Node::Not(a) => {
            f.write_char('!')?;
            put_operand(below, a, f)
        }
        Node::And(a, b) => put_both(below, a, " && ", b, f),
        Node::Or(a, b) => put_both(below, a, " || ", b, f),
        node => write!(f, "{}", Named(node)),
    }
}

/// Writes the expressions of two nodes in brackets, with the sign between.
#[cycle(expression)]
fn put_both<W: Write>(
    below: &[Node],
    a: u32,
    sign: &str,
    b: u32,
    f: &mut Formatter<W>,
) -> fmt::Result {
    f.write_char('(')?;
    put_operand(below, a, f)?;
    f.write_str(sign)?;
    put_operand(below, b, f)?;
    f.write_char(')')
}

/// Writes the expression of the node `number`, or its name where it is not among the nodes below.
#[cycle(expression)]
fn put_operand<W: Write>(below: &[Node], number: u32, f: &mut Formatter<W>) -> fmt::Result {
    match below.get(..=number as usize) {
        Some(nodes) => put_expression(nodes, f),
        None => write!(f, "n{number}"),
    }
}

/// Nodes that show as the name of the last, and then what each name stands for.
#[derive(Clone, Copy)]
struct Numbered<'a>(&'a [Node]);

impl fmt::Display for Numbered<'_> {
    fn fmt<W: Write>(&self, f: &mut Formatter<W>) -> fmt::Result {
        let last = self.0.len().saturating_sub(1);
        write!(f, "(n{last}) WHERE ")?;
        // Kept as a test of `i`: with `split_first`, what is written for an item would stand at two places.
        for (i, node) in self.0.iter().enumerate() {
            let node = Named(*node);
            f.write_str(if i == 0 { "" } else { ", " })?;
            write!(f, "n{i}: {node}")?;
        }
        Ok(())
    }
}

/// A node, which shows with the nodes that it names by their numbers.
#[derive(Clone, Copy)]
struct Named(Node);

impl fmt::Display for Named {
    fn fmt<W: Write>(&self, f: &mut Formatter<W>) -> fmt::Result {
        match self.0 {
            Node::Equal(a, b) => write!(f, "({a} = {b})"),
            Node::Less(a, b) => write!(f, "({a} < {b})"),
            Node::Bound(variable) => write!(f, "BOUND(?v{variable})"),
            Node::Not(a) => write!(f, "!n{a}"),
            Node::And(a, b) => write!(f, "(n{a} && n{b})"),
            Node::Or(a, b) => write!(f, "(n{a} || n{b})"),
        }
    }
}
