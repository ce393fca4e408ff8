//! Reading the triples and nodes of a query.
ghost use Rattle.query.specs.Scanning.{ahead, Reads};
ghost use Rattle.query.specs.Grammar as grammar;

use crate::cursor::Cursor;
use crate::kind::Kind;
use crate::node::Node;
use crate::pattern::TriplePattern;
use refusal::rejection::Rejection;

impl<'a> Cursor<'a> {
    /// A triple pattern.
    pub(crate) fn triple(&mut self) -> Result<TriplePattern, Rejection>
        ensures { Reads (ahead grammar.triple self.old) result self.new }
    {
        let subject = self.place()?;
        let property = self.place()?;
        let object = self.place()?;
        Ok(TriplePattern {
            subject,
            property,
            object,
        })
    }

    /// What follows the kind of node number `number`.
    fn operands(&mut self, number: u32, kind: Kind) -> Result<Node, Rejection>
        ensures { Reads (ahead (grammar.operands number kind) self.old) result self.new }
    {
        match kind {
            Kind::Equal => Ok(Node::Equal(self.place()?, self.place()?)),
            Kind::Less => Ok(Node::Less(self.place()?, self.place()?)),
            Kind::Bound => Ok(Node::Bound(self.variable()?)),
            Kind::Not => Ok(Node::Not(self.lower(number)?)),
            Kind::And => Ok(Node::And(self.lower(number)?, self.lower(number)?)),
            Kind::Or => Ok(Node::Or(self.lower(number)?, self.lower(number)?)),
        }
    }

    /// Node number `number` of a filter.
    pub(crate) fn node(&mut self, number: u32) -> Result<Node, Rejection>
        ensures { Reads (ahead (grammar.node number) self.old) result self.new }
    {
        let kind = self.kind()?;
        self.operands(number, kind)
    }
}
