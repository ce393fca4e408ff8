//! Reading the parts of a query into a builder.
ghost use Rattle.std.specs.Prelude.{◌≡◌, ◌+◌, [], IfOk};
ghost use Rattle.query.specs.Readers.{count};
ghost use Rattle.query.specs.Scanning.{TookTriples, TookFilter, TookBlock, TookBlocks, TookAlternative};
ghost use Rattle.query.specs.Scanning.{TookAlternatives, Holds, Scanned, ahead, Reads};
ghost use Rattle.query.specs.Drafts.{finished};
ghost use Rattle.query.specs.Grammar.{room, unused};

use crate::builder::{Builder, MOST_ALTERNATIVES, MOST_BLOCKS};
use crate::cursor::Cursor;
use crate::tally::Tally;
use refusal::refusal::Refusal;
use refusal::rejection::Rejection;

impl<'a> Cursor<'a> {
    /// How many a part has, at least `least` and no more than there is room for; the tally counts them.
    fn tallied(&mut self, tally: &mut Tally, least: u32) -> Result<u32, Rejection>
        ensures answer { Reads (ahead (count least (room tally.old.total)) self.old) result self.new }
        ensures counted { IfOk result (λ n. tally.new.total ≡ tally.old.total + n) }
    {
        let count = self.count(least, tally.room())?;
        tally.add(count);
        Ok(count)
    }

    /// At least `least` triples of a part.
    fn triples(&mut self, builder: &mut Builder, least: u32) -> Result<(), Rejection>
        ensures { TookTriples least builder.old self.old result builder.new self.new }
    {
        let count = self.tallied(&mut builder.triples, least)?;
        // Kept as a loop: one function for the four lists, given a closure, proves and is 35 lines longer.
        for _number in 0..count {
            let triple = self.triple()?;
            builder.triple(triple);
        }
        Ok(())
    }

    /// The nodes of a filter.
    fn filter(&mut self, builder: &mut Builder) -> Result<(), Rejection>
        ensures { TookFilter builder.old self.old result builder.new self.new }
    {
        let count = self.tallied(&mut builder.nodes, 0)?;
        // Kept as a loop: one function for the four lists, given a closure, proves and is 35 lines longer.
        for number in 0..count {
            let node = self.node(number)?;
            builder.node(node);
        }
        Ok(())
    }

    /// A block of an alternative.
    fn block(&mut self, builder: &mut Builder) -> Result<(), Rejection>
        ensures { TookBlock builder.old self.old result builder.new self.new }
    {
        self.triples(builder, 1)?;
        self.filter(builder)?;
        builder.end_block();
        Ok(())
    }

    /// The blocks of an alternative.
    fn blocks(&mut self, builder: &mut Builder) -> Result<(), Rejection>
        ensures { TookBlocks builder.old self.old result builder.new self.new }
    {
        let count = self.count(0, MOST_BLOCKS)?;
        // Kept as a loop: one function for the four lists, given a closure, proves and is 35 lines longer.
        for _number in 0..count {
            self.block(builder)?;
        }
        Ok(())
    }

    /// An alternative.
    fn alternative(&mut self, builder: &mut Builder) -> Result<(), Rejection>
        ensures { TookAlternative builder.old self.old result builder.new self.new }
    {
        self.triples(builder, 0)?;
        builder.end_required();
        self.blocks(builder)?;
        self.filter(builder)?;
        builder.end_alternative();
        Ok(())
    }

    /// The alternatives of a query.
    fn alternatives(&mut self, builder: &mut Builder) -> Result<(), Rejection>
        ensures { TookAlternatives builder.old self.old result builder.new self.new }
    {
        let count = self.count(1, MOST_ALTERNATIVES)?;
        // Kept as a loop: one function for the four lists, given a closure, proves and is 35 lines longer.
        for _number in 0..count {
            self.alternative(builder)?;
        }
        Ok(())
    }
}

/// Reads the whole byte string into the builder, or says why it is no query.
pub(crate) fn scan(bytes: &[u8], builder: &mut Builder) -> Result<(), Rejection>
    ensures { Holds builder.old (finished [] [] []) unused → Scanned bytes.now result builder.new }
{
    let mut cursor = Cursor { rest: bytes, at: 0 };
    cursor.alternatives(builder)?;
    if !cursor.rest.is_empty() {
        return Err(Refusal::BytesLeft.at(cursor.at));
    }
    if builder.shared {
        return Err(Refusal::SharedByBlocks.at(cursor.at));
    }
    Ok(())
}
