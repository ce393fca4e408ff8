//! How many triples, or how many filter nodes, a query has.
ghost use Rattle.std.specs.Prelude.{◌≡◌, ◌+◌, ◌≤◌};
ghost use Rattle.query.specs.Grammar.{room};
ghost use Rattle.query.specs.Limits.{most_in_all};

/// The most triples of one part, and the most nodes of one filter.
const MOST_IN_PART: u32 = 16;

/// The most triples, and apart from them the most filter nodes, of a whole query.
const MOST_IN_ALL: u32 = 64;

/// How many triples, or how many nodes, were counted.
#[derive(Clone, Copy)]
pub(crate) struct Tally {
    pub(crate) total: u32,
    ghost few: { total ≤ most_in_all },
}

impl Tally {
    /// None were counted.
    pub(crate) fn none() -> Tally
        ensures { result.total ≡ 0 }
    {
        Tally { total: 0 }
    }

    /// How many a part may have now.
    pub(crate) fn room(self) -> u32
        ensures { result ≡ room self.total }
    {
        MOST_IN_PART.min(MOST_IN_ALL - self.total)
    }

    /// Counts those of a part.
    pub(crate) fn add(&mut self, count: u32)
        requires { count ≤ room self.old.total }
        ensures { self.new.total ≡ self.old.total + count }
    {
        self.total += count;
    }
}
