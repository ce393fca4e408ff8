//! What can be current: a table with the layers over it, and a catalogue.
ghost use Rattle.std.specs.Prelude.{◌≡◌};
ghost use Rattle.feedtrace.specs.Layerings.{bare};

use crate::either::Either;
use catalogue::inline::Inline;
use catalogue::listed::Listed;
use layers::inverse::Inverse;
use layers::withdrawn::Withdrawn;
use triples::property_store::PropertyStore;
use triples::row_store::RowStore;

/// A row store or a property store.
pub(crate) type Table = Either<RowStore, PropertyStore>;

/// A table, or an inverse layer over one.
pub(crate) type Inverted = Either<Table, Inverse<Table>>;

/// A table, perhaps under an inverse layer, or a withdrawn layer over that.
pub(crate) type Layered = Either<Inverted, Withdrawn<Inverted>>;

/// The inline catalogue or a listed one.
pub(crate) type Book = Either<Inline, Listed>;

/// The table without layers.
pub(crate) fn bare(table: Table) -> Layered
    ensures { result ≡ bare table }
{
    Either::Left(Either::Left(table))
}
