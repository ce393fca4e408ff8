//! What stands at a place under a row.
ghost use Rattle.std.specs.Prelude.{◌≡◌};
ghost use Rattle.filter.specs.Rows.{number_at};

use query::place::Place;

/// What stands in a row for a variable that has no value.
pub(crate) const NONE: u32 = 0;

/// What stands at the place under the row: the variable's value, or the term.
pub(crate) fn number_at(place: Place, row: &[u32; 16]) -> u32
    ensures { result ≡ number_at row.now place }
{
    match place {
        Place::Variable(variable) => row.get(variable as usize).copied().unwrap_or(NONE),
        Place::Term(term) => term,
    }
}
