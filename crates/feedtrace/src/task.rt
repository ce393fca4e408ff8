//! What the console does with tables, layers, what they hold, and the filters of a query.
use crate::part::Part;
use crate::verb::Verb;
use triples::position::Position;
use triples::selector::Selector;
use triples::triple::Triple;

// Kept as an enum: a line is read whole before its task is carried out, and its contract says what it asks.
/// A task about stores, catalogues, and the filters of a query.
#[derive(Clone, Copy)]
pub enum Task {
    /// Begins a row store of that top.
    RowStore(u32),
    /// Begins a property store of that top.
    PropertyStore(u32),
    /// The inline catalogue becomes the current one.
    InlineCatalogue,
    /// Begins a listed catalogue.
    ListedCatalogue,
    /// Begins a table whose command has another form than the word's: it is an error at its end.
    MalformedTable(Verb),
    /// Puts an inverse layer of the two properties over the current store.
    Inverse(u32, u32),
    /// Puts a withdrawn layer over the current store.
    Withdrawn,
    /// Withdraws the triple.
    Withdraw(Triple),
    /// Restores the triple.
    Restore(Triple),
    /// Asks for the least triple that matches and is not below the start.
    Seek(Selector, Triple),
    /// Asks for the least number from the bound on at the position of a triple that matches.
    Leap(Position, Selector, u32),
    /// Asks for kind and value of a number.
    Lookup(u32),
    /// Lists the triples that match.
    Scan(Selector),
    /// Lists the terms that the term reaches.
    Trace(u32),
    /// Asks for the truth of the part's filter on the row: a value for each variable, 0 where it has none.
    Filter(Part, [u32; 16]),
}
