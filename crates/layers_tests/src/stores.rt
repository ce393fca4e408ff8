//! The stores that the layers are laid over.
use std::alloc::Global;
use std::test::Fail;
use store_cases::lists::{DIRECTORY, PAIRS, rows, table};
use triples::property_store::PropertyStore;
use triples::row_store::RowStore;

/// The row store of these triples under top 5.
pub(crate) fn row_store(heap: Global, list: &[(u32, u32, u32)]) -> Result<RowStore, Fail> {
    RowStore::load(5, rows(heap, list)?).map_err(|_| Fail::new("the row store was refused"))
}

/// The property store of the six triples under top 5.
pub(crate) fn property_store(heap: Global) -> Result<PropertyStore, Fail> {
    PropertyStore::load(5, table(heap, &DIRECTORY, &PAIRS)?).map_err(|_| Fail::new(
        "the property store was refused",
    ))
}
