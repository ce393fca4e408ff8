//! The triples that a layering stands for, by going over lists of plain numbers.
use std::alloc::{AllocError, Global};

/// The list, and for each triple `s p o` of it the turned one `o q s` where it is not among them yet: `q` is
/// the inverse of `p`.
pub(crate) fn with_inverse(
    heap: Global,
    list: &[(u32, u32, u32)],
    property: u32,
    inverse: u32,
) -> Result<Vec<(u32, u32, u32)>, AllocError> {
    let mut all: Vec<(u32, u32, u32)> = list.iter().copied().collect(heap)?;
    for (subject, named, object) in list.iter().copied() {
        let turned = (object, inverse, subject);
        if named == property && !all.as_slice().contains(&turned) {
            all.push(turned)?;
        }
    }
    Ok(all)
}

/// The triples of the list that are not gone.
pub(crate) fn without(
    heap: Global,
    list: &[(u32, u32, u32)],
    gone: &[(u32, u32, u32)],
) -> Result<Vec<(u32, u32, u32)>, AllocError> {
    let mut left = Vec::new(heap);
    for triple in list.iter().copied() {
        if !gone.contains(&triple) {
            left.push(triple)?;
        }
    }
    Ok(left)
}
