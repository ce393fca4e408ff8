//! An entry of a property store's directory.

/// A property, and the place of its first pair in the list of all pairs.
#[derive(Clone, Copy, Debug, PartialEq, Eq)]
pub struct DirectoryEntry {
    pub property: u32,
    pub first: u32,
}
