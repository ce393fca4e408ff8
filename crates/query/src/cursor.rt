//! A place in a byte string that is read.
ghost use Rattle.std.specs.Prelude.{◌+◌, ◌<◌, ◌^◌, length};

/// The bytes of a query that are left to read, and the place at which they begin.
#[derive(Drop)]
pub(crate) struct Cursor<'a> {
    pub(crate) rest: &'a [u8],
    pub(crate) at: usize,
    ghost fits: { at + length rest.now < 2 ^ 64 },
}
