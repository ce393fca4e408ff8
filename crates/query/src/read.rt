//! Reading a query from its bytes.
ghost use Rattle.query.specs.Reads.{Checked, Recognised, Answered, Recovered};

use crate::builder::Builder;
use crate::error::ReadError;
use crate::kept::Kept;
use crate::query::Query;
use crate::scan::scan;
use refusal::rejection::Rejection;
use std::alloc::Global;

/// Whether the byte string is a query, or the refusal with its place. Allocates nothing.
pub fn check(bytes: &[u8]) -> Result<(), Rejection>
    ensures answer { Checked bytes.now result }
    ensures written { Recognised bytes.now result }
{
    let mut builder = Builder::new(None);
    scan(bytes, &mut builder)
}

/// The query that the byte string is, or the refusal with its place. Every refusal is decided before any
/// memory is taken, so only a byte string that is a query can meet want of memory.
pub fn read(heap: Global, bytes: &[u8]) -> Result<Query, ReadError>
    ensures answer { Answered bytes.now result }
    ensures written { Recovered bytes.now result }
{
    check(bytes)?;
    let mut builder = Builder::new(Some(Kept::new(heap)));
    scan(bytes, &mut builder)?;
    builder.finish(bytes.len()).ok_or(ReadError::Memory)
}
