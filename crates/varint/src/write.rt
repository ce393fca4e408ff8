//! Writing a number at a place of a buffer.
ghost use Rattle.std.specs.Prelude.{◌≡◌, length};
ghost use Rattle.varint.specs.Calls.{Written};
ghost use Rattle.varint.specs.Encode.{encode};

use crate::number::{BITS, GROUP, MORE, NoRoom};

/// Writes `n` at the place `at` and answers how many bytes it took; `NoRoom`, and the buffer as it was,
/// where it does not fit behind `at`. What stands before and behind stays.
pub fn write(n: u32, out: &mut [u8], at: usize) -> Result<usize, NoRoom>
    ensures { Written n at out.old result out.new }
{
    let length = length_of(n);
    if out.len().saturating_sub(at) < length {
        return Err(NoRoom);
    }
    put(n, &mut out[at..at + length]);
    Ok(length)
}

/// Writes `n` into as many bytes as it takes.
fn put(n: u32, out: &mut [u8])
    requires { length out.old ≡ length (encode n) }
    ensures { out.new ≡ encode n }
{
    let mut rest = n;
    for byte in out.iter_mut() {
        *byte = if rest < GROUP {
            rest as u8
        } else {
            MORE + (rest % GROUP) as u8
        };
        rest /= GROUP;
    }
}

/// How many bytes `n` takes: one for each group of its bits, and one for 0.
fn length_of(n: u32) -> usize
    ensures { result ≡ length (encode n) }
{
    (n.max(1).ilog2() / BITS + 1) as usize
}
