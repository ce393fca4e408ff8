//! What is read is written back, and a buffer that is too short stays as it was.
use crate::cases::CASES;
use crate::damaged::GOOD;
use query::query::Query;
use query::read;
use std::alloc::Global;
use std::test::Fail;

/// Whether writing the query into a buffer of 64 bytes gives its own bytes, and nothing behind them.
fn gives_back(query: &Query, bytes: &[u8]) -> bool {
    let mut out = [0xEEu8; 64];
    query.write(&mut out).is_ok_and(|length| {
        out.get(0..length).is_some_and(|written| written == bytes) && ends_clean(&out, length)
    })
}

/// Whether the bytes from the place on are as the buffer was.
fn ends_clean(out: &[u8], from: usize) -> bool {
    out.iter().skip(from).all(|byte| *byte == 0xEE)
}

/// Whether the bytes, which are a query, are written back.
fn holds(heap: Global, bytes: &[u8]) -> bool {
    match read::read(heap, bytes) {
        Ok(query) => query.size() == bytes.len() && gives_back(&query, bytes),
        Err(_) => false,
    }
}

#[test]
fn accepted_bytes_are_written_back(rt: HostRuntime) {
    for case in CASES.iter() {
        if case.expected.is_ok() && case.bytes.len() <= 64 {
            assert!(rt; holds(rt.alloc(), case.bytes), "{}", case.name);
        }
    }
}

#[test]
fn one_byte_too_few_is_refused_by_34_and_stays(rt: HostRuntime) -> Result<(), Fail> {
    let Ok(query) = read::read(rt.alloc(), &GOOD) else {
        return Err(Fail::new("a good query was not read"));
    };
    let mut out = [0xEEu8; 15];
    let Err(rejection) = query.write(&mut out) else {
        return Err(Fail::new("sixteen bytes were written into fifteen"));
    };
    assert_eq!(rt; <(u32, usize)>::from(rejection), (34, 0));
    assert!(rt; ends_clean(&out, 0));
    Ok(())
}
