//! Queries at the limits of the whole: the longest, and the totals at their edge and past it.
use crate::tables::outcome;
use query::inspect::Counts;
use query::read;
use std::alloc::{AllocError, Global};
use std::test::Fail;

/// A triple of three terms 1,000,000, the longest that there is.
const LONG_TRIPLE: [u8; 9] = [0x80, 0x89, 0x7A, 0x80, 0x89, 0x7A, 0x80, 0x89, 0x7A];

/// A comparison of two terms 1,000,000, the longest node that there is.
const LONG_NODE: [u8; 7] = [0x01, 0x80, 0x89, 0x7A, 0x80, 0x89, 0x7A];

/// The piece, so many times, behind the bytes.
fn repeat(bytes: &mut Vec<u8>, piece: &[u8], times: usize) -> Result<(), AllocError> {
    for _ in 0..times {
        bytes.extend_from_slice(piece)?;
    }
    Ok(())
}

/// Eight alternatives of four triples and four blocks of a triple each, with eight nodes: all at the limit.
fn longest(heap: Global) -> Result<Vec<u8>, AllocError> {
    let mut bytes = Vec::new(heap);
    bytes.push(8)?;
    for _ in 0..8 {
        bytes.push(4)?;
        repeat(&mut bytes, &LONG_TRIPLE, 4)?;
        bytes.push(4)?;
        for _ in 0..4 {
            bytes.push(1)?;
            repeat(&mut bytes, &LONG_TRIPLE, 1)?;
            bytes.push(0)?;
        }
        bytes.push(8)?;
        repeat(&mut bytes, &LONG_NODE, 8)?;
    }
    Ok(bytes)
}

/// Four alternatives of sixteen triples and sixteen nodes, then one with the bytes of the tail.
fn with_tail(heap: Global, tail: &[u8]) -> Result<Vec<u8>, AllocError> {
    let mut bytes = Vec::new(heap);
    bytes.push(5)?;
    for _ in 0..4 {
        bytes.push(16)?;
        repeat(&mut bytes, &[2, 2, 2], 16)?;
        bytes.extend_from_slice(&[0, 16])?;
        repeat(&mut bytes, &[3, 0], 16)?;
    }
    bytes.extend_from_slice(tail)?;
    Ok(bytes)
}

/// The place behind the last byte that ends a number, where the next number begins.
fn number_start(bytes: &[u8]) -> usize {
    bytes
        .iter()
        .rposition(|byte| *byte < 128)
        .map_or(0, |last| last + 1)
}

#[test]
fn the_longest_query_has_1113_bytes_and_is_written_back(rt: HostRuntime) -> Result<(), Fail> {
    let bytes = longest(rt.alloc())?;
    assert_eq!(rt; bytes.len(), 1113);
    let Ok(query) = read::read(rt.alloc(), bytes.as_slice()) else {
        return Err(Fail::new("the longest query was not read"));
    };
    let counts = Counts {
        alternatives: 8,
        blocks: 32,
        triples: 64,
        nodes: 64,
    };
    assert_eq!(rt; query.counts(), counts);
    let mut out = [7u8; 1200];
    let Ok(length) = query.write(&mut out) else {
        return Err(Fail::new("the longest query was not written"));
    };
    assert_eq!(rt; length, 1113);
    assert!(rt; &out[0..1113] == bytes.as_slice());
    assert_eq!(rt; out[1113], 7);
    Ok(())
}

#[test]
fn every_proper_prefix_of_the_longest_query_ends_early(rt: HostRuntime) -> Result<(), Fail> {
    let bytes = longest(rt.alloc())?;
    for end in 0..bytes.len() {
        let prefix = &bytes.as_slice()[0..end];
        assert_eq!(rt;
            outcome(prefix),
            Err((11, number_start(prefix))),
            "a proper prefix"
        );
    }
    Ok(())
}

#[test]
fn totals_are_refused_at_the_count_that_passes_them(rt: HostRuntime) -> Result<(), Fail> {
    let full = with_tail(rt.alloc(), &[0, 0, 0])?;
    assert_eq!(rt; outcome(full.as_slice()), Ok(()), "64 triples and 64 nodes");
    let required = with_tail(rt.alloc(), &[1, 2, 2, 2, 0, 0])?;
    assert_eq!(rt;
        outcome(required.as_slice()),
        Err((13, 333)),
        "a required triple more"
    );
    let group = with_tail(rt.alloc(), &[0, 0, 1, 3, 0])?;
    assert_eq!(rt;
        outcome(group.as_slice()),
        Err((13, 335)),
        "a node of the group filter more"
    );
    let block = with_tail(rt.alloc(), &[0, 1, 1, 2, 2, 2, 0, 0])?;
    assert_eq!(rt;
        outcome(block.as_slice()),
        Err((13, 335)),
        "a triple of a block more"
    );
    Ok(())
}

#[test]
fn a_block_filter_counts_towards_the_nodes_in_all(rt: HostRuntime) -> Result<(), Fail> {
    let mut bytes = Vec::new(rt.alloc());
    bytes.push(5)?;
    for _ in 0..4 {
        bytes.extend_from_slice(&[0, 0, 16])?;
        repeat(&mut bytes, &[3, 0], 16)?;
    }
    bytes.extend_from_slice(&[0, 1, 1, 2, 2, 2, 1, 3, 0, 0])?;
    assert_eq!(rt; outcome(bytes.as_slice()), Err((13, 147)));
    Ok(())
}
