//! Lists at their longest, and one longer.
use std::alloc::{AllocError, Global};
use std::test::Fail;
use store_cases::numbers::{said, selector_of, triple_of};
use triples::entry::DirectoryEntry;
use triples::pair::Pair;
use triples::position::Position;
use triples::property_store::{PropertyStore, PropertyTable};
use triples::row_store::RowStore;
use triples::store::Store;
use triples::triple::{ORIGIN, Triple};

/// Entries of the properties from 1 on, all empty.
fn empty_entries(heap: Global, count: u32) -> Result<Vec<DirectoryEntry>, AllocError> {
    (1..=count)
        .map(|property| DirectoryEntry { property, first: 0 })
        .collect(heap)
}

/// Triples of the subjects from 1 on.
fn ascending_rows(heap: Global, count: u32) -> Result<Vec<Triple>, AllocError> {
    (1..=count)
        .map(|subject| Triple {
            subject,
            property: 1,
            object: 1,
        })
        .collect(heap)
}

/// Pairs of the subjects from 1 on.
fn ascending_pairs(heap: Global, count: u32) -> Result<Vec<Pair>, AllocError> {
    (1..=count)
        .map(|subject| Pair { subject, object: 1 })
        .collect(heap)
}

#[test]
fn a_million_rows_are_taken_and_one_more_is_refused(rt: HostRuntime) -> Result<(), Fail> {
    let Ok(store) = RowStore::load(1_000_000, ascending_rows(rt.alloc(), 1_000_000)?) else {
        return Err(Fail::new("a million rows were refused"));
    };
    assert_eq!(rt; store.len(), 1_000_000);
    let Err(declined) = RowStore::load(1, vec![in rt.alloc(); ORIGIN; 1_000_001]?) else {
        return Err(Fail::new("a million and one rows were taken"));
    };
    assert_eq!(rt; said(declined.rejection), (1, 0));
    assert_eq!(rt; declined.given.len(), 1_000_001);
    Ok(())
}

#[test]
fn a_million_equal_rows_are_within_the_limit_but_do_not_ascend(
    rt: HostRuntime,
) -> Result<(), Fail> {
    let row = Triple {
        subject: 1,
        property: 1,
        object: 1,
    };
    let Err(declined) = RowStore::load(1, vec![in rt.alloc(); row; 1_000_000]?) else {
        return Err(Fail::new("equal rows were taken"));
    };
    assert_eq!(rt; declined.rejection.refusal.number(), 4);
    assert!(rt; declined.rejection.place > 0);
    assert_eq!(rt; declined.given.len(), 1_000_000);
    Ok(())
}

#[test]
fn a_million_pairs_are_within_the_limit_and_one_more_is_not(rt: HostRuntime) -> Result<(), Fail> {
    let bad = Pair {
        subject: 0,
        object: 0,
    };
    for (count, number) in [(1_000_000, 3), (1_000_001, 1)] {
        let directory = empty_entries(rt.alloc(), 1)?;
        let pairs = vec![in rt.alloc(); bad; count]?;
        let Err(declined) = PropertyStore::load(1, PropertyTable { directory, pairs }) else {
            return Err(Fail::new("bad pairs were taken"));
        };
        assert_eq!(rt; said(declined.rejection), (number, 0));
        assert_eq!(rt; declined.given.pairs.len(), count);
    }
    Ok(())
}

#[test]
fn a_million_pairs_are_taken_under_one_entry_and_under_4096(rt: HostRuntime) -> Result<(), Fail> {
    let every = selector_of((0, 0, 0));
    for entries in [1, 4096] {
        let directory = empty_entries(rt.alloc(), entries)?;
        let pairs = ascending_pairs(rt.alloc(), 1_000_000)?;
        let Ok(mut store) = PropertyStore::load(1_000_000, PropertyTable { directory, pairs })
        else {
            return Err(Fail::new("a million pairs were refused"));
        };
        // all entries begin at 0, so the last one has the pairs
        let last = triple_of((1_000_000, entries, 1));
        assert_eq!(rt; store.len(), 1_000_000);
        assert_eq!(rt; store.seek(every, ORIGIN), Some(triple_of((1, entries, 1))));
        assert_eq!(rt; store.seek(every, last), Some(last));
        assert_eq!(rt; store.leap(Position::Subject, every, 1_000_001), None);
    }
    Ok(())
}

#[test]
fn a_directory_of_4096_is_taken_and_one_of_4097_is_refused(rt: HostRuntime) -> Result<(), Fail> {
    let longest = PropertyTable {
        directory: empty_entries(rt.alloc(), 4096)?,
        pairs: Vec::new(rt.alloc()),
    };
    let Ok(store) = PropertyStore::load(1_000_000, longest) else {
        return Err(Fail::new("4,096 entries were refused"));
    };
    assert_eq!(rt; (store.entries(), store.len()), (4096, 0));
    let longer = PropertyTable {
        directory: empty_entries(rt.alloc(), 4097)?,
        pairs: Vec::new(rt.alloc()),
    };
    let Err(declined) = PropertyStore::load(1_000_000, longer) else {
        return Err(Fail::new("4,097 entries were taken"));
    };
    assert_eq!(rt; said(declined.rejection), (1, 0));
    assert_eq!(rt; declined.given.directory.len(), 4097);
    Ok(())
}
