//! Stores in memory, which are set to fail, and over real files.
use crate::asserts::alike;
use fz_base::{
    Failed, FileSource, FileStore, MemStore, Source, Store, StoreEvent, Write, amend_at,
};
use std::fs;
use std::test::Fail;

// Whether the writes are these, one after another.
fn are(writes: &[Write], expected: &[(u64, &[u8])]) -> bool {
    if writes.len() != expected.len() {
        return false;
    }
    for (write, (at, bytes)) in writes.iter().zip(expected) {
        if write.at() != *at || write.bytes() != *bytes {
            return false;
        }
    }
    true
}

#[test]
fn mem_store_is_written_in_place(rt: HostRuntime) -> Result<(), Fail> {
    let bytes = b"SIMPLE".to_vec(rt.alloc())?;
    let mut store = MemStore::new(rt.alloc(), bytes, Vec::new(rt.alloc()), 0);
    let before = store.attach("any")?;
    store.amend(4, b"XYZ")?;
    amend_at(&mut store, 0, b"T")?;
    let unsettled = store.settled();
    store.settle()?;
    alike(&rt, (unsettled, store.settled()), (0, 2));
    let mut into = [0; 3];
    store.read_at(2, &mut into)?;
    assert!(rt; are(store.writes(), &[(4, b"XYZ"), (0, b"T")]));
    alike(
        &rt,
        (into, store.contents(), store.reads()),
        (*b"MPX", b"TIMPXYZ".as_slice(), [(2, 3)].as_slice()),
    );
    let after = store.attach("any")?;
    alike(&rt, (before, after), (6, 7));
    store.amend(7, b"!")?;
    alike(&rt, store.contents(), b"TIMPXYZ!".as_slice());
    let order = [
        StoreEvent::Amend,
        StoreEvent::Amend,
        StoreEvent::Settle,
        StoreEvent::Amend,
    ];
    alike(&rt, store.events(), order.as_slice());
    alike(&rt, store.settled(), 2);
    Ok(())
}

const FAULT: Result<(), Failed> = Err(Failed::Fault);

/// What the cases below write.
const FIRST: (u64, &[u8]) = (4, b"XYZ");

const SECOND: (u64, &[u8]) = (0, b"T");

#[test]
fn mem_store_fails_where_it_is_told_to(rt: HostRuntime) -> Result<(), Fail> {
    static CASES: [(
        u32,
        u32,
        [Result<(), Failed>; 3],
        &[u8],
        &[(u64, &[u8])],
        (u64, u64),
    ); 7] = [
        (
            9,
            0,
            [Ok(()), Ok(()), Ok(())],
            b"TIMPXYZ",
            &[FIRST, SECOND],
            (0, 0),
        ),
        (
            1,
            7,
            [FAULT, Ok(()), Ok(())],
            b"TIMPXYZ",
            &[FIRST, SECOND],
            (1, 0),
        ),
        (2, 0, [Ok(()), FAULT, Ok(())], b"TIMPLE", &[SECOND], (0, 1)),
        (2, 1, [Ok(()), FAULT, Ok(())], b"TIMPXE", &[SECOND], (0, 1)),
        (2, 7, [Ok(()), FAULT, Ok(())], b"TIMPXYZ", &[SECOND], (0, 1)),
        (3, 0, [Ok(()), Ok(()), FAULT], b"SIMPXYZ", &[FIRST], (0, 1)),
        (3, 7, [Ok(()), Ok(()), FAULT], b"TIMPXYZ", &[FIRST], (0, 1)),
    ];
    for &(failing, keep, answers, contents, writes, faults) in &CASES {
        let bytes = b"SIMPLE".to_vec(rt.alloc())?;
        let mut store = MemStore::new(rt.alloc(), bytes, vec![in rt.alloc(); failing]?, keep);
        let length = store.attach("any")?;
        assert!(rt; length == 6);
        let read = store.read_at(1, &mut [0; 2]);
        let amended = store.amend(4, b"XYZ");
        let found = [read, amended, store.amend(0, b"T")];
        alike(
            &rt,
            (found, store.contents(), are(store.writes(), writes)),
            (answers, contents, true),
        );
        alike(&rt, (store.faults(), store.write_faults()), faults);
        alike(&rt, store.attach("any")?, contents.len() as u64);
    }
    let mut store = MemStore::new(rt.alloc(), Vec::new(rt.alloc()), vec![in rt.alloc(); 0]?, 0);
    alike(&rt, store.attach("any"), Err(Failed::Fault));
    alike(&rt, (store.faults(), store.write_faults()), (1, 0));
    Ok(())
}

#[test]
fn file_store_is_written_in_place(rt: HostRuntime) -> Result<(), Fail> {
    let mut store = FileStore::new(rt);
    // no such file
    alike(&rt, store.attach("store.fits"), Err(Failed::Fault));
    // it cannot be written
    alike(&rt, store.attach("."), Err(Failed::Fault));
    fs::write(&rt, "store.fits", b"SIMPLE".as_slice())?;
    let length = store.attach("store.fits")?;
    assert!(rt; length == 6);
    store.amend(2, b"GN")?;
    store.amend(5, b"XYZ")?;
    store.settle()?;
    let mut into = [0; 4];
    store.read_at(4, &mut into)?;
    alike(&rt, into, *b"LXYZ");
    store.amend(8, b"!")?;
    alike(
        &rt,
        fs::read(&rt, "store.fits")?.as_slice(),
        b"SIGNLXYZ!".as_slice(),
    );
    Ok(())
}

#[test]
fn file_store_is_locked(rt: HostRuntime) -> Result<(), Fail> {
    fs::write(&rt, "locked.fits", b"SIMPLE".as_slice())?;
    let mut store = FileStore::new(rt);
    store.attach("locked.fits")?;
    let mut other = FileStore::new(rt);
    // another store has it
    alike(&rt, other.attach("locked.fits"), Err(Failed::Fault));
    // it can be read
    let length = FileSource::new(rt).attach("locked.fits")?;
    assert!(rt; length == 6);
    drop(store);
    let length = other.attach("locked.fits")?;
    assert!(rt; length == 6);
    Ok(())
}
