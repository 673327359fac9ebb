//! Real files of more than 4 GiB: each byte is read from its own place, and written to it. The files are sparse, so that they take a
//! few blocks of the disk.
use crate::asserts::alike;
use fz_base::{FileSink, FileSource, FileStore, Sink, Source, Store};
use std::fs::{File, OpenOptions};
use std::io;
use std::os::unix::fs::FileExt;
use std::process::Abort;
use std::rt::Files;
use std::test::Fail;

/// What a file holds at its front, and at places of which the first has the same low 32 bits as byte 5, and the second as byte 0.
const FRONT: &[u8; 8] = b"SIMPLE  ";

const PAST: u64 = (1 << 32) + 5;

const FAR: u64 = 1 << 33;

// Makes the file, with these bytes at the places, and `FRONT` before them.
fn make(rt: &impl Files<File = File>, name: &str, past: &[u8], far: &[u8]) -> io::Result<()> {
    let file = File::create(rt, name)?;
    file.write_all_at(FRONT, 0)?;
    file.write_all_at(past, PAST)?;
    file.write_all_at(far, FAR)
}

// Whether the file is as long as it should be and holds `FRONT`, and these bytes at the places.
fn check<R: Files<File = File> + Abort>(
    rt: &R,
    name: &str,
    past: &[u8; 3],
    far: &[u8; 3],
) -> io::Result<()> {
    let file = OpenOptions::new().read(true).open(rt, name)?;
    let length = file.metadata()?.len();
    let mut front = [0; 8];
    file.read_exact_at(&mut front, 0)?;
    let mut found = [[0; 3]; 2];
    file.read_exact_at(&mut found[0], PAST)?;
    file.read_exact_at(&mut found[1], FAR)?;
    alike(rt, (length, front), (FAR + 3, *FRONT));
    alike(rt, found, [*past, *far]);
    Ok(())
}

#[test]
fn file_source_reads_beyond_4_gib(rt: HostRuntime) -> Result<(), Fail> {
    make(&rt, "beyond_in.fits", b"abc", b"xyz")?;
    let mut source = FileSource::new(rt);
    let length = source.attach("beyond_in.fits")?;
    assert!(rt; length == FAR + 3);
    let mut found = [[0; 3]; 3];
    source.read_at(5, &mut found[0])?;
    source.read_at(PAST, &mut found[1])?;
    source.read_at(FAR, &mut found[2])?;
    alike(&rt, found, [*b"E  ", *b"abc", *b"xyz"]);
    Ok(())
}

#[test]
fn file_sink_writes_beyond_4_gib(rt: HostRuntime) -> Result<(), Fail> {
    let mut sink = FileSink::new(rt);
    sink.create("beyond_out.fits")?;
    sink.write_at(0, FRONT)?;
    sink.write_at(PAST, b"abc")?;
    sink.write_at(FAR, b"xyz")?;
    sink.finish()?;
    check(&rt, "beyond_out.fits", b"abc", b"xyz")?;
    Ok(())
}

#[test]
fn file_store_is_written_beyond_4_gib(rt: HostRuntime) -> Result<(), Fail> {
    make(&rt, "beyond_store.fits", b"---", b"---")?;
    let mut store = FileStore::new(rt);
    let length = store.attach("beyond_store.fits")?;
    assert!(rt; length == FAR + 3);
    store.amend(PAST, b"abc")?;
    store.amend(FAR, b"xyz")?;
    store.settle()?;
    let mut found = [[0; 3]; 3];
    store.read_at(5, &mut found[0])?;
    store.read_at(PAST, &mut found[1])?;
    store.read_at(FAR, &mut found[2])?;
    alike(&rt, found, [*b"E  ", *b"abc", *b"xyz"]);
    drop(store);
    check(&rt, "beyond_store.fits", b"abc", b"xyz")?;
    Ok(())
}
