//! Files in memory, by `fz_app`.
use crate::tests::alike::{alike, holds};
use crate::tests::files::{Hdu, file_of};
use crate::tests::small;
use fz_app::{Status, pack_and_unpack, pack_bytes, unpack_bytes};
use fz_base::{Fault, Kind, Place};
use std::process::Abort;
use std::test::Fail;

/// The small file.
static SMALL_FILE: [Hdu<'static>; 1] = [small::SMALL_FILE];

/// The small file, packed in Rice codes.
static SMALL_PACKED: [Hdu<'static>; 2] = small::SMALL_PACKED_FILE;

// Asks that these bytes were answered.
fn assert_bytes<R: Abort>(rt: &R, answer: Result<Vec<u8>, Status>, wanted: &[u8]) {
    match answer {
        Ok(bytes) => holds(rt, bytes.as_slice() == wanted),
        Err(status) => alike(rt, status, Status::Done),
    }
}

/// The small file becomes its packed file, and this the small file.
#[test]
fn small_file_is_packed_and_unpacked(rt: HostRuntime) -> Result<(), Fail> {
    let alloc = rt.alloc();
    let plain = file_of(alloc, &SMALL_FILE)?;
    let packed = file_of(alloc, &SMALL_PACKED)?;
    assert!(rt; plain.len() <= 1 << 62);
    assert!(rt; packed.len() <= 1 << 62);
    assert_bytes(&rt, pack_bytes(&rt, alloc, &plain), &packed);
    assert_bytes(&rt, unpack_bytes(&rt, alloc, &packed), &plain);
    assert_bytes(&rt, pack_and_unpack(&rt, alloc, &plain), &plain);
    Ok(())
}

/// A file that is cut short is refused.
#[test]
fn short_file_is_refused(rt: HostRuntime) -> Result<(), Fail> {
    let alloc = rt.alloc();
    let mut short = file_of(alloc, &SMALL_FILE)?;
    short.truncate(2000);
    assert!(rt; short.len() <= 1 << 62);
    let fault = Fault {
        hdu: 0,
        at: Place::Byte(2000),
        kind: Kind::Truncated,
    };
    match pack_and_unpack(&rt, alloc, &short) {
        Ok(_) => holds(&rt, false),
        Err(status) => alike(&rt, status, Status::Refused(fault)),
    }
    Ok(())
}
