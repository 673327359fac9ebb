//! Lines of `patch`, beside their nearest neighbours that are outside its grammar, and what some of them ask for.
use crate::asserts::{alike, holds};
use crate::lines::words_of;
use fz_block::Axes;
use fz_words::{PatchRequest, begins_patch, read_patch_words, read_words};
use std::alloc::AllocError;
use std::process::Abort;
use std::test::Fail;

/// Whether the words ask `patch` for something, and no other command.
fn is_of_patch(words: &[String]) -> bool {
    begins_patch(words) && read_patch_words(words).is_ok() && read_words(words).is_err()
}

/// Each first line is refused, and each second is taken, which is none of the other commands.
fn expect_patches(
    rt: &(impl Abort + AllocGlobal),
    lines: &[(&str, &str)],
) -> Result<(), AllocError> {
    for (refused, taken) in lines {
        let wrong = words_of(rt.alloc(), refused)?;
        let right = words_of(rt.alloc(), taken)?;
        let are_told_apart = read_patch_words(&wrong).is_err() && is_of_patch(&right);
        assert!(rt; are_told_apart, "{refused} / {taken}");
    }
    Ok(())
}

/// The first word is the command, and a place has to be given.
#[test]
fn places(rt: HostRuntime) -> Result<(), Fail> {
    static LINES: [(&str, &str); 9] = [
        ("", "patch --at 1 a b"),
        ("Patch --at 1 a b", "patch --at 1 a b"),
        ("patches --at 1 a b", "patch --at=1 a b"),
        ("--at 1 patch a b", "patch a --at 1 b"),
        ("patch a b", "patch a b --at 1"),
        ("patch --at a b", "patch --at 2 a b"),
        ("patch --at= a b", "patch --at=2 a b"),
        ("patch --at", "patch --at 1 -- --at b"),
        ("patch --at 0 a b", "patch --at 1 a b"),
    ];
    expect_patches(&rt, &LINES)?;
    Ok(())
}

/// A place is 1 to 9 numbers.
#[test]
fn more_places(rt: HostRuntime) -> Result<(), Fail> {
    static LINES: [(&str, &str); 9] = [
        ("patch --at 1,0 a b", "patch --at 1,1 a b"),
        ("patch --at 1, a b", "patch --at 1,01 a b"),
        ("patch --at ,1 a b", "patch --at 00001 a b"),
        ("patch --at 1:2 a b", "patch --at 1,2 a b"),
        ("patch --at +1 a b", "patch --at 1 a b"),
        ("patch --at -1 a b", "patch --at 1 - b"),
        ("patch --at 2147483648 a b", "patch --at 2147483647 a b"),
        (
            "patch --at 1,1,1,1,1,1,1,1,1,1 a b",
            "patch --at 1,1,1,1,1,1,1,1,1 a b",
        ),
        ("patch --at 1 --at 1 a b", "patch --at 1 a b"),
    ];
    expect_patches(&rt, &LINES)?;
    Ok(())
}

/// It has two operands, and three options.
#[test]
fn others(rt: HostRuntime) -> Result<(), Fail> {
    static LINES: [(&str, &str); 12] = [
        ("patch --at 1 a", "patch --at 1 a b"),
        ("patch --at 1 a b c", "patch --at 1 a c"),
        ("patch --at 1 a ", "patch --at 1 a -"),
        (
            "patch --hdu 65536 --at 1 a b",
            "patch --hdu 65535 --at 1 a b",
        ),
        (
            "patch --hdu=1 --hdu=1 --at 1 a b",
            "patch --hdu=1 --at 1 a b",
        ),
        ("patch --memory 0 --at 1 a b", "patch --memory 1 --at 1 a b"),
        (
            "patch --memory 1099511627777 --at 1 a b",
            "patch --memory 1099511627776 --at 1 a b",
        ),
        (
            "patch --workers 1 --at 1 a b",
            "patch --at 1 -- --workers b",
        ),
        (
            "patch --codec none --at 1 a b",
            "patch --at 1 -- --codec none",
        ),
        ("patch --box 1:1 --at 1 a b", "patch --at 1 -- --box 1:1"),
        ("patch --strict --at 1 a b", "patch --at 1 -- --strict b"),
        ("patch --sums --at 1 a b", "patch --at 1 -- --sums b"),
    ];
    expect_patches(&rt, &LINES)?;
    Ok(())
}

/// The options of `patch` are none of the other commands, but for those that they have too.
#[test]
fn leaves_the_others(rt: HostRuntime) -> Result<(), Fail> {
    static LINES: [&str; 6] = [
        "pack --at 1 a b",
        "retile --at 1 a b",
        "unpack --at 1 a b",
        "cut --at 1 --box 1:1 a b",
        "verify --at 1 a",
        "list --at 1 a",
    ];
    for line in &LINES {
        let words = words_of(rt.alloc(), line)?;
        let is_asked = read_words(&words).is_ok() || read_patch_words(&words).is_ok();
        holds(&rt, line, !is_asked && !begins_patch(&words));
    }
    Ok(())
}

#[test]
fn patching(rt: HostRuntime) -> Result<(), Fail> {
    static ROWS: [(&str, PatchRequest<'static>); 2] = [
        (
            "patch --at 2,03 a b",
            PatchRequest {
                hdu: None,
                at: Axes {
                    n: 2,
                    len: [2, 3, 0, 0, 0, 0, 0, 0, 0],
                },
                memory: 4_294_967_296,
                patch: "a",
                file: "b",
            },
        ),
        (
            "patch a --memory=5 --hdu=7 --at=1 -- -b",
            PatchRequest {
                hdu: Some(7),
                at: Axes {
                    n: 1,
                    len: [1, 0, 0, 0, 0, 0, 0, 0, 0],
                },
                memory: 5,
                patch: "a",
                file: "-b",
            },
        ),
    ];
    for (line, wanted) in &ROWS {
        let words = words_of(rt.alloc(), line)?;
        alike(&rt, line, read_patch_words(&words), Ok(*wanted));
    }
    Ok(())
}
