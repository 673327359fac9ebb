//! Lines of the grammar, and what some of them ask for.
use crate::asserts::alike;
use crate::lines::{expect_lines, words_of};
use fz_block::Axes;
use fz_files::Job;
use fz_grid::Sieve;
use fz_head::{CodecWord, PackOptions};
use fz_words::{Request, Usage, read_words};
use std::test::Fail;

/// The first word is the command.
#[test]
fn commands(rt: HostRuntime) -> Result<(), Fail> {
    static LINES: [(&str, &str); 7] = [
        ("", "list a"),
        ("Pack a b", "pack a b"),
        ("pac a b", "pack a b"),
        ("packs a b", "pack a b"),
        ("a pack b", "pack a b"),
        ("-- pack a b", "pack -- a b"),
        ("--sums pack a b", "pack --sums a b"),
    ];
    expect_lines(&rt, &LINES)?;
    Ok(())
}

/// The first word is the command.
#[test]
fn more_commands(rt: HostRuntime) -> Result<(), Fail> {
    static LINES: [(&str, &str); 9] = [
        ("Retile a b", "retile a b"),
        ("retiles a b", "retile a b"),
        ("patch --at 1 a b", "unpack a b"),
        ("help", "list help"),
        ("--help", "list -- --help"),
        ("-h", "list -- -h"),
        ("list -h a", "list h"),
        ("unpack --help a b", "unpack -- --help b"),
        ("verify --version a", "verify version"),
    ];
    expect_lines(&rt, &LINES)?;
    Ok(())
}

/// Each option is one of the command.
#[test]
fn options(rt: HostRuntime) -> Result<(), Fail> {
    static LINES: [(&str, &str); 11] = [
        ("unpack --sums a b", "pack --sums a b"),
        ("unpack --codec rice a b", "pack --codec rice a b"),
        ("verify --workers 2 a", "unpack --workers 2 a b"),
        ("list --memory 9 a", "verify --memory 9 a"),
        ("drill --workers 2 1", "drill 1"),
        ("pack --hdu 1 a b", "cut --hdu 1 --box 1:1 a b"),
        ("pack --box 1:1 a b", "cut --box 1:1 a b"),
        ("retile --hdu 1 a b", "retile --tile 1 a b"),
        ("retile --box 1:1 a b", "retile --workers 2 a b"),
        ("retile --strict a b", "retile --sums a b"),
        ("retile --at 1 a b", "retile --memory 1 a b"),
    ];
    expect_lines(&rt, &LINES)?;
    Ok(())
}

/// Each option is one of the command.
#[test]
fn more_options(rt: HostRuntime) -> Result<(), Fail> {
    static LINES: [(&str, &str); 11] = [
        ("cut --tile 1 --box 1:1 a b", "pack --tile 1 a b"),
        ("list --strict a", "verify --strict a"),
        ("pack --strict a b", "pack --sums a b"),
        ("verify --strict=yes a", "verify --strict a"),
        ("verify --strict --strict a", "verify --strict a"),
        ("pack --Sums a b", "pack --sums a b"),
        ("pack --cod rice a b", "pack --codec rice a b"),
        ("pack --codecs rice a b", "pack --codec rice a b"),
        ("pack -sums a b", "pack --sums a b"),
        ("pack --=rice a b", "pack --codec=rice a b"),
        ("pack -x b", "pack x b"),
    ];
    expect_lines(&rt, &LINES)?;
    Ok(())
}

/// An option has its value after it or after an equals sign.
#[test]
fn values(rt: HostRuntime) -> Result<(), Fail> {
    static LINES: [(&str, &str); 12] = [
        ("pack a b --codec", "pack a b --codec rice"),
        ("pack --codec --sums a b", "pack --codec rice --sums a b"),
        ("pack --codec -- a b", "pack --codec rice -- a b"),
        ("pack --codec= a b", "pack --codec=rice a b"),
        ("pack --codec =rice a b", "pack --codec rice a b"),
        ("pack --codec=rice=1 a b", "pack --codec=rice a=1 b"),
        ("pack --sums=1 a b", "pack --sums 1 b"),
        ("pack --sums= a b", "pack --sums a b"),
        ("pack --workers -1 a b", "pack --workers 1 a b"),
        ("verify --memory - a", "verify --memory 1 a"),
        ("verify --memory --memory 1 a", "verify --memory 1 a"),
        ("verify --memory  a", "verify --memory 1 a"),
    ];
    expect_lines(&rt, &LINES)?;
    Ok(())
}

/// An option is given once, and a box has to be given.
#[test]
fn repeats(rt: HostRuntime) -> Result<(), Fail> {
    static LINES: [(&str, &str); 10] = [
        ("pack --sums --sums a b", "pack --sums a b"),
        (
            "pack --codec rice --codec rice a b",
            "pack --codec rice a b",
        ),
        (
            "pack --codec=rice a b --codec plio",
            "pack a b --codec plio",
        ),
        (
            "unpack --workers 1 --workers=1 a b",
            "unpack --workers 1 a b",
        ),
        ("verify --memory 5 a --memory 5", "verify --memory 5 a"),
        (
            "cut --hdu 0 --hdu 0 --box 1:1 a b",
            "cut --hdu 0 --box 1:1 a b",
        ),
        ("cut --box 1:1 --box 1:1 a b", "cut --box 1:1 a b"),
        ("cut a b", "cut a b --box 1:1"),
        ("pack --tile 2 --tile=2 a b", "pack --tile 2 a b"),
        ("pack --block 8 a --block 8 b", "pack --block 8 a b"),
    ];
    expect_lines(&rt, &LINES)?;
    Ok(())
}

/// Operands are so many, and none is empty.
#[test]
fn operands(rt: HostRuntime) -> Result<(), Fail> {
    static LINES: [(&str, &str); 9] = [
        ("pack a", "pack a b"),
        ("pack a b c", "pack a b"),
        ("unpack a", "unpack a b"),
        ("cut --box 1:1 a", "cut --box 1:1 a b"),
        ("verify", "verify a"),
        ("verify a b", "verify a"),
        ("list a b", "list a"),
        ("drill", "drill 7"),
        ("drill 7 7", "drill 7"),
    ];
    expect_lines(&rt, &LINES)?;
    Ok(())
}

/// Operands are so many, and none is empty.
#[test]
fn more_operands(rt: HostRuntime) -> Result<(), Fail> {
    static LINES: [(&str, &str); 10] = [
        ("list ", "list -"),
        ("pack a  b", "pack a b"),
        ("pack  b", "pack - b"),
        ("list --", "list -- --"),
        ("list -- a b", "list -- a"),
        ("pack a -b", "pack a -- -b"),
        ("unpack a -- b c", "unpack a -- b"),
        ("verify -- ", "verify -- -"),
        ("pack -- a b --sums", "pack a b --sums"),
        ("pack -- --sums a b", "pack -- --sums a"),
    ];
    expect_lines(&rt, &LINES)?;
    Ok(())
}

/// A number is 1 to 18 digits in its range.
#[test]
fn numbers(rt: HostRuntime) -> Result<(), Fail> {
    static LINES: [(&str, &str); 8] = [
        ("drill 0", "drill 1"),
        ("drill 16385", "drill 16384"),
        ("drill +1", "drill 1"),
        ("drill 1.", "drill 01"),
        ("drill 0x1", "drill 000000000000000001"),
        ("drill 0000000000000000001", "drill 000000000000000001"),
        ("drill 1a", "drill 1"),
        ("drill ١", "drill 1"),
    ];
    expect_lines(&rt, &LINES)?;
    Ok(())
}

/// A number is 1 to 18 digits in its range.
#[test]
fn more_numbers(rt: HostRuntime) -> Result<(), Fail> {
    static LINES: [(&str, &str); 9] = [
        ("unpack --workers 0 a b", "unpack --workers 1 a b"),
        ("unpack --workers 65 a b", "unpack --workers 64 a b"),
        ("verify --memory 0 a", "verify --memory 1 a"),
        (
            "verify --memory 1099511627777 a",
            "verify --memory 1099511627776 a",
        ),
        (
            "verify --memory 4294967296000000001 a",
            "verify --memory 000000004294967296 a",
        ),
        (
            "cut --hdu 65536 --box 1:1 a b",
            "cut --hdu 65535 --box 1:1 a b",
        ),
        ("cut --hdu=a --box 1:1 a b", "cut --hdu=0 --box 1:1 a b"),
        ("pack --block 0 a b", "pack --block 1 a b"),
        ("pack --block 32768 a b", "pack --block 32767 a b"),
    ];
    expect_lines(&rt, &LINES)?;
    Ok(())
}

/// A list has 1 to 9 lengths, and a box 1 to 9 ranges.
#[test]
fn lists(rt: HostRuntime) -> Result<(), Fail> {
    static LINES: [(&str, &str); 11] = [
        ("pack --tile 0 a b", "pack --tile 1 a b"),
        ("pack --tile 2147483648 a b", "pack --tile 2147483647 a b"),
        ("pack --tile 2, a b", "pack --tile 2,1 a b"),
        ("pack --tile ,2 a b", "pack --tile 1,2 a b"),
        ("pack --tile 2,,2 a b", "pack --tile 2,2,2 a b"),
        (
            "pack --tile 1,2,3,4,5,6,7,8,9,10 a b",
            "pack --tile 1,2,3,4,5,6,7,8,9 a b",
        ),
        ("pack --tile 2x2 a b", "pack --tile 2,2 a b"),
        ("pack --tile 2:2 a b", "pack --tile 2,2 a b"),
        ("cut --box 1 a b", "cut --box 1:1 a b"),
        ("cut --box 2:1 a b", "cut --box 1:2 a b"),
        ("cut --box 0:1 a b", "cut --box 1:1 a b"),
    ];
    expect_lines(&rt, &LINES)?;
    Ok(())
}

/// A list has 1 to 9 lengths, and a box 1 to 9 ranges.
#[test]
fn more_lists(rt: HostRuntime) -> Result<(), Fail> {
    static LINES: [(&str, &str); 11] = [
        ("cut --box 1:2147483648 a b", "cut --box 1:2147483647 a b"),
        ("cut --box 1:5:0 a b", "cut --box 1:5:1 a b"),
        (
            "cut --box 1:5:2147483648 a b",
            "cut --box 1:5:2147483647 a b",
        ),
        ("cut --box 1:5: a b", "cut --box 1:5:9 a b"),
        ("cut --box 1:5:2:1 a b", "cut --box 1:5:2 a b"),
        ("cut --box 1:1, a b", "cut --box 1:1,1:1 a b"),
        ("cut --box :5 a b", "cut --box 5:5 a b"),
        ("cut --box 1: a b", "cut --box 1:1 a b"),
        ("cut --box 1-5 a b", "cut --box 1:5 a b"),
        ("cut --box 1:1,2 a b", "cut --box 1:1,2:2 a b"),
        (
            "cut --box 1:1,1:1,1:1,1:1,1:1,1:1,1:1,1:1,1:1,1:1 a b",
            "cut --box 1:1,1:1,1:1,1:1,1:1,1:1,1:1,1:1,1:1 a b",
        ),
    ];
    expect_lines(&rt, &LINES)?;
    Ok(())
}

/// A block is only for the codec rice.
#[test]
fn blocks(rt: HostRuntime) -> Result<(), Fail> {
    static LINES: [(&str, &str); 7] = [
        (
            "pack --codec plio --block 8 a b",
            "pack --codec rice --block 8 a b",
        ),
        ("pack --block 8 --codec none a b", "pack --block 8 a b"),
        ("retile --block 8 --codec none a b", "retile --block 8 a b"),
        ("pack --block=32 a b --codec=plio", "pack a b --codec=plio"),
        ("pack --codec Rice a b", "pack --codec rice a b"),
        ("pack --codec RICE_1 a b", "pack --codec none a b"),
        ("pack --codec gzip a b", "pack --codec plio a b"),
    ];
    expect_lines(&rt, &LINES)?;
    Ok(())
}

#[test]
fn no_words(rt: HostRuntime) {
    let none = Vec::new(rt.alloc());
    alike(&rt, "", read_words(&none), Err(Usage));
}

/// The default of `--memory`.
const MEMORY: u64 = 4_294_967_296;

/// The options of `pack` without any.
const PLAIN: PackOptions = PackOptions {
    codec: CodecWord::Rice,
    tile: None,
    block: 32,
    sums: false,
    workers: 1,
};

/// A request on the files `a` and `b`.
fn on_files(job: Job, workers: u32, memory: u64) -> Request<'static> {
    Request {
        job,
        workers,
        strict: false,
        memory,
        input: "a",
        output: "b",
    }
}

/// The same options with this tile of 2 by 3.
fn two_by_three() -> PackOptions {
    PackOptions {
        codec: CodecWord::Plio,
        tile: Some(Axes {
            n: 2,
            len: [2, 3, 0, 0, 0, 0, 0, 0, 0],
        }),
        block: 32,
        sums: true,
        workers: 8,
    }
}

#[test]
fn packing(rt: HostRuntime) -> Result<(), Fail> {
    let coarse = PackOptions { block: 7, ..PLAIN };
    let rows = [
        ("pack a b", on_files(Job::Pack(PLAIN), 1, MEMORY)),
        (
            "pack --block=07 a b",
            on_files(Job::Pack(coarse), 1, MEMORY),
        ),
        (
            "pack --sums a --tile 2,3 --memory=9 b --workers 8 --codec plio",
            on_files(Job::Pack(two_by_three()), 8, 9),
        ),
        ("retile a b", on_files(Job::Retile(PLAIN), 1, MEMORY)),
        (
            "retile --workers=8 a --codec plio b --sums --tile=2,3",
            on_files(Job::Retile(two_by_three()), 8, MEMORY),
        ),
        ("unpack a b", on_files(Job::Unpack, 1, MEMORY)),
        (
            "unpack --workers 64 --memory 1 -- a b",
            on_files(Job::Unpack, 64, 1),
        ),
    ];
    for (line, wanted) in rows {
        let words = words_of(rt.alloc(), line)?;
        alike(&rt, line, read_words(&words), Ok(wanted));
    }
    Ok(())
}

/// A request on only the file `-`.
fn on_file(job: Job, memory: u64) -> Request<'static> {
    Request {
        job,
        workers: 1,
        strict: false,
        memory,
        input: "-",
        output: "",
    }
}

/// The box from 2 to 5 by 3, from 1 to 1.
static BOX: Sieve = Sieve {
    n: 2,
    lo: [1, 0, 0, 0, 0, 0, 0, 0, 0],
    hi: [4, 0, 0, 0, 0, 0, 0, 0, 0],
    step: [3, 1, 0, 0, 0, 0, 0, 0, 0],
};

#[test]
fn cutting_and_looking(rt: HostRuntime) -> Result<(), Fail> {
    let first = Job::Cut {
        hdu: None,
        sieve: BOX,
    };
    let third = Job::Cut {
        hdu: Some(2),
        sieve: BOX,
    };
    let drill = Request {
        job: Job::Drill { rows: 1000 },
        workers: 1,
        strict: false,
        memory: MEMORY,
        input: "",
        output: "",
    };
    let strict = Request {
        strict: true,
        ..on_file(Job::Verify, 9)
    };
    let rows = [
        ("cut --box 2:5:3,1:1 a b", on_files(first, 1, MEMORY)),
        (
            "cut a --hdu=2 --workers 3 b --box=2:5:3,1:1:1",
            on_files(third, 3, MEMORY),
        ),
        (
            "verify --memory 1099511627776 -",
            on_file(Job::Verify, 1_099_511_627_776),
        ),
        ("verify --memory=9 - --strict", strict),
        ("list -", on_file(Job::List, MEMORY)),
        ("drill -- 01000", drill),
    ];
    for (line, wanted) in rows {
        let words = words_of(rt.alloc(), line)?;
        alike(&rt, line, read_words(&words), Ok(wanted));
    }
    Ok(())
}
