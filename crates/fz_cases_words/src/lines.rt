//! Lines that are refused, and beside each its nearest neighbour that is taken: 176 of each, in a table of one rule or of a
//! part of one.
use fz_words::read_words;
use std::alloc::{AllocError, Global};
use std::process::Abort;
use std::test::Fail;

/// The words of a line, which one blank parts; two blanks have the empty word between them.
pub(crate) fn words_of(alloc: Global, line: &str) -> Result<Vec<String>, AllocError> {
    let mut words = Vec::new(alloc);
    for word in line.split(' ') {
        words.push(String::from_str(alloc, word)?)?;
    }
    Ok(words)
}

/// Whether each first line is refused and each second is taken.
pub(crate) fn expect_lines(
    rt: &(impl Abort + AllocGlobal),
    lines: &[(&str, &str)],
) -> Result<(), AllocError> {
    for (refused, taken) in lines {
        let wrong = words_of(rt.alloc(), refused)?;
        let right = words_of(rt.alloc(), taken)?;
        let are_told_apart = read_words(&wrong).is_err() && read_words(&right).is_ok();
        assert!(rt; are_told_apart, "{refused} / {taken}");
    }
    Ok(())
}

/// The first word is the command.
#[test]
fn first_word(rt: HostRuntime) -> Result<(), Fail> {
    static LINES: [(&str, &str); 11] = [
        ("Unpack IN OUT", "unpack IN OUT"),
        ("CUT --box 1:1 IN OUT", "cut --box 1:1 IN OUT"),
        ("verif IN", "verify IN"),
        ("lists IN", "list IN"),
        ("Drill 1", "drill 1"),
        ("drill=1", "drill 1"),
        ("IN list", "list IN"),
        ("IN unpack OUT", "unpack IN OUT"),
        ("--box 1:1 cut IN OUT", "cut --box 1:1 IN OUT"),
        ("--memory 1 verify IN", "verify --memory 1 IN"),
        ("-- verify IN", "verify -- IN"),
    ];
    expect_lines(&rt, &LINES)?;
    Ok(())
}

/// Options and operands are in any order.
#[test]
fn order(rt: HostRuntime) -> Result<(), Fail> {
    static LINES: [(&str, &str); 4] = [
        ("pack IN --workers OUT 2", "pack IN --workers 2 OUT"),
        ("unpack --memory IN 5 OUT", "unpack --memory 5 IN OUT"),
        ("cut IN --box OUT 1:1", "cut IN --box 1:1 OUT"),
        ("verify IN --memory", "verify IN --memory 5"),
    ];
    expect_lines(&rt, &LINES)?;
    Ok(())
}

/// An option has its value after it or after an equals sign.
#[test]
fn forms_of_values(rt: HostRuntime) -> Result<(), Fail> {
    static LINES: [(&str, &str); 11] = [
        ("pack --codec:rice IN OUT", "pack --codec=rice IN OUT"),
        ("pack --tile IN OUT", "pack --tile 1 IN OUT"),
        ("pack --block 8= IN OUT", "pack --block 8 IN OUT"),
        ("pack --sums=yes IN OUT", "pack --sums IN OUT"),
        ("pack --sums yes IN OUT", "pack --sums IN OUT"),
        ("unpack --workers==2 IN OUT", "unpack --workers=2 IN OUT"),
        ("unpack IN OUT --workers", "unpack IN OUT --workers 2"),
        ("verify --memory = 5 IN", "verify --memory 5 IN"),
        ("cut --hdu --box 1:1 IN OUT", "cut --hdu 1 --box 1:1 IN OUT"),
        ("cut --box= 1:1 IN OUT", "cut --box=1:1 IN OUT"),
        ("cut IN OUT --box", "cut IN OUT --box 1:1"),
    ];
    expect_lines(&rt, &LINES)?;
    Ok(())
}

/// Each option is given at most once, and a box has to be given.
#[test]
fn repeats(rt: HostRuntime) -> Result<(), Fail> {
    static LINES: [(&str, &str); 10] = [
        ("pack --sums IN --sums OUT", "pack --sums IN OUT"),
        (
            "pack --workers 2 --workers=2 IN OUT",
            "pack --workers 2 IN OUT",
        ),
        (
            "pack --memory 5 --memory 5 IN OUT",
            "pack --memory 5 IN OUT",
        ),
        (
            "unpack --memory=5 IN --memory=6 OUT",
            "unpack --memory=5 IN OUT",
        ),
        (
            "cut --workers 1 --box 1:1 --workers 1 IN OUT",
            "cut --workers 1 --box 1:1 IN OUT",
        ),
        (
            "cut --memory 5 --memory 5 --box 1:1 IN OUT",
            "cut --memory 5 --box 1:1 IN OUT",
        ),
        ("cut --box 1:1 IN OUT --box=2:2", "cut --box 1:1 IN OUT"),
        ("verify --memory=5 --memory=5 IN", "verify --memory=5 IN"),
        ("cut --hdu 1 IN OUT", "cut --hdu 1 --box 1:1 IN OUT"),
        ("cut -- --box=1:1 OUT", "cut --box=1:1 -- --box=1:1 OUT"),
    ];
    expect_lines(&rt, &LINES)?;
    Ok(())
}

/// After the first -- each word is an operand.
#[test]
fn words_behind_the_mark(rt: HostRuntime) -> Result<(), Fail> {
    static LINES: [(&str, &str); 6] = [
        (
            "unpack -- IN OUT --workers=2",
            "unpack --workers=2 -- IN OUT",
        ),
        ("cut --box=1:1 -- IN OUT --", "cut --box=1:1 -- IN --"),
        ("verify -- --memory=5 IN", "verify --memory=5 -- IN"),
        ("drill -- -1", "drill -- 1"),
        ("pack -- -- IN OUT", "pack -- -- IN"),
        ("list --", "list -- -IN"),
    ];
    expect_lines(&rt, &LINES)?;
    Ok(())
}

/// An option is one of the command: those that write a file.
#[test]
fn options_where_a_file_is_written(rt: HostRuntime) -> Result<(), Fail> {
    static LINES: [(&str, &str); 12] = [
        ("pack --hdu=1 IN OUT", "pack IN OUT"),
        ("pack --box=1:1 IN OUT", "pack IN OUT"),
        ("unpack --codec=rice IN OUT", "unpack IN OUT"),
        ("unpack --tile=1 IN OUT", "unpack IN OUT"),
        ("unpack --block=8 IN OUT", "unpack IN OUT"),
        ("unpack --sums IN OUT", "unpack IN OUT"),
        ("unpack --hdu=1 IN OUT", "unpack IN OUT"),
        ("unpack --box=1:1 IN OUT", "unpack IN OUT"),
        ("cut --codec=rice --box 1:1 IN OUT", "cut --box 1:1 IN OUT"),
        ("cut --tile=1 --box 1:1 IN OUT", "cut --box 1:1 IN OUT"),
        ("cut --block=8 --box 1:1 IN OUT", "cut --box 1:1 IN OUT"),
        ("cut --sums --box 1:1 IN OUT", "cut --box 1:1 IN OUT"),
    ];
    expect_lines(&rt, &LINES)?;
    Ok(())
}

/// An option is one of the command: verify has one.
#[test]
fn options_of_verify(rt: HostRuntime) -> Result<(), Fail> {
    static LINES: [(&str, &str); 7] = [
        ("verify --codec=rice IN", "verify IN"),
        ("verify --tile=1 IN", "verify IN"),
        ("verify --block=8 IN", "verify IN"),
        ("verify --sums IN", "verify IN"),
        ("verify --workers=1 IN", "verify IN"),
        ("verify --hdu=1 IN", "verify IN"),
        ("verify --box=1:1 IN", "verify IN"),
    ];
    expect_lines(&rt, &LINES)?;
    Ok(())
}

/// An option is one of the command: list has none.
#[test]
fn options_of_list(rt: HostRuntime) -> Result<(), Fail> {
    static LINES: [(&str, &str); 8] = [
        ("list --codec=rice IN", "list IN"),
        ("list --tile=1 IN", "list IN"),
        ("list --block=8 IN", "list IN"),
        ("list --sums IN", "list IN"),
        ("list --workers=1 IN", "list IN"),
        ("list --memory=5 IN", "list IN"),
        ("list --hdu=1 IN", "list IN"),
        ("list --box=1:1 IN", "list IN"),
    ];
    expect_lines(&rt, &LINES)?;
    Ok(())
}

/// An option is one of the command: drill has none.
#[test]
fn options_of_drill(rt: HostRuntime) -> Result<(), Fail> {
    static LINES: [(&str, &str); 8] = [
        ("drill --codec=rice 1", "drill 1"),
        ("drill --tile=1 1", "drill 1"),
        ("drill --block=8 1", "drill 1"),
        ("drill --sums 1", "drill 1"),
        ("drill --workers=1 1", "drill 1"),
        ("drill --memory=5 1", "drill 1"),
        ("drill --hdu=1 1", "drill 1"),
        ("drill --box=1:1 1", "drill 1"),
    ];
    expect_lines(&rt, &LINES)?;
    Ok(())
}

/// A word that begins with - and is longer is an option or outside.
#[test]
fn hyphens(rt: HostRuntime) -> Result<(), Fail> {
    static LINES: [(&str, &str); 9] = [
        ("pack -IN OUT", "pack - OUT"),
        ("unpack IN -o", "unpack IN -"),
        ("verify -v", "verify -"),
        ("list -1", "list -"),
        ("drill -1", "drill 1"),
        ("cut -b 1:1 IN OUT", "cut --box 1:1 IN OUT"),
        ("verify ---memory 5 IN", "verify --memory 5 IN"),
        ("unpack --worker 2 IN OUT", "unpack --workers 2 IN OUT"),
        ("cut --BOX 1:1 IN OUT", "cut --box 1:1 IN OUT"),
    ];
    expect_lines(&rt, &LINES)?;
    Ok(())
}

/// The value after an option does not begin with -.
#[test]
fn values_with_hyphens(rt: HostRuntime) -> Result<(), Fail> {
    static LINES: [(&str, &str); 8] = [
        ("pack --codec -rice IN OUT", "pack --codec rice IN OUT"),
        ("pack --tile -4 IN OUT", "pack --tile 4 IN OUT"),
        ("pack --block - IN OUT", "pack --block 8 IN OUT"),
        ("unpack --workers=-1 IN OUT", "unpack --workers=1 IN OUT"),
        ("unpack --memory -5 IN OUT", "unpack --memory 5 IN OUT"),
        ("cut --box -1:1 IN OUT", "cut --box 1:1 IN OUT"),
        (
            "cut --hdu -0 --box 1:1 IN OUT",
            "cut --hdu 0 --box 1:1 IN OUT",
        ),
        ("verify --memory -- IN", "verify --memory 5 -- IN"),
    ];
    expect_lines(&rt, &LINES)?;
    Ok(())
}

/// The operands are as many as the command has, and none is empty.
#[test]
fn two_operands(rt: HostRuntime) -> Result<(), Fail> {
    static LINES: [(&str, &str); 9] = [
        ("pack", "pack IN OUT"),
        ("pack IN OUT MORE", "pack IN OUT"),
        ("unpack", "unpack IN OUT"),
        ("unpack IN OUT MORE", "unpack IN OUT"),
        ("unpack  OUT", "unpack IN OUT"),
        ("unpack IN ", "unpack IN OUT"),
        ("cut --box 1:1", "cut --box 1:1 IN OUT"),
        ("cut --box 1:1 IN OUT MORE", "cut --box 1:1 IN OUT"),
        ("cut --box 1:1 IN ", "cut --box 1:1 IN OUT"),
    ];
    expect_lines(&rt, &LINES)?;
    Ok(())
}

/// The same if there is one operand.
#[test]
fn one_operand(rt: HostRuntime) -> Result<(), Fail> {
    static LINES: [(&str, &str); 8] = [
        ("verify", "verify IN"),
        ("verify IN MORE", "verify IN"),
        ("verify ", "verify IN"),
        ("list", "list IN"),
        ("list IN MORE", "list IN"),
        ("list -- ", "list -- IN"),
        ("drill 1 1", "drill 1"),
        ("drill ", "drill 1"),
    ];
    expect_lines(&rt, &LINES)?;
    Ok(())
}

/// A number is 1 to 18 decimal digits in its range: rows of a drill, and a block.
#[test]
fn rows_and_blocks(rt: HostRuntime) -> Result<(), Fail> {
    static LINES: [(&str, &str); 9] = [
        ("drill 00", "drill 01"),
        ("drill 016385", "drill 016384"),
        ("drill 1_000", "drill 1000"),
        ("drill 1e3", "drill 1000"),
        ("drill 8.0", "drill 8"),
        ("drill ８", "drill 8"),
        ("pack --block +8 IN OUT", "pack --block 8 IN OUT"),
        ("pack --block 032768 IN OUT", "pack --block 032767 IN OUT"),
        ("pack --block 0x8 IN OUT", "pack --block 08 IN OUT"),
    ];
    expect_lines(&rt, &LINES)?;
    Ok(())
}

/// A number is 1 to 18 decimal digits in its range: workers, bytes of memory, and an HDU.
#[test]
fn workers_memory_and_hdus(rt: HostRuntime) -> Result<(), Fail> {
    static LINES: [(&str, &str); 12] = [
        ("pack --workers 0 IN OUT", "pack --workers 1 IN OUT"),
        ("pack --workers 65 IN OUT", "pack --workers 64 IN OUT"),
        ("pack --memory 0 IN OUT", "pack --memory 1 IN OUT"),
        (
            "pack --memory 1099511627777 IN OUT",
            "pack --memory 1099511627776 IN OUT",
        ),
        (
            "unpack --workers 0000000000000000001 IN OUT",
            "unpack --workers 000000000000000001 IN OUT",
        ),
        (
            "unpack --memory 1099511627777 IN OUT",
            "unpack --memory 1099511627776 IN OUT",
        ),
        ("unpack --memory 4G IN OUT", "unpack --memory 4 IN OUT"),
        (
            "cut --workers 65 --box 1:1 IN OUT",
            "cut --workers 64 --box 1:1 IN OUT",
        ),
        (
            "cut --memory 0 --box 1:1 IN OUT",
            "cut --memory 1 --box 1:1 IN OUT",
        ),
        (
            "cut --hdu 65536 --box 1:1 IN OUT",
            "cut --hdu 065535 --box 1:1 IN OUT",
        ),
        (
            "cut --hdu +0 --box 1:1 IN OUT",
            "cut --hdu 000 --box 1:1 IN OUT",
        ),
        (
            "verify --memory 999999999999999999 IN",
            "verify --memory 1099511627776 IN",
        ),
    ];
    expect_lines(&rt, &LINES)?;
    Ok(())
}

/// A tile is 1 to 9 lengths.
#[test]
fn tiles(rt: HostRuntime) -> Result<(), Fail> {
    static LINES: [(&str, &str); 9] = [
        ("pack --tile 00 IN OUT", "pack --tile 01 IN OUT"),
        ("pack --tile 4,0 IN OUT", "pack --tile 4,1 IN OUT"),
        (
            "pack --tile 2147483647,2147483648 IN OUT",
            "pack --tile 2147483647,2147483647 IN OUT",
        ),
        ("pack --tile 4,,4 IN OUT", "pack --tile 4,4 IN OUT"),
        ("pack --tile , IN OUT", "pack --tile 4 IN OUT"),
        ("pack --tile 4; IN OUT", "pack --tile 4 IN OUT"),
        ("pack --tile +4 IN OUT", "pack --tile 4 IN OUT"),
        ("pack --tile 4, 4 IN OUT", "pack --tile 4,4 IN OUT"),
        (
            "pack --tile=1,1,1,1,1,1,1,1,1, IN OUT",
            "pack --tile=1,1,1,1,1,1,1,1,1 IN OUT",
        ),
    ];
    expect_lines(&rt, &LINES)?;
    Ok(())
}

/// A range is from its lower end to its upper one.
#[test]
fn ranges(rt: HostRuntime) -> Result<(), Fail> {
    static LINES: [(&str, &str); 5] = [
        ("cut --box 3:2 IN OUT", "cut --box 2:3 IN OUT"),
        ("cut --box 0:0 IN OUT", "cut --box 1:1 IN OUT"),
        ("cut --box 1:0 IN OUT", "cut --box 1:01 IN OUT"),
        (
            "cut --box 2147483647:2147483648 IN OUT",
            "cut --box 2147483647:2147483647 IN OUT",
        ),
        ("cut --box 1:5,4:3 IN OUT", "cut --box 1:5,3:4 IN OUT"),
    ];
    expect_lines(&rt, &LINES)?;
    Ok(())
}

/// A range may have a step.
#[test]
fn steps(rt: HostRuntime) -> Result<(), Fail> {
    static LINES: [(&str, &str); 7] = [
        ("cut --box 1:5:00 IN OUT", "cut --box 1:5:01 IN OUT"),
        ("cut --box 1:5:-1 IN OUT", "cut --box 1:5:1 IN OUT"),
        ("cut --box 1:5,1:5:0 IN OUT", "cut --box 1:5,1:5:9 IN OUT"),
        (
            "cut --box 1:1:2147483648 IN OUT",
            "cut --box 1:1:2147483647 IN OUT",
        ),
        ("cut --box 1:5::2 IN OUT", "cut --box 1:5:2 IN OUT"),
        ("cut --box 1::5 IN OUT", "cut --box 1:5 IN OUT"),
        ("cut --box ::: IN OUT", "cut --box 1:1:1 IN OUT"),
    ];
    expect_lines(&rt, &LINES)?;
    Ok(())
}

/// A box is 1 to 9 ranges.
#[test]
fn boxes(rt: HostRuntime) -> Result<(), Fail> {
    static LINES: [(&str, &str); 6] = [
        ("cut --box : IN OUT", "cut --box 1:1 IN OUT"),
        ("cut --box 5 IN OUT", "cut --box 5:5 IN OUT"),
        ("cut --box ,1:1 IN OUT", "cut --box 1:1,1:1 IN OUT"),
        ("cut --box 1:1;1:1 IN OUT", "cut --box 1:1,1:1 IN OUT"),
        ("cut --box 1:1,2:2,3 IN OUT", "cut --box 1:1,2:2,3:3 IN OUT"),
        (
            "cut --box=1:1,1:1,1:1,1:1,1:1,1:1,1:1,1:1,1:1:1,1:1 IN OUT",
            "cut --box=1:1,1:1,1:1,1:1,1:1,1:1,1:1,1:1,1:1:1 IN OUT",
        ),
    ];
    expect_lines(&rt, &LINES)?;
    Ok(())
}

/// A block is only for the codec rice.
#[test]
fn codecs_of_a_block(rt: HostRuntime) -> Result<(), Fail> {
    static LINES: [(&str, &str); 5] = [
        (
            "pack --block 32 --codec none IN OUT",
            "pack --block 32 --codec rice IN OUT",
        ),
        (
            "pack --codec=plio IN OUT --block=32",
            "pack --codec=rice IN OUT --block=32",
        ),
        (
            "pack --codec none --block 8 IN OUT",
            "pack --block 8 IN OUT",
        ),
        ("pack --codec RICE IN OUT", "pack --codec rice IN OUT"),
        ("pack --codec ric IN OUT", "pack --codec plio IN OUT"),
    ];
    expect_lines(&rt, &LINES)?;
    Ok(())
}

/// Words that ask for help are none.
#[test]
fn help(rt: HostRuntime) -> Result<(), Fail> {
    static LINES: [(&str, &str); 12] = [
        ("help", "list help"),
        ("--help", "verify -- --help"),
        ("-h", "drill 1"),
        ("help pack", "pack help OUT"),
        ("pack --help IN OUT", "pack help OUT"),
        ("unpack -h IN OUT", "unpack h OUT"),
        ("cut --help --box 1:1 IN OUT", "cut --box 1:1 -- --help OUT"),
        ("verify --help", "verify help"),
        ("list --help", "list help"),
        ("drill help", "drill 1"),
        ("drill --help", "drill 1"),
        ("list IN --version", "list version"),
    ];
    expect_lines(&rt, &LINES)?;
    Ok(())
}
