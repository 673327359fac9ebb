//! The call `drill` of `fz_drill` by itself: what no clause says, that the jobs ran, with the tiles of each; and the lines of worked
//! files.
ghost use Rattle.fz_drill.specs.Files.{IsRows};

use crate::tests::alike::{alike, holds};
use crate::tests::counting::Counting;
use fz_base::{MemText, Meter, Stop};
use fz_drill::drill;
use std::alloc::{AllocError, Global};
use std::process::Abort;
use std::test::Fail;
use std::thread::Threads;

/// The lines of one row. The file has a header and one block of data; each packed file an empty primary, a header and one block.
const ONE: &str =
    "drill 1 plain 5760\nrice packed 8640 unpack same cut same\nplio packed 8640 unpack same cut same\nnone packed 8640 unpack same cut same\n";

/// The lines of 16 rows: 8,192 bytes of pixels, and 8,448 bytes of rows and pixels if they are stored.
const SIXTEEN: &str =
    "drill 16 plain 11520\nrice packed 8640 unpack same cut same\nplio packed 8640 unpack same cut same\nnone packed 14400 unpack same cut same\n";

/// 9 calls for each of 8 tiles.
const NINE_EACH: u64 = 0x0909_0909_0909_0909;

/// The bound of the buffers: 2 x 2880 + 5760 + 8 x (16 x 256 + 64) + 65536.
const BOUND: u64 = 110_336;

/// The number of a call that does not come.
const NEVER: u32 = u32::MAX;

/// What the call answered and left.
#[derive(Drop)]
struct Drilled {
    answer: Result<(), Stop>,
    text: MemText,
    gate: Counting,
    live: u64,
    peak: u64,
    limit: u64,
}

// The call for so many rows, under this limit, with a text of which the call of this number fails.
fn drill_once<R: Threads + Sync>(
    rt: &R,
    alloc: Global,
    rows: u32,
    limit: u64,
    failing: u32,
) -> Result<Drilled, AllocError>
    requires { IsRows rows }
{
    let gate = Counting::new();
    let mut text = MemText::new(alloc, vec![in alloc; failing]?);
    let mut meter = Meter::new(alloc, limit);
    let answer = drill(rt, alloc, rows, &mut text, &mut meter, &gate);
    Ok(Drilled {
        answer,
        text,
        gate,
        live: meter.live(),
        peak: meter.peak(),
        limit: meter.limit(),
    })
}

// It printed these lines, within its bound.
fn expect_lines(rt: &impl Abort, drilled: &Drilled, lines: &str) {
    let is_told = drilled.answer == Ok(()) && drilled.text.contents() == lines.as_bytes();
    holds(rt, is_told);
    alike(
        rt,
        (drilled.live, drilled.peak, drilled.limit),
        (0, BOUND, BOUND),
    );
}

#[test]
fn lines_of_one_row(rt: HostRuntime) -> Result<(), Fail> {
    let found = drill_once(&rt, rt.alloc(), 1, BOUND, NEVER)?;
    expect_lines(&rt, &found, ONE);
    Ok(())
}

#[test]
fn lines_of_many_rows(rt: HostRuntime) -> Result<(), Fail> {
    let found = drill_once(&rt, rt.alloc(), 16, BOUND, NEVER)?;
    expect_lines(&rt, &found, SIXTEEN);
    Ok(())
}

#[test]
fn each_job_passes_the_gate_for_each_tile(rt: HostRuntime) -> Result<(), Fail> {
    let one = drill_once(&rt, rt.alloc(), 1, BOUND, NEVER)?;
    let many = drill_once(&rt, rt.alloc(), 16, BOUND, NEVER)?;
    alike(&rt, (one.gate.calls(), one.gate.tiles()), (9, (9, 0)));
    alike(
        &rt,
        (many.gate.calls(), many.gate.tiles()),
        (144, (NINE_EACH, NINE_EACH)),
    );
    Ok(())
}

// It printed nothing, and nothing is live.
fn expect_stopped(rt: &impl Abort, drilled: &Drilled, stop: Stop) {
    let is_stopped = drilled.answer == Err(stop) && drilled.text.contents().is_empty();
    holds(rt, is_stopped && drilled.live == 0);
}

#[test]
fn nothing_is_printed_where_a_buffer_passes_the_limit(rt: HostRuntime) -> Result<(), Fail> {
    let limit = BOUND - 1;
    let (live, asked) = (BOUND - 65_536, 65_536);
    let found = drill_once(&rt, rt.alloc(), 1, limit, NEVER)?;
    expect_stopped(&rt, &found, Stop::OverLimit { live, asked, limit });
    Ok(())
}

#[test]
fn a_text_that_fails_is_a_write_fault(rt: HostRuntime) -> Result<(), Fail> {
    let found = drill_once(&rt, rt.alloc(), 1, BOUND, 0)?;
    expect_stopped(&rt, &found, Stop::WriteFault);
    Ok(())
}
