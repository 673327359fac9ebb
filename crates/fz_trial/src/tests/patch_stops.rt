//! Runs in which each call of FILE, and then of PATCH, fails in turn.
use crate::conditions::Conditions;
use crate::patches::Amended;
use crate::tests::alike::holds;
use crate::tests::changes::{changed, put};
use crate::tests::files::file_of;
use crate::tests::patch_cases::{CASES, Case, has_tiles};
use crate::tests::patching::{cut_of, patched_by, patched_on};
use fz_base::Write;
use std::alloc::{AllocError, Global};
use std::process::Abort;
use std::test::Fail;
use std::thread::Threads;

/// More calls than a run on one of these files makes.
const CALLS: u32 = 400;

/// Which calls fail in turn: those of FILE, of which a write keeps so many bytes, or those of PATCH.
#[derive(Clone, Copy)]
enum Failing {
    File { keep: u32 },
    Patch,
}

// The file after so many of these writes.
fn written(
    alloc: Global,
    file: &[u8],
    writes: &[Write],
    count: usize,
) -> Result<Vec<u8>, AllocError> {
    let mut now = file.to_vec(alloc)?;
    for write in &writes[..count.min(writes.len())] {
        let at = write.at() as usize;
        let end = at.saturating_add(write.bytes().len());
        if end > now.len() {
            now.resize(end, 0)?;
        }
        put(&mut now, at, write.bytes());
    }
    Ok(now)
}

// Whether these are the first of those writes.
fn are_first(some: &[Write], all: &[Write]) -> bool {
    if some.len() > all.len() {
        return false;
    }
    for i in 0..some.len().min(all.len()) {
        if some[i].at() != all[i].at() || some[i].bytes() != all[i].bytes() {
            return false;
        }
    }
    true
}

// Whether a write is one of a row, or comes after the rows: it lies in the data, before the heap.
fn is_row(write: &Write) -> bool {
    write.at() >= 5760 && write.bytes().len() == 16
}

/// A run in which nothing fails, and the pixels before it and after it.
#[derive(Drop)]
struct Whole {
    outcome: Amended,
    before: Vec<u8>,
    after: Vec<u8>,
}

// The run of a case in which nothing fails.
fn whole_run<R: Threads + Sync + AllocGlobal>(
    rt: &R,
    case: &Case,
    file: &[u8],
    patch: &[u8],
) -> Result<Whole, AllocError> {
    let outcome = patched_by(rt, case.words, file, patch)?;
    let before = cut_of(rt, file, case.whole)?;
    let after = cut_of(rt, outcome.store.store().contents(), case.whole)?;
    Ok(Whole {
        outcome,
        before,
        after,
    })
}

// What the file has after a run that was stopped: some of the writes, and of the next one what a failing call keeps.
fn left_by(
    alloc: Global,
    file: &[u8],
    whole: &Whole,
    outcome: &Amended,
    keep: usize,
) -> Result<Vec<u8>, AllocError> {
    let all = whole.outcome.store.store().writes();
    let made = outcome.store.store().writes().len();
    let mut now = written(alloc, file, all, made)?;
    if outcome.status.number() == 5 && made < all.len() {
        let next = &all[made];
        let kept = &next.bytes()[..keep.min(next.bytes().len())];
        let end = (next.at() as usize).saturating_add(kept.len());
        if !kept.is_empty() && end > now.len() {
            now.resize(end, 0)?;
        }
        put(&mut now, next.at() as usize, kept);
    }
    Ok(now)
}

// The line that a status has here, if a call that failed may end with it.
fn line_of(number: u32, failing: Failing) -> &'static [u8] {
    match (number, failing) {
        (4, _) => b"read fault\n",
        (5, Failing::File { .. }) => b"write fault\n",
        _ => b"",
    }
}

// Whether a run that was stopped tells so in a line, and left only what it may have written.
fn is_stopped(
    alloc: Global,
    file: &[u8],
    whole: &Whole,
    outcome: &Amended,
    failing: Failing,
) -> Result<bool, AllocError> {
    let keep = match failing {
        Failing::File { keep } => keep as usize,
        Failing::Patch => 0,
    };
    let line = line_of(outcome.status.number(), failing);
    let left = left_by(alloc, file, whole, outcome, keep)?;
    Ok(
        outcome.live == 0
            && !line.is_empty()
            && outcome.text.contents() == line
            && are_first(
                outcome.store.store().writes(),
                whole.outcome.store.store().writes(),
            )
            && outcome.store.store().contents() == &left[..],
    )
}

// Whether a cut of what it left finds each tile with its old pixels or its new ones, and all with their old ones while no row was
// written. Of a write that kept a part nothing is said.
fn is_safe<R: Threads + Sync + AllocGlobal>(
    rt: &R,
    case: &Case,
    whole: &Whole,
    outcome: &Amended,
    failing: Failing,
) -> Result<bool, AllocError> {
    if let Failing::File { keep: 1.. } = failing {
        return Ok(true);
    }
    let pixels = cut_of(rt, outcome.store.store().contents(), case.whole)?;
    let old = !outcome.store.store().writes().iter().any(is_row);
    Ok(
        !pixels.is_empty()
            && pixels.len() == whole.before.len()
            && has_tiles(case, &pixels, &whole.before, &whole.after, old),
    )
}

// The conditions under which this call fails.
fn conditions(alloc: Global, failing: Failing, call: u32) -> Result<Conditions, AllocError> {
    let mut on = Conditions::free(alloc)?;
    match failing {
        Failing::File { keep } => {
            on.store = call;
            on.keep = keep;
        }
        Failing::Patch => on.source = call,
    }
    Ok(on)
}

// Lets one call fail, then the next one, and so on, until a run ends as if none failed.
fn assert_stops<R: Threads + Sync + AllocGlobal + Abort>(
    rt: &R,
    case: &Case,
    failing: Failing,
) -> Result<(), Fail> {
    let file = changed(rt.alloc(), case.file, &case.change)?;
    let patch = file_of(rt.alloc(), case.patch)?;
    let whole = whole_run(rt, case, &file, &patch)?;
    let mut done = false;
    for call in 0..CALLS {
        let on = conditions(rt.alloc(), failing, call)?;
        let outcome = patched_on(rt, case.words, &file, &patch, &on)?;
        if outcome.status.number() == 0 {
            done = outcome.store.store().contents() == whole.outcome.store.store().contents();
            break;
        }
        let is_right = is_stopped(rt.alloc(), &file, &whole, &outcome, failing)?
            && is_safe(rt, case, &whole, &outcome, failing)?;
        holds(rt, is_right);
    }
    holds(rt, done && whole.outcome.status.number() == 0);
    Ok(())
}

#[test]
fn calls_of_the_file_fail_in_turn(rt: HostRuntime) -> Result<(), Fail> {
    for case in &CASES {
        assert_stops(&rt, case, Failing::File { keep: 0 })?;
    }
    Ok(())
}

// Calls that fail after they wrote a part.
#[test]
fn writes_fail_in_their_middle(rt: HostRuntime) -> Result<(), Fail> {
    for case in &CASES {
        assert_stops(&rt, case, Failing::File { keep: 1 })?;
        assert_stops(&rt, case, Failing::File { keep: 7 })?;
    }
    Ok(())
}

#[test]
fn calls_of_the_patch_fail_in_turn(rt: HostRuntime) -> Result<(), Fail> {
    for case in &CASES {
        assert_stops(&rt, case, Failing::Patch)?;
    }
    Ok(())
}
