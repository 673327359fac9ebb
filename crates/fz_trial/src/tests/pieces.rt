//! A view that is read at odd places: byte by byte, and in pieces that end in a pixel, a line, a header or an HDU.
ghost use Rattle.std.specs.Prelude.{◌≤◌, IfSome};

use crate::tests::alike::holds;
use crate::tests::files::{Case, file_of};
use crate::tests::{grids, headers, others, records, small};
use fz_base::{FixedSource, FreeGate, Meter, Source};
use fz_block::Axes;
use fz_look::look;
use fz_pool::Window;
use fz_retile::PlainView;
use std::alloc::AllocError;
use std::process::Abort;
use std::snapshot::Snapshot;
use std::test::Fail;
use std::thread::Threads;

// Tiles of 2 by 2 pixels, or none.
fn asked_for(squares: bool) -> Option<Axes>
    ensures { IfSome result (λ asked. asked.n ≤ 9) }
{
    if squares {
        Some(Axes {
            n: 2,
            len: [2, 2, 0, 0, 0, 0, 0, 0, 0],
        })
    } else {
        None
    }
}

// The plain bytes, read in pieces of so many bytes, the last of which may be shorter; the tiles that are asked for only change how they are
// decoded.
fn read_in_pieces<R: Threads + Sync + AllocGlobal + Abort>(
    rt: &R,
    packed: &[u8],
    squares: bool,
    piece: usize,
) -> Result<Vec<u8>, Fail> {
    let alloc = rt.alloc();
    let held = packed.to_vec(alloc)?;
    assert!(rt; held.len() <= 1 << 32);
    let mut source = FixedSource::new(held);
    let mut meter = Meter::new(alloc, 1 << 40);
    let length = source.attach("IN")?;
    let mut window = Window::new(alloc, 1).map_err(|_| AllocError)?;
    let start = Snapshot::of(&source);
    let looked = look(rt, &mut source, length, &mut meter, &mut window, &FreeGate)?;
    let mut bytes = vec![in alloc; 0u8; looked.plain_len as usize]?;
    let mut view = PlainView::new(&mut source, start, length, looked, asked_for(squares));
    for i in 0..bytes.len() {
        let at = i.saturating_mul(piece).min(bytes.len());
        let end = at.saturating_add(piece).min(bytes.len());
        if at >= end || end as u64 > view.length() {
            break;
        }
        if view.read_at(at as u64, &mut bytes[at..end]).is_err() {
            break;
        }
    }
    // No clause of `read_at` says that the buffers are as long as before, which `close` would want.
    let PlainView {
        inner: _,
        start: _,
        length: _,
        plain_len: _,
        survey: _,
        first: _,
        asked: _,
        space: _space,
        here: _,
        boxed: _,
        more: _,
        later: _,
        failed: _,
    } = view;
    Ok(bytes)
}

#[test]
fn reads_the_plain_file_in_pieces(rt: HostRuntime) -> Result<(), Fail> {
    let lists: [&[Case<'static>]; 5] = [
        &small::CASES,
        &grids::CASES,
        &records::CASES,
        &headers::CASES,
        &others::CASES,
    ];
    for cases in lists {
        for case in cases {
            let packed = file_of(rt.alloc(), case.packed)?;
            let plain = file_of(rt.alloc(), case.plain)?;
            for (piece, squares) in [(1, false), (7, true), (2881, false), (100_000, true)] {
                let bytes = read_in_pieces(&rt, &packed, squares, piece)?;
                holds(&rt, bytes.as_slice() == plain.as_slice());
            }
        }
    }
    Ok(())
}
