//! Lists of lengths, and boxes.
ghost use Rattle.std.specs.Prelude.{◌≡◌, ◌≤◌, ◌<◌, ◌^◌, IfSome, Some};
ghost use Rattle.std.specs.Option.{option_copied, option_map};
ghost use Rattle.fz_head.specs.Planned.{IsTile};
ghost use Rattle.fz_files.specs.Picks.{HasPicks};
ghost use Rattle.fz_words.specs.Seen.{seen_range};
ghost use Rattle.fz_words.specs.Values.{box_in, lengths_in, range_in, step_in};

use crate::cut::cut;
use crate::number::length_in;
use fz_block::Axes;
use fz_grid::Sieve;

/// The most lengths of a list, and ranges of a box.
const MOST: usize = 9;

/// 1 to 9 lengths, joined by commas.
pub(crate) fn lengths_in(text: &str) -> Option<Axes>
    ensures value { result ≡ lengths_in text.now }
    ensures lawful { IfSome result (λ axes. IsTile (Some axes)) }
{
    let mut axes = Axes { n: 0, len: [0; 9] };
    let mut rest = Some(text);
    while let Some(pieces) = rest {
        let (piece, others) = cut(pieces, ',');
        let axis = axes.n as usize;
        if axis == MOST {
            return None;
        }
        axes.len[axis] = length_in(piece)?;
        axes.n += 1;
        rest = others;
    }
    Some(axes)
}

/// The ends and the step of a box along an axis, counted from 1.
#[derive(Clone, Copy)]
pub(crate) struct Range {
    lo: u32,
    hi: u32,
    step: u32,
}

/// 1 to 9 ranges, joined by commas: the sieve is counted from 0.
pub(crate) fn box_in(text: &str) -> Option<Sieve>
    ensures value { result ≡ box_in text.now }
    ensures lawful { IfSome result HasPicks }
{
    let mut sieve = Sieve {
        n: 0,
        lo: [0; 9],
        hi: [0; 9],
        step: [0; 9],
    };
    let mut rest = Some(text);
    while let Some(pieces) = rest {
        let (piece, others) = cut(pieces, ',');
        let axis = sieve.n as usize;
        if axis == MOST {
            return None;
        }
        let range = range_in(piece)?;
        sieve.lo[axis] = range.lo - 1;
        sieve.hi[axis] = range.hi - 1;
        sieve.step[axis] = range.step;
        sieve.n += 1;
        rest = others;
    }
    Some(sieve)
}

// `lo:hi` or `lo:hi:step`; a missing step is 1.
fn range_in(text: &str) -> Option<Range>
    ensures value { option_map seen_range result ≡ range_in text.now }
    ensures inside { IfSome result (λ r. (1 ≤ r.lo) × (r.lo ≤ r.hi) × (r.hi < 2 ^ 31) × (1 ≤ r.step)) }
{
    let (lo, others) = cut(text, ':');
    let (hi, step) = cut(others?, ':');
    let lo = length_in(lo)?;
    let hi = length_in(hi)?;
    let step = step_in(step)?;
    if lo <= hi {
        Some(Range { lo, hi, step })
    } else {
        None
    }
}

// The step, which is the last piece; 1 if there is none.
fn step_in(text: Option<&str>) -> Option<u32>
    ensures value { result ≡ step_in (option_copied text.entry) }
    ensures inside { IfSome result (λ step. 1 ≤ step) }
{
    let Some(text) = text else {
        return Some(1);
    };
    match cut(text, ':') {
        (step, None) => length_in(step),
        (_, Some(_)) => None,
    }
}
