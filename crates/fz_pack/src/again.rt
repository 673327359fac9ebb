//! The header of an HDU, read once more.
ghost use Rattle.std.specs.Prelude.{◌≡◌, ◌⊎◌, ◌+◌, ◌*◌, ◌^◌, ◌≤◌, ◌<◌, ◌||◌, nat_lt, true, Bool, Some, codes, length as len, IfOk, IfSome};
ghost use Rattle.fz_base.specs.Keeps.{SourceStays};
ghost use Rattle.fz_base.specs.Source.{LogsWithin};
ghost use Rattle.fz_base.specs.Stop.{IfRefused, ReadsOnly};
ghost use Rattle.fz_block.specs.Cards.{card_at};
ghost use Rattle.fz_block.specs.Checks.{header_touched, is_set};
ghost use Rattle.fz_grid.specs.Region.{IsDivided};
ghost use Rattle.fz_head.specs.Planned.{AreOptions};
ghost use Rattle.fz_job.specs.Clauses.{IsChanged};
ghost use Rattle.fz_pack.specs.Again.{IsAgain, ReadsAsSeen, is_larger as is_larger_of, largest_of};

use crate::file::Packing;
use fz_base::{Source, Stop, log_law};
use fz_block::{BLOCK_LEN, Header, again_law, card, header_again};
use fz_card::Name;
use fz_checks::plan_to_pack;
use fz_grid::Grid;
use fz_head::Plan;
use fz_job::changed;

/// An HDU whose header was read once more, and how it is packed, if it is.
#[derive(Clone, Copy, Debug)]
pub(crate) struct Again {
    pub(crate) header: Header,
    pub(crate) plan: Option<Plan>,
}

/// Reads the header of an HDU once more, into the first bytes of a buffer, and makes its plan, whose tiles have
/// at most so many pixels.
///
/// Refused: only if the source gives other bytes than before, and then with BadCard at card 0 of the HDU.
pub(crate) fn read_again<R, S: Source, G>(
    asked: &Packing<'_, '_, R, G>,
    source: &mut S,
    hdu: u32,
    start: u64,
    tile: u32,
    buf: &mut [u8],
) -> Result<Again, Stop>
    requires attached { S.attached source.old ≡ Some asked.now.length }
    requires within { (start < asked.now.length) ⊎ ((hdu ≡ 0) × (start ≡ 0)) }
    requires room { 2880 ≤ len buf.old }
    requires options { AreOptions asked.now.options }
    ensures again { IfOk result (IsAgain asked.now.options (S.held source.old) asked.now.length buf.new) }
    ensures place { IfOk result (λ a. (a.header.hdu ≡ hdu) × (a.header.start ≡ start)) }
    ensures small { IfOk result (λ a. IfSome a.plan (λ p. largest_of p ≤ tile)) }
    ensures as_seen { IfSome (S.held source.old) (λ g. ReadsAsSeen asked.now.options g hdu start (len buf.old) tile result) }
    ensures refused { IfRefused result IsChanged }
    ensures stays { SourceStays S.held S.attached S.ranges source.old source.new × (len buf.new ≡ len buf.old) }
    ensures read { IfSome (S.held source.old) (λ g. LogsWithin start (header_touched hdu start g) (S.ranges source.old) (S.ranges source.new)) }
    ensures cause { ReadsOnly (S.tally source.old) (S.tally source.new) result }
{
    again_law();
    log_law();
    let header = match header_again(source, asked.length, hdu, start, buf) {
        Ok(header) => header,
        Err(Stop::Refused(_)) => return Err(changed(hdu)),
        Err(stop) => return Err(stop),
    };
    let buf = &buf[..BLOCK_LEN * header.blocks as usize];
    let plan = match plan_to_pack(buf, &header, &asked.options) {
        Ok(plan) => plan,
        Err(_) => return Err(changed(hdu)),
    };
    if is_larger(&plan, tile) || !begins_file(hdu, buf) {
        return Err(changed(hdu));
    }
    Ok(Again { header, plan })
}

// Whether the tiles have more pixels than those that were met before.
fn is_larger(plan: &Option<Plan>, tile: u32) -> bool
    requires { IfSome plan.now (λ p. IsDivided p.shape p.tile) }
    ensures { result ≡ is_larger_of tile plan.now }
{
    match plan {
        Some(plan) => Grid::new(plan.shape, plan.tile).largest() > tile,
        None => false,
    }
}

// Whether the header begins as that of this HDU: in HDU 0 with SIMPLE = T.
fn begins_file(hdu: u32, buf: &[u8]) -> bool
    requires { 80 ≤ len buf.now }
    ensures { result ≡ (nat_lt 0 hdu || is_set (codes "SIMPLE") (card_at buf.now 0)) }
{
    let first = card(buf, 0);
    hdu > 0 || (first.name() == Name::SIMPLE && first.logical().unwrap_or(false))
}
