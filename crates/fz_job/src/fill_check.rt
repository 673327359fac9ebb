//! The fill after the data of an image that is packed.
ghost use Rattle.std.specs.Prelude.{◌≡◌, ◌≤◌, ◌^◌, [], ◌∷◌, Some, length as len, IfSome};
ghost use Rattle.fz_base.specs.Keeps.{SourceStays};
ghost use Rattle.fz_base.specs.Refusal.{first_refusal};
ghost use Rattle.fz_base.specs.Source.{LogsWithin};
ghost use Rattle.fz_base.specs.Stop.{ReadsOnly, IsDefined};
ghost use Rattle.fz_block.specs.Checks.{unless_refused};
ghost use Rattle.fz_block.specs.Header.{next_start_of};
ghost use Rattle.fz_checks.specs.JobChecks.{data_end_of, data_fill, fill_in};

use fz_base::{Source, Stop, log_law};
use fz_block::{Header, data_start, next_start};
use fz_checks::fill_check;

/// Reads the fill after the data into the block, and checks that it is zeros (FITS 4.0, section 3.3.2).
pub(crate) fn check_fill<S: Source>(
    source: &mut S,
    length: u64,
    header: &Header,
    block: &mut [u8],
) -> Result<(), Stop>
    requires attached { S.attached source.old ≡ Some length }
    requires within { (next_start_of header.now ≤ length) × (next_start_of header.now ≤ 2 ^ 62) }
    requires block { len block.old ≡ 2880 }
    ensures exact { IfSome (S.held source.old) (λ g. IsDefined
        (unless_refused tt (first_refusal (data_fill header.now (fill_in g header.now) ∷ []))) result) }
    ensures log { LogsWithin (data_end_of header.now) (next_start_of header.now) (S.ranges source.old) (S.ranges source.new) }
    ensures source { SourceStays S.held S.attached S.ranges source.old source.new }
    ensures cause { ReadsOnly (S.tally source.old) (S.tally source.new) result }
{
    let data_end = data_start(header) + header.data_len;
    let fill_len = (next_start(header) - data_end) as usize;
    if fill_len == 0 {
        return Ok(());
    }
    log_law();
    let fill = &mut block[..fill_len];
    source.read_at(data_end, fill).map_err(Stop::reading)?;
    fill_check(header, fill).map_err(Stop::Refused)
}
