//! The sums of an HDU.
ghost use Rattle.std.specs.Prelude.{ℕ, ◌≡◌, ◌+◌, ◌*◌, ◌<◌, ◌≤◌, ◌^◌, Some, length as len, IfOk, IfSome, OnOk};
ghost use Rattle.fz_base.specs.Keeps.{SourceStays};
ghost use Rattle.fz_base.specs.Source.{LogsWithin, Reads};
ghost use Rattle.fz_base.specs.Stop.{OnlyReads};
ghost use Rattle.fz_block.specs.Facts.{IsHeaderOf};
ghost use Rattle.fz_block.specs.Header.{data_start_of, next_start_of};
ghost use Rattle.fz_block.specs.Walk.{hdu_of};
ghost use Rattle.fz_sum.specs.Pieces.{nothing};
ghost use Rattle.fz_files.specs.Lines.{is_wrong as is_wrong_verdict};
ghost use Rattle.fz_verify.specs.Sums.{AreVerdictsOn, HasAdded};

use fz_base::{Source, Stop, log_law};
use fz_block::{Header, data_start, next_start};
use fz_sum::{Sum, Verdict, checksum_verdict, datasum_verdict, sum_law};

/// The verdicts on the sums of an HDU.
#[derive(Clone, Copy, Debug)]
pub(crate) struct Verdicts {
    pub(crate) datasum: Verdict,
    pub(crate) checksum: Verdict,
}

impl Verdicts {
    ghost use Rattle.std.specs.Prelude.{◌≡◌};
    ghost use Rattle.fz_verify.specs.Sums.{are_right};

    /// Whether no sum is wrong.
    pub(crate) fn are_right(&self) -> bool
        ensures { result ≡ are_right self.now }
    {
        !is_wrong(self.datasum) && !is_wrong(self.checksum)
    }
}

// Whether a verdict is that the sum is wrong.
fn is_wrong(verdict: Verdict) -> bool
    ensures { result ≡ is_wrong_verdict verdict }
{
    match verdict {
        Verdict::Absent | Verdict::Right => false,
        Verdict::Wrong => true,
    }
}

/// Judges the sums of an HDU, whose header is in `buf`: its data with their fill are read in pieces.
pub(crate) fn judge_sums<S: Source>(
    source: &mut S,
    header: &Header,
    buf: &[u8],
    copy: &mut [u8],
) -> Result<Verdicts, Stop>
    requires within { (n : ℕ) × (S.attached source.old ≡ Some n) × (next_start_of header.now ≤ n) }
    requires end { next_start_of header.now ≤ 2 ^ 62 }
    requires header { IsHeaderOf buf.now header.now }
    requires read { Reads (S.held source.old) header.now.start buf.now }
    requires copy { 0 < len copy.old }
    ensures verdicts { IfOk result (λ v. IfSome (S.held source.old) (λ g. AreVerdictsOn g header.now v)) }
    ensures stays { SourceStays S.held S.attached S.ranges source.old source.new × (len copy.new ≡ len copy.old) }
    ensures read { LogsWithin (data_start_of header.now) (next_start_of header.now) (S.ranges source.old) (S.ranges source.new) }
    ensures cause { OnlyReads (S.tally source.old) (S.tally source.new) result }
{
    sum_law();
    let mut sum = Sum::new();
    add_data(source, header, copy, &mut sum)?;
    let datasum = datasum_verdict(buf, header.cards, sum.value());
    // A header is whole words, so the bytes of the data have the same places in words after it.
    sum.add(0, buf);
    let checksum = checksum_verdict(buf, header.cards, sum.value());
    Ok(Verdicts { datasum, checksum })
}

// Adds the data of an HDU with their fill to a sum of nothing.
fn add_data<S: Source>(
    source: &mut S,
    header: &Header,
    copy: &mut [u8],
    sum: &mut Sum,
) -> Result<(), Stop>
    requires within { (n : ℕ) × (S.attached source.old ≡ Some n) × (next_start_of header.now ≤ n) }
    requires end { next_start_of header.now ≤ 2 ^ 62 }
    requires copy { 0 < len copy.old }
    requires sum { sum.old ≡ nothing }
    ensures added { OnOk result (IfSome (S.held source.old) (λ g. HasAdded (hdu_of g header.now).payload sum.new)) }
    ensures few { OnOk result (sum.new.count ≤ 2 ^ 62) }
    ensures stays { SourceStays S.held S.attached S.ranges source.old source.new × (len copy.new ≡ len copy.old) }
    ensures read { LogsWithin (data_start_of header.now) (next_start_of header.now) (S.ranges source.old) (S.ranges source.new) }
    ensures cause { OnlyReads (S.tally source.old) (S.tally source.new) result }
{
    log_law();
    sum_law();
    let from = data_start(header);
    let size = next_start(header) - from;
    let mut done = 0;
    while done < size {
        let count = (size - done).min(copy.len() as u64);
        let piece = &mut copy[..count as usize];
        source.read_at(from + done, piece).map_err(Stop::reading)?;
        sum.add(done, piece);
        done += count;
    }
    Ok(())
}
