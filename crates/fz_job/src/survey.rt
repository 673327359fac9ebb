//! The walk over the HDUs of a file, with the checks of a job, and what it learns.
ghost use Rattle.std.specs.Prelude.{◌≡◌, ◌⊎◌, ◌==◌, ◌&&◌, ◌||◌, ◌+◌, ◌-◌, ◌^◌, ◌<◌, ◌≤◌, max, Some, length as len, IfOk, IfSome, OnErr, OnOk};
ghost use Rattle.fz_base.specs.Keeps.{SourceStays};
ghost use Rattle.fz_base.specs.Source.{LogsOnly};
ghost use Rattle.fz_base.specs.Stop.{ReadsAndTakes, IsDefined, TellsLimit};
ghost use Rattle.fz_base.specs.Takings.{TellsFirstPast, highest};
ghost use Rattle.fz_block.specs.Checks.{header_blocks_of};
ghost use Rattle.fz_block.specs.Hdus.{size_at};
ghost use Rattle.fz_block.specs.Header.{next_start_of};
ghost use Rattle.fz_block.specs.Takings.{header_taking};
ghost use Rattle.fz_job.specs.Judges.{AreChecks, most_hdus as most_hdus_of};
ghost use Rattle.fz_job.specs.Looks.{IsLooked, first_primary, found_in, joined, looked};
ghost use Rattle.fz_job.specs.SurveyReads.{IsWithinOne};
ghost use Rattle.fz_job.specs.Surveys.{IsSurvey, hdu_places, headers_taken, surveyed, survey_takings, survey_places};

use crate::checks::JobChecks;
use crate::look::{Looked, check_hdu};
use fz_base::{Bytes, Fault, Kind, Meter, Place, Source, Stop, takings_law};
use fz_block::{BLOCK_LEN, Header, header_into, next_start};

/// The room for headers at first.
const ROOM_LEN: u64 = 22 * BLOCK_LEN as u64;

/// What the first look of a job learns of a file.
#[derive(Clone, Copy, Debug, PartialEq, Eq)]
pub struct Survey {
    /// How many HDUs the job looked at.
    pub hdus: u32,
    /// The bytes of the longest header among them.
    pub header_len: u32,
    /// The pixels of the largest tile among the HDUs whose tiles the job works on, or 0.
    pub tile: u32,
    /// The byte at which HDU 1 begins, if it is a packed primary and the job makes the checks of `unpack`: the primary before it
    /// then stands for nothing.
    pub packed_primary: Option<u64>,
    /// The header of the HDU at which the job stopped, which is the last that it looked at; none if it
    /// looked at all.
    pub stopped: Option<Header>,
}

/// Where an HDU begins, and what was before it.
#[derive(Clone, Copy, Debug)]
pub struct Begun {
    /// Its number.
    pub hdu: u32,
    /// Its first byte in the file.
    pub start: u64,
    /// Whether it is HDU 1 after a primary with NAXIS 0.
    pub after_empty: bool,
}

/// Goes over the HDUs of a file: for each it makes the checks that every job makes, then those of this job,
/// and then goes to the next one, unless the job stops there. Each header is read once, into room for it from the meter: 22
/// blocks, or as many as the longest header so far if it has more. A header that there is no room for is read once more. The
/// room goes back at the end. The fill after an image that is packed is read into the block.
///
/// Refused: an HDU as `header_into` and then the job refuse it; the file has more HDUs than it may (Limit).
pub fn survey_headers<S: Source>(
    source: &mut S,
    length: u64,
    meter: &mut Meter,
    block: &mut [u8],
    checks: &JobChecks,
) -> Result<Survey, Stop>
    requires attached { S.attached source.old ≡ Some length }
    requires block { len block.old ≡ 2880 }
    requires checks { AreChecks checks.now }
    ensures exact { IfSome (S.held source.old) (λ g. IsDefined (surveyed checks.now g) result) }
    ensures survey { IfOk result (IsSurvey checks.now length) }
    ensures primary { IfOk result (λ s. IfSome s.packed_primary (λ start. (start < length) × (start ≤ 2 ^ 62))) }
    ensures risen { meter.old.peak ≤ meter.new.peak }
    ensures first_past { IfSome (S.held source.old) (λ g. TellsFirstPast meter.old.limit (survey_takings checks.now meter.old.live g) result) }
    ensures peak { IfSome (S.held source.old) (λ g. meter.new.peak ≤ max meter.old.peak (highest (survey_takings checks.now meter.old.live g))) }
    ensures exact_peak { OnOk result (IfSome (S.held source.old)
        (λ g. meter.new.peak ≡ max meter.old.peak (highest (survey_takings checks.now meter.old.live g)))) }
    ensures most { TellsLimit meter.old.limit (meter.old.live + 737280) result }
    ensures peak_most { meter.new.peak ≤ max meter.old.peak (meter.old.live + 737280) }
    ensures touched { IfSome (S.held source.old) (λ g. LogsOnly (IsWithinOne (survey_places checks.now g)) (S.ranges source.old)
        (S.ranges source.new)) }
    ensures stays { SourceStays S.held S.attached S.ranges source.old source.new × (meter.new.live ≡ meter.old.live)
        × (meter.new.limit ≡ meter.old.limit) }
    ensures cause { ReadsAndTakes (S.tally source.old) (S.tally source.new) meter.old.limit result }
{
    let room = meter.bytes(ROOM_LEN)?;
    walk_headers(source, length, meter, block, room, checks)
}

// The walk over the HDUs, with room for a header, which is handed back.
fn walk_headers<S: Source>(
    source: &mut S,
    length: u64,
    meter: &mut Meter,
    block: &mut [u8],
    mut room: Bytes,
    checks: &JobChecks,
) -> Result<Survey, Stop>
    requires attached { S.attached source.old ≡ Some length }
    requires block { len block.old ≡ 2880 }
    requires checks { AreChecks checks.now }
    requires room { (2880 ≤ len room) × (len room ≤ meter.old.live) }
    ensures exact { IfSome (S.held source.old) (λ g. IsDefined (surveyed checks.now g) result) }
    ensures survey { IfOk result (IsSurvey checks.now length) }
    ensures primary { IfOk result (λ s. IfSome s.packed_primary (λ start. (start < length) × (start ≤ 2 ^ 62))) }
    ensures risen { meter.old.peak ≤ meter.new.peak }
    ensures first_past { IfSome (S.held source.old) (λ g. TellsFirstPast meter.old.limit (headers_taken checks.now (meter.old.live - len room) g) result) }
    ensures peak { IfSome (S.held source.old) (λ g. meter.new.peak ≤ max meter.old.peak (highest (headers_taken checks.now (meter.old.live - len room) g))) }
    ensures exact_peak { OnOk result (IfSome (S.held source.old)
        (λ g. meter.new.peak ≡ max meter.old.peak (highest (headers_taken checks.now (meter.old.live - len room) g)))) }
    ensures most { TellsLimit meter.old.limit (meter.old.live - len room + 737280) result }
    ensures peak_most { meter.new.peak ≤ max meter.old.peak (meter.old.live - len room + 737280) }
    ensures touched { IfSome (S.held source.old) (λ g. LogsOnly (IsWithinOne (survey_places checks.now g)) (S.ranges source.old)
        (S.ranges source.new)) }
    ensures stays { SourceStays S.held S.attached S.ranges source.old source.new × (meter.new.live ≡ meter.old.live - len room)
        × (meter.new.limit ≡ meter.old.limit) }
    ensures cause { ReadsAndTakes (S.tally source.old) (S.tally source.new) meter.old.limit result }
{
    // The taking of an HDU, and then those after it.
    takings_law();
    let mut seen = Survey {
        hdus: 0,
        header_len: 0,
        tile: 0,
        packed_primary: None,
        stopped: None,
    };
    let mut start = 0;
    let mut empty = false;
    let most = most_hdus(checks);
    for hdu in 0..most {
        let after_empty = is_after(hdu, empty);
        let begun = Begun {
            hdu,
            start,
            after_empty,
        };
        let looked = look_at(source, length, begun, meter, block, room, checks)?;
        room = looked.room;
        let found = looked.found;
        seen = with_hdu(&seen, &found);
        if is_last(&found, length) {
            meter.give_bytes(room);
            return Ok(seen);
        }
        empty = found.header.axes.n == 0;
        start = next_start(&found.header);
    }
    meter.give_bytes(room);
    Err(Stop::Refused(Fault {
        hdu: most,
        at: Place::Byte(start),
        kind: Kind::Limit,
    }))
}

// Whether this is HDU 1 after an empty one.
fn is_after(hdu: u32, empty: bool) -> bool
    ensures { result ≡ ((hdu == 1) && empty) }
{
    hdu == 1 && empty
}

// Whether the job looks at no HDU after this one: it stops, or the file ends.
fn is_last(found: &Looked, length: u64) -> bool
    requires { next_start_of found.now.header ≤ 2 ^ 62 }
    ensures { result ≡ (found.now.look.stop || next_start_of found.now.header == length) }
{
    found.look.stop || next_start(&found.header) == length
}

// An HDU that was looked at, and the room for the next header.
#[derive(Drop)]
pub(crate) struct LookedAt {
    pub(crate) found: Looked,
    pub(crate) room: Bytes,
}

// Makes the checks of every job for the HDU that begins here, and then those of this job. After an error the room is handed
// back.
fn look_at<S: Source>(
    source: &mut S,
    length: u64,
    begun: Begun,
    meter: &mut Meter,
    block: &mut [u8],
    room: Bytes,
    checks: &JobChecks,
) -> Result<LookedAt, Stop>
    requires attached { S.attached source.old ≡ Some length }
    requires within { (begun.start < length) ⊎ ((begun.hdu ≡ 0) × (begun.start ≡ 0)) }
    requires block { len block.old ≡ 2880 }
    requires room { (2880 ≤ len room) × (len room ≤ meter.old.live) }
    requires checks { AreChecks checks.now }
    requires after { IfSome (S.held source.old) (λ g. begun.after_empty ≡ ((begun.hdu == 1) && (size_at g 2 == 0))) }
    ensures exact { IfSome (S.held source.old) (λ g. IsDefined (looked checks.now begun.hdu begun.start g) (found_in result)) }
    ensures found { IfOk result (λ x. IsLooked length x.found) }
    ensures empty { IfOk result (λ x. IfSome (S.held source.old) (λ g. begun.hdu ≡ 0 → begun.start ≡ 0 → x.found.header.axes.n ≡ size_at g 2)) }
    ensures room { IfOk result (λ x. (2880 ≤ len x.room) × (len x.room ≤ meter.new.live) × (meter.new.live - len x.room ≡ meter.old.live - len room)) }
    ensures given { OnErr result (meter.new.live ≡ meter.old.live - len room) }
    ensures len { len block.new ≡ 2880 }
    ensures risen { meter.old.peak ≤ meter.new.peak }
    ensures first_past { IfSome (S.held source.old) (λ g. TellsFirstPast meter.old.limit
        (header_taking (meter.old.live - len room) (header_blocks_of begun.hdu begun.start g)) result) }
    ensures peak { IfSome (S.held source.old) (λ g. meter.new.peak ≤ max meter.old.peak
        (highest (header_taking (meter.old.live - len room) (header_blocks_of begun.hdu begun.start g)))) }
    ensures exact_peak { OnOk result (IfSome (S.held source.old) (λ g. meter.new.peak ≡ max meter.old.peak
        (highest (header_taking (meter.old.live - len room) (header_blocks_of begun.hdu begun.start g))))) }
    ensures most { TellsLimit meter.old.limit (meter.old.live - len room + 737280) result }
    ensures peak_most { meter.new.peak ≤ max meter.old.peak (meter.old.live - len room + 737280) }
    ensures touched { IfSome (S.held source.old) (λ g. LogsOnly (IsWithinOne (hdu_places checks.now begun.hdu begun.start g))
        (S.ranges source.old) (S.ranges source.new)) }
    ensures stays { SourceStays S.held S.attached S.ranges source.old source.new × (meter.new.limit ≡ meter.old.limit) }
    ensures cause { ReadsAndTakes (S.tally source.old) (S.tally source.new) meter.old.limit result }
{
    let read = header_into(source, length, begun.hdu, begun.start, meter, room)?;
    let header = read.facts;
    let buf = &read.bytes.as_slice()[..BLOCK_LEN * header.blocks as usize];
    let after_empty = begun.after_empty;
    match check_hdu(source, length, checks, &header, buf, after_empty, block) {
        Ok(look) => Ok(LookedAt {
            found: Looked { header, look },
            room: read.bytes,
        }),
        Err(stop) => {
            meter.give_bytes(read.bytes);
            Err(stop)
        }
    }
}

// What is learnt of the HDUs before, at none of which the job stopped, and of the next one.
fn with_hdu(seen: &Survey, found: &Looked) -> Survey
    requires few { seen.now.hdus < 65536 }
    requires blocks { found.now.header.blocks ≤ 256 }
    ensures { result ≡ joined seen.now found.now }
{
    Survey {
        hdus: seen.hdus + 1,
        header_len: seen.header_len.max(BLOCK_LEN as u32 * found.header.blocks),
        tile: seen.tile.max(found.look.tile),
        packed_primary: primary_start(seen.packed_primary, found),
        stopped: if found.look.stop {
            Some(found.header)
        } else {
            None
        },
    }
}

// Where a packed primary begins: it is one of the HDUs before, or the next one.
fn primary_start(before: Option<u64>, found: &Looked) -> Option<u64>
    ensures { result ≡ first_primary before found.now.header found.now.look.primary }
{
    match before {
        Some(start) => Some(start),
        None => {
            if found.look.primary {
                Some(found.header.start)
            } else {
                None
            }
        }
    }
}

// How many HDUs a file may have.
fn most_hdus(checks: &JobChecks) -> u32
    ensures { result ≡ most_hdus_of checks.now }
{
    match checks {
        JobChecks::Pack(_) => 65_535,
        JobChecks::Unpack => 65_536,
        JobChecks::Cut { .. } => 65_536,
        JobChecks::Amend { .. } => 65_536,
        JobChecks::Every => 65_536,
    }
}
