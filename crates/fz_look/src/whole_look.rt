//! The look at a packed file: all checks of headers, then all buffers, and then all rows.
ghost use Rattle.std.specs.Prelude.{◌≡◌, ◌+◌, ◌-◌, ◌*◌, ◌<◌, ◌≤◌, max, [], Some, length as len, replicate, sum, IfErr, IfOk, IfSome, OnErr, OnOk};
ghost use Rattle.fz_base.specs.Counts.{uncounted};
ghost use Rattle.fz_base.specs.Ranges.{LogsIn};
ghost use Rattle.fz_base.specs.Stop.{IfRefused, TellsLimit};
ghost use Rattle.fz_base.specs.Takings.{TellsFirstPast, highest, piled};
ghost use Rattle.fz_base.specs.declared.failure.Stop.TheVariants.{NoMemory as WantsMemory};
ghost use Rattle.fz_files.specs.Buffers.{file_takings, job_bound};
ghost use Rattle.fz_files.specs.Touched.{touched_by};
ghost use Rattle.fz_files.specs.declared.job.Job.TheVariants.{Unpack};
ghost use Rattle.fz_job.specs.Clauses.{greatest_bound};
ghost use Rattle.fz_pool.specs.Window.{IsEmpty, slot_sizes};
ghost use Rattle.fz_job.specs.Workspace.{held_bytes, wanted_buffers};
ghost use Rattle.fz_job.specs.Hdus.{ReadsHdus};
ghost use Rattle.fz_base.specs.Keeps.{SourceStays};
ghost use Rattle.fz_job.specs.Stages.{Works, later_takings, wants_for};
ghost use Rattle.fz_look.specs.Found.{HasFoundRoom, IsSoundFound, found_after, looked_with};
ghost use Rattle.fz_look.specs.Looked.{IsFaultAmong, IsLooked, IsLookFault, IsSeen, IsSoundLook, band_bytes};
ghost use Rattle.fz_look.specs.Looks.{HasLookCause, KeepsLookBuffers};

use crate::hdus::{Seen, look_at_hdus};
use crate::looked::{Looked, Space};
use fz_base::{Bytes, Gate, Meter, NoMemory, Numbers, Source, Stop, ranges_law};
use fz_block::BLOCK_LEN;
use fz_job::{
    Survey, Wants, Workspace, hdus_law, headers_law, known_law, stages_law, survey_to_unpack,
};
use fz_laws::first_fault_law;
use fz_pool::{Crew, Window, sizes_law};
use std::thread::Threads;

/// The most bytes of the buffer that has the pixels of a box.
const MOST_BAND: u64 = 1 << 24;

/// Makes all checks of `unpack` of the file that is attached to the source, decodes every tile of it, and counts the bytes
/// of the file that it stands for. The buffers are those of `unpack`; those of the window go back, and the others, with
/// some that are no larger, are left to a view.
///
/// Refused: as `survey_to_unpack` refuses the file; the lowest faulty row of the first packed image that has one, as
/// `fetch_tiles` refuses it; the file stands for one of more than 2^62 bytes (Limit, with the number of its HDUs, at its
/// end).
pub fn look<R: Threads + Sync, S: Source, G: Gate>(
    rt: &R,
    source: &mut S,
    length: u64,
    meter: &mut Meter,
    window: &mut Window,
    gate: &G,
) -> Result<Looked, Stop>
    requires attached { S.attached source.old ≡ Some length }
    requires nothing_live { meter.old.live ≡ 0 }
    requires window { IsEmpty window.old }
    ensures looked { IfOk result (λ l. IfSome (S.held source.old) (λ g. IsLooked g l)) }
    ensures sound { IfOk result (IsSoundLook length) }
    ensures first_fault { IfRefused result (λ x. IfSome (S.held source.old) (λ g. IsLookFault g x)) }
    ensures cause { HasLookCause (S.held source.old) (S.tally source.old) (S.tally source.new) meter.old.limit window.old.workers result }
    ensures buffers { KeepsLookBuffers (S.held source.old) meter.old meter.new window.old window.new result }
    ensures source { SourceStays S.held S.attached S.ranges source.old source.new }
    // Every byte that is read is one that `unpack` may read.
    ensures touched { IfSome (S.held source.old) (λ g. LogsIn (touched_by Unpack g) (S.ranges source.old) (S.ranges source.new)) }
    ensures exact_peak { OnOk result (IfSome (S.held source.old)
        (λ g. meter.new.peak ≡ max meter.old.peak (highest (file_takings Unpack g window.old.workers)))) }
    ensures unread { meter.old.limit < 2880 → S.ranges source.new ≡ S.ranges source.old }
{
    // How the promises of the look follow from its stages.
    stages_law::<Looked>();
    let crew = Crew {
        rt,
        gate,
        workers: window.workers(),
    };
    let mut block = meter.bytes(BLOCK_LEN as u64)?;
    let answer = with_block(&crew, source, length, meter, window, block.as_mut_slice());
    match answer {
        Ok(found) => Ok(Looked {
            plain_len: found.seen.plain_len,
            survey: found.survey,
            first: found.seen.first,
            space: Space {
                block,
                header: found.header,
                translated: found.translated,
                numbers: found.numbers,
                code: found.code,
                band: found.band,
            },
        }),
        Err(stop) => {
            meter.give_bytes(block);
            Err(stop)
        }
    }
}

/// What was learnt, and the buffers of a view but the block.
#[derive(Drop)]
pub(crate) struct Found {
    pub(crate) survey: Survey,
    pub(crate) seen: Seen,
    pub(crate) header: Bytes,
    pub(crate) translated: Bytes,
    pub(crate) numbers: Numbers,
    pub(crate) code: Bytes,
    pub(crate) band: Bytes,
}

// Looks at the headers, and then at the rows.
fn with_block<R: Threads + Sync, S: Source, G: Gate>(
    crew: &Crew<'_, R, G>,
    source: &mut S,
    length: u64,
    meter: &mut Meter,
    window: &mut Window,
    block: &mut [u8],
) -> Result<Found, Stop>
    requires attached { S.attached source.old ≡ Some length }
    requires one_block { meter.old.live ≡ 2880 }
    requires window { IsEmpty window.old }
    requires block { len block.old ≡ 2880 }
    ensures looked { IfOk result (λ f. IfSome (S.held source.old) (λ g. IsLooked g (looked_with f block.new))) }
    ensures sound { IfOk result (λ f. IsSoundLook length (looked_with f block.new)) }
    ensures first_fault { IfRefused result (λ x. IfSome (S.held source.old) (λ g. IsLookFault g x)) }
    ensures first_past { IfSome (S.held source.old) (λ g. TellsFirstPast meter.old.limit (later_takings Unpack g window.old.workers) result) }
    ensures peak { IfSome (S.held source.old) (λ g. meter.new.peak ≤ max meter.old.peak (job_bound Unpack g window.old.workers)) }
    ensures exact_peak { OnOk result (IfSome (S.held source.old)
        (λ g. meter.new.peak ≡ max meter.old.peak (highest (later_takings Unpack g window.old.workers)))) }
    ensures most { TellsLimit meter.old.limit (greatest_bound Unpack window.old.workers) result }
    ensures peak_most { meter.new.peak ≤ max meter.old.peak (greatest_bound Unpack window.old.workers) }
    ensures live { meter.new.live ≡ meter.old.live + found_after result }
    ensures emptied { window.new ≡ record { slots = []; workers = window.old.workers } }
    ensures block { len block.new ≡ 2880 }
    ensures stays { SourceStays S.held S.attached S.ranges source.old source.new × (meter.new.limit ≡ meter.old.limit) }
    ensures touched { IfSome (S.held source.old) (λ g. LogsIn (touched_by Unpack g) (S.ranges source.old) (S.ranges source.new)) }
    // A look writes nothing.
    ensures cause { Works (S.tally source.old) (S.tally source.new) uncounted uncounted meter.old.limit result }
{
    // What the survey reads and says of the file, and what follows from it for the look.
    first_fault_law();
    hdus_law();
    headers_law();
    known_law();
    ranges_law();
    stages_law::<Found>();
    let survey = survey_to_unpack(source, length, meter, block)?;
    with_survey(crew, source, length, meter, window, &survey)
}

// Takes all buffers of `unpack`, looks at the rows, and exchanges the buffers for those of a view.
fn with_survey<R: Threads + Sync, S: Source, G: Gate>(
    crew: &Crew<'_, R, G>,
    source: &mut S,
    length: u64,
    meter: &mut Meter,
    window: &mut Window,
    survey: &Survey,
) -> Result<Found, Stop>
    requires attached { S.attached source.old ≡ Some length }
    requires window { IsEmpty window.old }
    requires some { 0 < survey.now.hdus }
    requires few { survey.now.hdus ≤ 65536 }
    requires long { 2880 ≤ survey.now.header_len }
    ensures seen { IfOk result (λ f. IfSome (S.held source.old) (λ g. IsSeen g survey.now f.seen)) }
    ensures sound { IfOk result (λ f. (f.survey ≡ survey.now) × IsSoundFound length f) }
    ensures fault { IfRefused result (λ x. IfSome (S.held source.old) (λ g. IsFaultAmong g survey.now x)) }
    ensures first_past { TellsFirstPast meter.old.limit
        (piled meter.old.live (wanted_buffers (wants_for Unpack survey.now) window.old.workers)) result }
    ensures peak { meter.new.peak ≤ max meter.old.peak (meter.old.live + sum (wanted_buffers (wants_for Unpack survey.now) window.old.workers)) }
    ensures exact_peak { OnOk result (meter.new.peak ≡ max meter.old.peak
        (meter.old.live + sum (wanted_buffers (wants_for Unpack survey.now) window.old.workers))) }
    ensures live { meter.new.live ≡ meter.old.live + found_after result }
    ensures emptied { window.new ≡ record { slots = []; workers = window.old.workers } }
    ensures stays { SourceStays S.held S.attached S.ranges source.old source.new × (meter.new.limit ≡ meter.old.limit) }
    ensures read { IfSome (S.held source.old) (λ g. ReadsHdus Unpack g survey.now (S.ranges source.old) (S.ranges source.new)) }
    ensures cause { Works (S.tally source.old) (S.tally source.new) uncounted uncounted meter.old.limit result }
{
    // How long the slots are that were filled, and that what was taken comes back.
    sizes_law();
    stages_law::<Found>();
    let wants = Wants {
        header_len: survey.header_len,
        translates: true,
        tile: Some(survey.tile),
    };
    let mut space = Workspace::take(meter, window, &wants)?;
    match look_at_hdus(crew, source, length, window, survey, &mut space) {
        Ok(seen) => exchange(meter, window, survey, &seen, space),
        Err(stop) => {
            space.give_back(meter, window);
            Err(stop)
        }
    }
}

// Gives back the slots and the copy buffer, and takes the numbers and the code of one tile, and the band: together no more
// bytes, so that no limit is passed.
fn exchange(
    meter: &mut Meter,
    window: &mut Window,
    survey: &Survey,
    seen: &Seen,
    space: Workspace,
) -> Result<Found, Stop>
    requires live { held_bytes space window.old ≤ meter.old.live }
    requires slots { slot_sizes window.old.slots ≡ replicate (2 * window.old.workers) (2 * survey.now.tile, 8 * survey.now.tile + 64) }
    requires header { len space.header ≡ survey.now.header_len }
    requires translated { len space.translated ≡ survey.now.header_len + 2880 }
    requires copy { len space.copy ≡ 65536 }
    ensures found { IfOk result (λ f. (f.survey ≡ survey.now) × (f.seen ≡ seen.now) × HasFoundRoom survey.now.header_len survey.now.tile f) }
    ensures stop { IfErr result (λ stop. stop ≡ WantsMemory) }
    ensures live { meter.new.live ≡ (meter.old.live - held_bytes space window.old) + found_after result }
    ensures stays { (meter.new.limit ≡ meter.old.limit) × (meter.new.peak ≡ meter.old.peak) }
    ensures emptied { window.new ≡ record { slots = []; workers = window.old.workers } }
{
    let Workspace {
        header,
        translated,
        copy,
    } = space;
    // What was asked for the slots; and these calls say that what is live is at most the peak, and that at most the limit.
    sizes_law();
    let (_live, _peak) = (meter.live(), meter.peak());
    meter.give_bytes(copy);
    window.empty(meter);
    let most = band_len(window.workers(), survey.tile, seen.data_len);
    match take_tile(meter, survey.tile, most) {
        Ok((numbers, code, band)) => Ok(Found {
            survey: *survey,
            seen: *seen,
            header,
            translated,
            numbers,
            code,
            band,
        }),
        Err(NoMemory) => {
            meter.give_bytes(translated);
            meter.give_bytes(header);
            Err(Stop::NoMemory)
        }
    }
}

// The bytes of the band: those of the slots but one and of the copy buffer, at most 2^24 and as many as the largest image has, and room for
// one pixel.
fn band_len(workers: u32, tile: u32, data_len: u64) -> u64
    requires workers { (1 ≤ workers) × (workers ≤ 64) }
    ensures len { result ≡ band_bytes workers tile data_len }
    ensures room { 8 ≤ result }
    ensures most { result ≤ (2 * workers - 1) * (16 * tile + 64) + 65536 }
{
    let slot = 16 * u64::from(tile) + 64;
    let room = (2 * u64::from(workers) - 1) * slot + 65_536;
    room.min(MOST_BAND).min(data_len).max(8)
}

// Takes the numbers and the code of a tile of so many pixels, and a band of so many bytes, which do not pass the limit: if one is
// not given, there is no memory.
fn take_tile(meter: &mut Meter, tile: u32, band: u64) -> Result<(Numbers, Bytes, Bytes), NoMemory>
    requires fits { meter.old.live + (16 * tile + 64) + band ≤ meter.old.limit }
    ensures lengths { IfOk result (λ t. (len t.0 ≡ 2 * tile) × (len t.1 ≡ 8 * tile + 64) × (len t.2 ≡ band)) }
    ensures taken { OnOk result (meter.new.live ≡ meter.old.live + (16 * tile + 64) + band) }
    ensures given { OnErr result (meter.new.live ≡ meter.old.live) }
    ensures limit { meter.new.limit ≡ meter.old.limit }
    ensures peak { meter.new.peak ≤ max meter.old.peak (meter.old.live + (16 * tile + 64) + band) }
    ensures no_lower { meter.old.peak ≤ meter.new.peak }
{
    let numbers = meter.numbers(2 * u64::from(tile)).map_err(|_| NoMemory)?;
    match take_bytes(meter, tile, band) {
        Ok((code, band)) => Ok((numbers, code, band)),
        Err(NoMemory) => {
            meter.give_numbers(numbers);
            Err(NoMemory)
        }
    }
}

// Takes the code of a tile of so many pixels, and a band of so many bytes, which do not pass the limit.
fn take_bytes(meter: &mut Meter, tile: u32, band: u64) -> Result<(Bytes, Bytes), NoMemory>
    requires fits { meter.old.live + (8 * tile + 64) + band ≤ meter.old.limit }
    ensures lengths { IfOk result (λ t. (len t.0 ≡ 8 * tile + 64) × (len t.1 ≡ band)) }
    ensures taken { OnOk result (meter.new.live ≡ meter.old.live + (8 * tile + 64) + band) }
    ensures given { OnErr result (meter.new.live ≡ meter.old.live) }
    ensures limit { meter.new.limit ≡ meter.old.limit }
    ensures peak { meter.new.peak ≤ max meter.old.peak (meter.old.live + (8 * tile + 64) + band) }
    ensures no_lower { meter.old.peak ≤ meter.new.peak }
{
    let code = meter.bytes(8 * u64::from(tile) + 64).map_err(|_| NoMemory)?;
    match meter.bytes(band) {
        Ok(band) => Ok((code, band)),
        Err(_) => {
            meter.give_bytes(code);
            Err(NoMemory)
        }
    }
}
