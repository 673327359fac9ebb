//! The buffers of a job, taken at once after its first look.
ghost use Rattle.std.specs.Prelude.{◌≡◌, ◌+◌, ◌*◌, ◌≤◌, [], ◌∷◌, ◌++◌, Some, sum, length as len, IfOk, OnOk, OnErr};
ghost use Rattle.fz_base.specs.Meter.{handed_back};
ghost use Rattle.fz_base.specs.JobBuffers.{slots_buffers};
ghost use Rattle.fz_checks.specs.WorkBuffers.{tile_buffers, translated_buffers};
ghost use Rattle.fz_pool.specs.Window.{IsEmpty};
ghost use Rattle.fz_job.specs.Takes.{Takes};
ghost use Rattle.fz_job.specs.Workspace.{HasLengths, copy_len, held_bytes, wanted_buffers, window_for};

use fz_base::{Bytes, Meter, Short, takings_law};
use fz_block::BLOCK_LEN;
use fz_pool::{Window, sizes_law};

/// The length of the buffer through which bytes are copied.
const COPY_LEN: u64 = 65_536;

/// What a job wants at once after its first look.
#[derive(Clone, Copy, Debug, PartialEq, Eq)]
pub struct Wants {
    /// The bytes of the longest header.
    pub header_len: u32,
    /// Whether the job translates headers: a translated header is at most a block longer.
    pub translates: bool,
    /// The pixels of the largest tile; none if the job works on no tiles, and copies no bytes.
    pub tile: Option<u32>,
}

/// The buffers that a job has beside the slots of its window. One that it does not want is empty.
#[derive(Drop)]
pub struct Workspace {
    /// A header as it is read.
    pub header: Bytes,
    /// A translated header.
    pub translated: Bytes,
    /// Bytes on their way.
    pub copy: Bytes,
}

impl Workspace {
    /// Takes only what is wanted, in this order: the longest header, the translated header, the
    /// slots of the window, and the copy buffer of 65,536 bytes. `OverLimit` comes only if one of these
    /// takings passes the limit, and reports the first of them; if one does, Ok does not come. A refusal
    /// hands all back, and leaves the window empty.
    pub fn take(meter: &mut Meter, window: &mut Window, wants: &Wants) -> Result<Workspace, Short>
        requires empty { IsEmpty window.old }
        ensures takings { Takes (wanted_buffers wants.now window.old.workers) meter.old meter.new result }
        ensures lengths { IfOk result (HasLengths wants.now) }
        ensures filled { OnOk result (window.new ≡ window_for window.old.workers wants.now.tile) }
        ensures unfilled { OnErr result (window.new ≡ window.old) }
    {
        let header = buffer(meter, u64::from(wants.header_len))?;
        match take_behind_header(meter, window, wants) {
            Ok((translated, copy)) => Ok(Workspace {
                header,
                translated,
                copy,
            }),
            Err(short) => {
                meter.give_bytes(header);
                Err(short)
            }
        }
    }

    /// Hands all back, and leaves the window empty.
    pub fn give_back(self, meter: &mut Meter, window: &mut Window)
        requires { held_bytes self window.old ≤ meter.old.live }
        ensures given { meter.new ≡ handed_back meter.old (held_bytes self window.old) }
        ensures emptied { window.new ≡ record { slots = []; workers = window.old.workers } }
    {
        meter.give_bytes(self.copy);
        window.empty(meter);
        meter.give_bytes(self.translated);
        meter.give_bytes(self.header);
    }
}

// Takes the translated header, the slots, and the copy buffer.
fn take_behind_header(
    meter: &mut Meter,
    window: &mut Window,
    wants: &Wants,
) -> Result<(Bytes, Bytes), Short>
    requires empty { IsEmpty window.old }
    ensures takings { Takes (translated_buffers wants.now.translates wants.now.header_len ++ tile_buffers window.old.workers
        wants.now.tile) meter.old meter.new result }
    ensures lengths { IfOk result (λ b. (len b.0 ≡ sum (translated_buffers wants.now.translates wants.now.header_len))
        × (len b.1 ≡ copy_len wants.now.tile)) }
    ensures filled { OnOk result (window.new ≡ window_for window.old.workers wants.now.tile) }
    ensures unfilled { OnErr result (window.new ≡ window.old) }
{
    let translated = take_translated(meter, wants)?;
    match take_for_tiles(meter, window, wants.tile) {
        Ok(copy) => Ok((translated, copy)),
        Err(short) => {
            meter.give_bytes(translated);
            Err(short)
        }
    }
}

// Takes the translated header, if one is wanted.
fn take_translated(meter: &mut Meter, wants: &Wants) -> Result<Bytes, Short>
    ensures takings { Takes (translated_buffers wants.now.translates wants.now.header_len) meter.old meter.new result }
    ensures length { IfOk result (λ b. len b ≡ sum (translated_buffers wants.now.translates wants.now.header_len)) }
{
    if wants.translates {
        return buffer(meter, u64::from(wants.header_len) + BLOCK_LEN as u64);
    }
    no_buffer(meter)
}

// Takes the slots and then the copy buffer, if the job works on tiles.
fn take_for_tiles(meter: &mut Meter, window: &mut Window, tile: Option<u32>) -> Result<Bytes, Short>
    requires empty { IsEmpty window.old }
    ensures takings { Takes (tile_buffers window.old.workers tile) meter.old meter.new result }
    ensures length { IfOk result (λ b. len b ≡ copy_len tile) }
    ensures filled { OnOk result (window.new ≡ window_for window.old.workers tile) }
    ensures unfilled { OnErr result (window.new ≡ window.old) }
{
    match tile {
        Some(pixels) => take_slots(meter, window, pixels),
        None => no_buffer(meter),
    }
}

// Takes the slots for tiles of so many pixels, and then the copy buffer.
fn take_slots(meter: &mut Meter, window: &mut Window, pixels: u32) -> Result<Bytes, Short>
    requires empty { IsEmpty window.old }
    ensures takings { Takes (slots_buffers pixels (2 * window.old.workers) ++ 65536 ∷ []) meter.old meter.new result }
    ensures length { IfOk result (λ b. len b ≡ 65536) }
    ensures filled { OnOk result (window.new ≡ window_for window.old.workers (Some pixels)) }
    ensures unfilled { OnErr result (window.new ≡ window.old) }
{
    // What is asked for the slots of a window that was filled; and the takings of the slots, and then that of the copy.
    sizes_law();
    takings_law();
    fill(meter, window, pixels)?;
    match buffer(meter, COPY_LEN) {
        Ok(copy) => Ok(copy),
        Err(short) => {
            window.empty(meter);
            Err(short)
        }
    }
}

// Fills the window.
fn fill(meter: &mut Meter, window: &mut Window, pixels: u32) -> Result<(), Short>
    requires empty { IsEmpty window.old }
    ensures takings { Takes (slots_buffers pixels (2 * window.old.workers)) meter.old meter.new result }
    ensures filled { OnOk result (window.new ≡ window_for window.old.workers (Some pixels)) }
    ensures unfilled { OnErr result (window.new ≡ window.old) }
{
    window.fill(meter, pixels)
}

// A buffer of so many bytes.
fn buffer(meter: &mut Meter, n: u64) -> Result<Bytes, Short>
    ensures takings { Takes (n ∷ []) meter.old meter.new result }
    ensures length { IfOk result (λ b. len b ≡ n) }
{
    meter.bytes(n)
}

// A buffer that is not wanted: no bytes, which pass no limit.
fn no_buffer(meter: &mut Meter) -> Result<Bytes, Short>
    ensures takings { Takes [] meter.old meter.new result }
    ensures length { IfOk result (λ b. len b ≡ 0) }
{
    // These calls say that what is live is at most the peak, and that at most the limit.
    let (_live, _peak) = (meter.live(), meter.peak());
    meter.bytes(0)
}
