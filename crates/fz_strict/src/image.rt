//! A packed image, compared with what `pack` writes for it.
ghost use Rattle.std.specs.Prelude.{ℕ, ◌≡◌, ◌+◌, ◌-◌, ◌*◌, ◌<◌, ◌≤◌, ◌^◌, List, Some, None, length as len, if◌then◌else◌, IfOk, IfSome, OnOk};
ghost use Rattle.std.specs.Option.{option_map};
ghost use Rattle.fz_base.specs.Ranges.{LogsIn};
ghost use Rattle.fz_base.specs.Source.{LogsWithin};
ghost use Rattle.fz_base.specs.Stop.{IfRefused, OnlyReads};
ghost use Rattle.fz_block.specs.Facts.{IsHeaderOf};
ghost use Rattle.fz_block.specs.Header.{next_start_of, whole_blocks_of};
ghost use Rattle.fz_fetch.specs.Stops.{Fetches};
ghost use Rattle.fz_files.specs.Restored.{pixels_of};
ghost use Rattle.fz_job.specs.Again.{IsAgain};
ghost use Rattle.fz_base.specs.Keeps.{SourceStays};
ghost use Rattle.fz_head.specs.Conditions.{IsPackedPlan};
ghost use Rattle.fz_head.specs.Planned.{AreOptions};
ghost use Rattle.fz_block.specs.Hdus.{cards_of};
ghost use Rattle.fz_head.specs.declared.plan.Plan.{Plan as PlanOf};
ghost use Rattle.fz_image.specs.Layout.{IsLayout};
ghost use Rattle.fz_job.specs.Clauses.{IsOfSomeRow};
ghost use Rattle.fz_pool.specs.Window.{HasSlotsFor, WindowStays};
ghost use Rattle.fz_job.specs.Workspace.{SpaceStays};
ghost use Rattle.fz_strict.specs.Backs.{ComparesRest, IsBack, Restores};
ghost use Rattle.fz_compare.specs.Compared.{IsSoFar, begins_right as begins_right_of, has_fill as has_fill_of, has_header as has_header_of};
ghost use Rattle.fz_strict.specs.Origins.{IsOrigin, with_hdu};
ghost use Rattle.fz_compare.specs.Reads.{table_ranges};
ghost use Rattle.fz_strict.specs.Rows.{IsHduFault, IsHduSound};
ghost use Rattle.fz_strict.specs.SameImages.{ComparesImage, origin_before};
ghost use Rattle.fz_strict.specs.declared.image.Restored.{Restored as RestoredOf};

use crate::hdus::Comparing;
use crate::headers::restore;
use crate::image_law::image_law;
use crate::origin::Origin;
use fz_base::{Gate, Source, Stop, log_law, ranges_law};
use fz_block::{BLOCK_LEN, Header, data_start, next_start};
use fz_checks::pack_plan_law;
use fz_compare::{compare_tiles, has_bytes};
use fz_fetch::ImageIn;
use fz_head::{PackOptions, Plan, to_empty_primary};
use fz_image::{Layout, Progress, make_header, table_law};
use fz_job::Workspace;
use fz_pool::Window;
use std::thread::Threads;

/// A packed image whose header was restored.
#[derive(Clone, Copy, Debug)]
pub(crate) struct Restored {
    /// The HDUs before it, which are what `pack` writes.
    pub(crate) before: Origin,
    /// The facts of the header.
    pub(crate) header: Header,
    /// The layout of the table that `pack` makes of the image.
    pub(crate) layout: Layout,
}

/// What the frame of a table, which is all of it but its rows and its heap, is compared with.
#[derive(Clone, Copy)]
struct Frame<'h> {
    /// Whether `pack` writes cards of sums.
    sums: bool,
    /// The facts of the header of the table in the file.
    header: &'h Header,
    /// The header of the image, restored, and what is after it in its buffer.
    plain: &'h [u8],
}

/// Decodes a packed image, whose header is in the workspace. Answers the HDUs so far with this image, if the table, and
/// what is before that of a primary, is what `pack` writes for the image.
pub(crate) fn compare_image<R: Threads + Sync, S: Source, G: Gate>(
    asked: &Comparing<'_, R, G>,
    source: &mut S,
    window: &mut Window,
    packed: ImageIn<'_>,
    origin: &Option<Origin>,
    plain: &mut [u8],
    space: &mut Workspace,
) -> Result<Option<Origin>, Stop>
    requires again { (n : ℕ) × (n < 2 ^ 64) × (S.attached source.old ≡ Some n)
        × IsAgain (S.held source.old) n space.old.header (record { header = packed.header.now; image = Some packed.image.now }) }
    requires options { AreOptions asked.now.options }
    requires origin { IfSome origin.now IsOrigin }
    requires window { HasSlotsFor (pixels_of packed.image.now.plan 0) window.old }
    requires plain { len space.old.header ≤ len plain.old }
    requires room { 2880 * packed.header.now.blocks + 2880 ≤ len space.old.header }
    requires copy { 4096 + 2880 ≤ len space.old.copy }
    ensures compared { IfOk result (λ now. IfSome (S.held source.old) (λ g. ComparesImage asked.now.options g packed.entry.header.now origin.now now)) }
    ensures origin { IfOk result (λ o. IfSome o IsOrigin) }
    ensures sound { OnOk result (IfSome (S.held source.old) (λ g. IsHduSound g packed.entry.header.now)) }
    ensures fault { IfRefused result (λ x. IfSome (S.held source.old) (λ g. IsHduFault g packed.entry.header.now x)) }
    ensures row { IfRefused result IsOfSomeRow }
    ensures stays { SourceStays S.held S.attached S.ranges source.old source.new × SpaceStays space.old space.new
        × WindowStays window.old window.new × (len plain.new ≡ len plain.old) }
    ensures read { IfSome (S.held source.old) (λ g. LogsIn (table_ranges g packed.entry.header.now) (S.ranges source.old) (S.ranges source.new)) }
    ensures cause { Fetches (S.tally source.old) (S.tally source.new) result }
{
    ranges_law();
    image_law();
    let (header, image) = (packed.header, packed.image);
    let buf = &space.header.as_slice()[..BLOCK_LEN * header.blocks as usize];
    let restored = restored_image(origin, &asked.options, header, &image.plan, buf, plain);
    let layout = layout_of(&restored);
    let copy = space.copy.as_mut_slice();
    let written = compare_tiles(&asked.crew, source, window, header, image, &layout, copy)?;
    let frame = Frame {
        sums: asked.options.sums,
        header,
        plain: &*plain,
    };
    let made = space.header.as_mut_slice();
    let piece = space.copy.as_mut_slice();
    compare_rest(source, frame, &restored, written, made, piece)
}

// The header of a packed image, restored, and the layout of the table that `pack` makes of the image.
fn restored_image(
    origin: &Option<Origin>,
    options: &PackOptions,
    header: &Header,
    plan: &Plan,
    buf: &[u8],
    plain: &mut [u8],
) -> Option<Restored>
    requires header { IsHeaderOf buf.now header.now }
    requires end { next_start_of header.now ≤ 2 ^ 62 }
    requires plan { IsPackedPlan buf.now header.now plan.now }
    requires options { AreOptions options.now }
    requires origin { IfSome origin.now IsOrigin }
    requires room { len buf.now + 2880 ≤ len plain.old }
    ensures restored { Restores options.now (cards_of buf.now) header.now plan.now (origin_before origin.now plan.now) result }
    ensures back { IfSome result (IsBack options.now.sums (cards_of buf.now) plan.now plain.new) }
    ensures fits { IfSome result (λ r. 2880 * r.header.blocks ≤ len buf.now) }
    ensures len { len plain.new ≡ len plain.old }
{
    pack_plan_law();
    let Some(before) = before_image(origin, plan) else {
        return None;
    };
    let Some(restored) = restore(buf, header, plan, options, &before, plain) else {
        return None;
    };
    Some(Restored {
        before,
        header: restored,
        layout: Layout::of(&restored, plan, data_start(header)),
    })
}

// The HDUs before a packed image: none if it was the primary, whatever was before it.
fn before_image(origin: &Option<Origin>, plan: &Plan) -> Option<Origin>
    requires { IfSome origin.now IsOrigin }
    ensures before { result ≡ origin_before origin.now plan.now }
    ensures origin { IfSome result IsOrigin }
{
    if plan.primary {
        Some(Origin::none())
    } else {
        *origin
    }
}

// The layout, if the header was restored.
fn layout_of(restored: &Option<Restored>) -> Option<Layout>
    ensures { result ≡ option_map (λ (r : RestoredOf). r.layout) restored.now }
{
    match restored {
        Some(restored) => Some(restored.layout),
        None => None,
    }
}

// The HDUs so far with the image, if its header was restored and its whole table, of which this was written, is what `pack`
// writes.
fn compare_rest<S: Source>(
    source: &mut S,
    frame: Frame<'_>,
    restored: &Option<Restored>,
    progress: Option<Progress>,
    made: &mut [u8],
    piece: &mut [u8],
) -> Result<Option<Origin>, Stop>
    requires within { (n : ℕ) × (S.attached source.old ≡ Some n) × (next_start_of frame.header.now ≤ n) }
    requires end { next_start_of frame.header.now ≤ 2 ^ 62 }
    requires restored { (cards : List (List ℕ)) × (p : PlanOf) × IfSome restored.now (IsBack frame.sums cards p frame.plain.now) }
    requires progress { IfSome progress (λ w. IfSome restored.now (λ r. IsSoFar r.layout w × (w.tiles ≡ r.layout.tiles))) }
    requires made { IfSome restored.now (λ r. 2880 * r.header.blocks + 2880 ≤ len made.old) }
    requires piece { 2880 ≤ len piece.old }
    ensures compared { IfOk result (λ now. IfSome (S.held source.old) (λ g. ComparesRest g frame.entry.header.now frame.entry.sums frame.entry.plain.now
        restored.now progress now)) }
    ensures origin { IfOk result (λ o. IfSome o IsOrigin) }
    ensures stays { SourceStays S.held S.attached S.ranges source.old source.new × (len made.new ≡ len made.old)
        × (len piece.new ≡ len piece.old) }
    ensures read { LogsWithin 0 (next_start_of frame.entry.header.now) (S.ranges source.old) (S.ranges source.new) }
    ensures cause { OnlyReads (S.tally source.old) (S.tally source.new) result }
{
    log_law();
    match restored {
        Some(restored) => match progress {
            Some(progress) => compare_frame(source, frame, restored, progress, made, piece),
            None => Ok(None),
        },
        None => Ok(None),
    }
}

// The HDUs so far with the image, if all but the rows and the heap, of which this was written, is what `pack` writes: the
// fill of the table, what is before it, and its header.
fn compare_frame<S: Source>(
    source: &mut S,
    frame: Frame<'_>,
    restored: &Restored,
    progress: Progress,
    made: &mut [u8],
    piece: &mut [u8],
) -> Result<Option<Origin>, Stop>
    requires within { (n : ℕ) × (S.attached source.old ≡ Some n) × (next_start_of frame.header.now ≤ n) }
    requires end { next_start_of frame.header.now ≤ 2 ^ 62 }
    requires restored { (cards : List (List ℕ)) × (p : PlanOf) × IsBack frame.sums cards p frame.plain.now restored.now }
    requires progress { IsSoFar restored.now.layout progress × (progress.tiles ≡ restored.now.layout.tiles) }
    requires made { 2880 * restored.now.header.blocks + 2880 ≤ len made.old }
    requires piece { 2880 ≤ len piece.old }
    ensures compared { IfOk result (λ now. IfSome (S.held source.old) (λ g. ComparesRest g frame.entry.header.now frame.entry.sums frame.entry.plain.now
        (Some restored.now) (Some progress) now)) }
    ensures origin { IfOk result (λ o. IfSome o IsOrigin) }
    ensures stays { SourceStays S.held S.attached S.ranges source.old source.new × (len made.new ≡ len made.old)
        × (len piece.new ≡ len piece.old) }
    ensures read { LogsWithin 0 (next_start_of frame.entry.header.now) (S.ranges source.old) (S.ranges source.new) }
    ensures cause { OnlyReads (S.tally source.old) (S.tally source.new) result }
{
    log_law();
    table_law();
    let layout = &restored.layout;
    let fills = has_fill(
        source,
        layout,
        progress.heap,
        next_start(frame.header),
        piece,
    )?;
    if !fills {
        return Ok(None);
    }
    let begins = begins_right(source, frame.header, layout.plan.primary, made, piece)?;
    if !begins {
        return Ok(None);
    }
    let buf = &frame.plain[..BLOCK_LEN * restored.header.blocks as usize];
    let len = make_header(
        buf,
        &restored.header,
        &layout.plan,
        frame.sums,
        progress,
        made,
    );
    let same = has_header(source, frame.header, &made[..len], piece)?;
    Ok(with_image(restored, same))
}

// The HDUs with an image, if it is what `pack` writes.
fn with_image(restored: &Restored, same: bool) -> Option<Origin>
    requires origin { IsOrigin restored.now.before }
    requires end { next_start_of restored.now.header ≤ 2 ^ 62 }
    ensures with { result ≡ (if same then with_hdu restored.now.before (next_start_of restored.now.header - restored.now.header.start) else None) }
    ensures origin { IfSome result IsOrigin }
{
    if same {
        let len = next_start(&restored.header) - restored.header.start;
        restored.before.with_hdu(len)
    } else {
        None
    }
}

// Whether a table whose heap has so many bytes ends at this byte, and zeros fill its data.
fn has_fill<S: Source>(
    source: &mut S,
    layout: &Layout,
    heap: u64,
    end: u64,
    piece: &mut [u8],
) -> Result<bool, Stop>
    requires within { (n : ℕ) × (S.attached source.old ≡ Some n) × (end ≤ n) }
    requires layout { IsLayout layout.now }
    requires heap { heap ≤ 2 ^ 43 }
    requires piece { 0 < len piece.old }
    ensures same { IfOk result (λ yes. IfSome (S.held source.old) (λ g. yes ≡ has_fill_of g end layout.now heap)) }
    ensures stays { SourceStays S.held S.attached S.ranges source.old source.new × (len piece.new ≡ len piece.old) }
    ensures read { LogsWithin 0 end (S.ranges source.old) (S.ranges source.new) }
    ensures cause { OnlyReads (S.tally source.old) (S.tally source.new) result }
{
    log_law();
    let len = layout.rows_len() + heap;
    let whole = whole_blocks(len);
    let wanted = layout.rows_at + whole;
    if end != wanted {
        return Ok(false);
    }
    let zeros = [0; BLOCK_LEN];
    let fill = &zeros[..(whole - len) as usize];
    has_bytes(source, layout.heap_at() + heap, end, fill, piece)
}

// The whole blocks that so many bytes fill, in bytes.
fn whole_blocks(len: u64) -> u64
    requires { len ≤ 2 ^ 63 }
    ensures { result ≡ whole_blocks_of len }
{
    let block = BLOCK_LEN as u64;
    (len + (block - 1)) / block * block
}

// Whether a table has this header.
fn has_header<S: Source>(
    source: &mut S,
    header: &Header,
    bytes: &[u8],
    piece: &mut [u8],
) -> Result<bool, Stop>
    requires within { (n : ℕ) × (S.attached source.old ≡ Some n) × (next_start_of header.now ≤ n) }
    requires end { next_start_of header.now ≤ 2 ^ 62 }
    requires bytes { len bytes.now < 2 ^ 63 }
    requires piece { 0 < len piece.old }
    ensures same { IfOk result (λ yes. IfSome (S.held source.old) (λ g. yes ≡ has_header_of g header.now bytes.now)) }
    ensures stays { SourceStays S.held S.attached S.ranges source.old source.new × (len piece.new ≡ len piece.old) }
    ensures read { LogsWithin 0 (next_start_of header.now) (S.ranges source.old) (S.ranges source.new) }
    ensures cause { OnlyReads (S.tally source.old) (S.tally source.new) result }
{
    log_law();
    let end = data_start(header);
    if header.start + bytes.len() as u64 != end {
        return Ok(false);
    }
    has_bytes(source, header.start, end, bytes, piece)
}

// Whether the primary without data that `pack` writes, and nothing else, is before the table of an image that was a primary.
fn begins_right<S: Source>(
    source: &mut S,
    header: &Header,
    primary: bool,
    made: &mut [u8],
    piece: &mut [u8],
) -> Result<bool, Stop>
    requires within { (n : ℕ) × (S.attached source.old ≡ Some n) × (next_start_of header.now ≤ n) }
    requires end { next_start_of header.now ≤ 2 ^ 62 }
    requires made { 2880 ≤ len made.old }
    requires piece { 0 < len piece.old }
    ensures same { IfOk result (λ yes. IfSome (S.held source.old) (λ g. yes ≡ begins_right_of primary g header.now)) }
    ensures stays { SourceStays S.held S.attached S.ranges source.old source.new × (len made.new ≡ len made.old)
        × (len piece.new ≡ len piece.old) }
    ensures read { LogsWithin 0 (next_start_of header.now) (S.ranges source.old) (S.ranges source.new) }
    ensures cause { OnlyReads (S.tally source.old) (S.tally source.new) result }
{
    log_law();
    if !primary {
        return Ok(true);
    }
    let len = to_empty_primary(made);
    if header.start != len as u64 {
        return Ok(false);
    }
    has_bytes(source, 0, header.start, &made[..len], piece)
}
