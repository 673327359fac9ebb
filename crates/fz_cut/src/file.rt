//! The cutout: its header, its pixels, and fill.
ghost use Rattle.std.specs.Prelude.{ℕ, ◌≡◌, ◌+◌, ◌*◌, ◌/◌, ◌^◌, ◌<◌, ◌≤◌, true, [], IsTrue, None, Some, length as len, IfOk, IfSome, OnOk};
ghost use Rattle.fz_base.specs.Ranges.{LogsIn};
ghost use Rattle.fz_base.specs.Counts.{nameless};
ghost use Rattle.fz_base.specs.Keeps.{SinkStays, SourceStays};
ghost use Rattle.fz_base.specs.Names.{NamesOnce};
ghost use Rattle.fz_base.specs.Stop.{IfRefused, Writes};
ghost use Rattle.fz_base.specs.Told.{StaysTold};
ghost use Rattle.fz_block.specs.Facts.{IsHeaderOf};
ghost use Rattle.fz_block.specs.Hdus.{cards_of, header_bytes};
ghost use Rattle.fz_files.specs.CutoutBytes.{cutout_cards};
ghost use Rattle.fz_files.specs.Packed.{pixel_bits};
ghost use Rattle.fz_files.specs.Restored.{pixels_of};
ghost use Rattle.fz_files.specs.Walks.{box_of};
ghost use Rattle.fz_files.specs.declared.job.Job.TheVariants.{Cut};
ghost use Rattle.fz_grid.specs.Arrays.{product};
ghost use Rattle.fz_grid.specs.Region.{IsDivided, IsWithin};
ghost use Rattle.fz_grid.specs.Sieve.{IsSieveOf, sieve_lengths};
ghost use Rattle.fz_head.specs.Conditions.{IsPackedPlan};
ghost use Rattle.fz_pool.specs.Window.{HasSlotsFor, WindowStays};
ghost use Rattle.fz_job.specs.Workspace.{SpaceStays};
ghost use Rattle.fz_tile.specs.Pixels.{IsBitpix};
ghost use Rattle.fz_job.specs.Behind.{HoldsBytes};
ghost use Rattle.fz_job.specs.Clauses.{ComesLate, IsOfSomeRow};
ghost use Rattle.fz_job.specs.Keeps.{Rewrites};
ghost use Rattle.fz_cut.specs.Again.{IsAgain, WasSeen};
ghost use Rattle.fz_files.specs.Picks.{HasPicks};
ghost use Rattle.fz_cut.specs.Part.{HoldsPart, IsPickFault};
ghost use Rattle.fz_cut.specs.Picks.{picked_ranges};
ghost use Rattle.fz_cut.specs.Written.{FinishesSeen, IsShutOrPart, work_ranges};

use crate::again::{Again, read_again};
use crate::boxes::{box_of, tables_law};
use crate::law::parts_law;
use crate::part_header::make_header;
use crate::picks::{Picking, write_picks};
use fz_base::{Gate, Sink, Source, Stop, output_law, ranges_law, seal, write_behind};
use fz_block::{BLOCK_LEN, Header};
use fz_checks::PackedImage;
use fz_grid::{Sieve, cutout_axes, cutout_law, shape_law, volume};
use fz_job::{Survey, Workspace, write_fill};
use fz_pool::{Crew, Window};
use fz_tile::{plain_law, plain_len};
use std::thread::Threads;

/// What is cut out, and by whom.
#[derive(Drop)]
pub(crate) struct Cutting<'a, 'n, R, G> {
    /// Who works.
    pub(crate) crew: Crew<'a, R, G>,
    /// The length of the file.
    pub(crate) length: u64,
    /// The name of the sink.
    pub(crate) name: &'n str,
    /// The number of the HDU that is cut from, or none for the first packed one.
    pub(crate) hdu: Option<u32>,
    /// The picks.
    pub(crate) sieve: Sieve,
}

/// What the first look found.
#[derive(Clone, Copy, Debug)]
pub(crate) struct Found {
    /// What it learnt of the file.
    pub(crate) survey: Survey,
    /// The header of the HDU that is cut from.
    pub(crate) from: Header,
}

/// Reads the header of the HDU once more, makes the sink, writes the cutout, its byte 0 last, and finishes.
pub(crate) fn write_file<R: Threads + Sync, S: Source, K: Sink, G: Gate>(
    asked: &Cutting<'_, '_, R, G>,
    source: &mut S,
    sink: &mut K,
    window: &mut Window,
    found: &Found,
    space: &mut Workspace,
) -> Result<(), Stop>
    requires attached { S.attached source.old ≡ Some asked.now.length }
    requires empty { IfSome (K.contents sink.old) (λ c. c ≡ []) }
    requires sieve { HasPicks asked.now.sieve }
    requires window { HasSlotsFor found.now.survey.tile window.old }
    requires translated { len space.old.header + 2880 ≤ len space.old.translated }
    requires copy { 4096 ≤ len space.old.copy }
    requires long { 2880 ≤ len space.old.header }
    ensures written { IfSome (S.held source.old) (λ g. FinishesSeen g asked.now.sieve (len space.old.header) found.now.survey.tile found.now.from
        (K.contents sink.new) result) }
    ensures finished { OnOk result (K.finished sink.new ≡ true) }
    ensures shut { IsShutOrPart (S.held source.old) asked.now.sieve (len space.old.header) found.now.survey.tile found.now.from
        (K.contents sink.new) result }
    ensures touched { IfSome (S.held source.old)
        (λ g. WasSeen g (box_of asked.now.sieve) (len space.old.header) found.now.survey.tile found.now.from
        → LogsIn (work_ranges g asked.now.sieve found.now.from) (S.ranges source.old) (S.ranges source.new)) }
    ensures space { SpaceStays space.old space.new }
    ensures window { WindowStays window.old window.new }
    ensures source { SourceStays S.held S.attached S.ranges source.old source.new }
    ensures late { IfRefused result (ComesLate (Cut None asked.now.sieve)) }
    ensures told_contents { StaysTold (K.contents sink.old) (K.contents sink.new) }
    ensures cause { Rewrites (S.tally source.old) (S.tally source.new) (nameless (K.tally sink.old)) (nameless (K.tally sink.new)) result }
    ensures names { NamesOnce asked.now.name.now (K.tally sink.old).names (K.tally sink.new).names result }
{
    parts_law();
    output_law();
    ranges_law();
    let region = box_of(&asked.sieve);
    let buf = space.header.as_mut_slice();
    let tile = found.survey.tile;
    let again = read_again(source, asked.length, &found.from, &region, tile, buf)?;
    sink.create(asked.name).map_err(Stop::writing)?;
    write_cutout(asked, source, sink, window, &again, space)?;
    seal(sink)
}

// Writes the cutout, without byte 0.
fn write_cutout<R: Threads + Sync, S: Source, K: Sink, G: Gate>(
    asked: &Cutting<'_, '_, R, G>,
    source: &mut S,
    sink: &mut K,
    window: &mut Window,
    again: &Again,
    space: &mut Workspace,
) -> Result<(), Stop>
    requires again { (n : ℕ) × (n < 2 ^ 64) × (S.attached source.old ≡ Some n)
        × IsAgain (S.held source.old) n (box_of asked.now.sieve) space.old.header again.now }
    requires sieve { HasPicks asked.now.sieve }
    requires created { IsTrue (K.created sink.old) }
    requires window { HasSlotsFor (pixels_of again.now.image.plan 0) window.old }
    requires translated { len space.old.header + 2880 ≤ len space.old.translated }
    requires copy { 4096 ≤ len space.old.copy }
    ensures part { OnOk result (IfSome (S.held source.old)
        (λ g. HoldsPart g again.now.header asked.now.sieve (K.contents sink.old) (K.contents sink.new))) }
    ensures fault { IfRefused result (λ x. IfSome (S.held source.old) (λ g. IsPickFault g again.now.header asked.now.sieve x)) }
    ensures touched { IfSome (S.held source.old) (λ g. LogsIn (picked_ranges g again.now.header asked.now.sieve) (S.ranges source.old)
        (S.ranges source.new)) }
    ensures stays { SourceStays S.held S.attached S.ranges source.old source.new
        × SinkStays K.created K.contents sink.old sink.new × SpaceStays space.old space.new
        × WindowStays window.old window.new }
    ensures row { IfRefused result IsOfSomeRow }
    ensures cause { Rewrites (S.tally source.old) (S.tally source.new) (K.tally sink.old) (K.tally sink.new) result }
{
    output_law();
    plain_law();
    cutout_law();
    let sieve = &asked.sieve;
    tables_law(sieve);
    let Again { header, image } = again;
    let packed = &space.header.as_slice()[..BLOCK_LEN * header.blocks as usize];
    let made = space.translated.as_mut_slice();
    let data_at = write_header(sink, packed, header, image, sieve, made)?;
    let copy = space.copy.as_mut_slice();
    let picking = Picking {
        header: *header,
        image: *image,
        sieve: *sieve,
        data_at,
    };
    write_picks(&asked.crew, source, sink, window, &picking, copy)?;
    write_fill(sink, data_at, data_len(image, sieve), copy)?;
    Ok(())
}

// Makes the header of the part, writes it without byte 0, and answers the byte after it.
fn write_header<K: Sink>(
    sink: &mut K,
    packed: &[u8],
    header: &Header,
    image: &PackedImage,
    sieve: &Sieve,
    made: &mut [u8],
) -> Result<u64, Stop>
    requires header { IsHeaderOf packed.now header.now }
    requires plan { IsPackedPlan packed.now header.now image.now.plan }
    requires sieve { HasPicks sieve.now }
    requires within { IsWithin image.now.plan.shape (box_of sieve.now) }
    requires room { len packed.now + 2880 ≤ len made.old }
    requires created { IsTrue (K.created sink.old) }
    ensures header { IfOk result (λ end. HoldsBytes (header_bytes (cutout_cards sieve.now (cards_of packed.now))) 0 end
        (K.contents sink.old) (K.contents sink.new)) }
    ensures end { IfOk result (λ end. (0 < end) × (end ≤ 2 ^ 20)) }
    ensures stays { SinkStays K.created K.contents sink.old sink.new × (len made.new ≡ len made.old) }
    ensures cause { Writes (K.tally sink.old) (K.tally sink.new) result }
{
    let len = make_header(packed, header, image, sieve, made);
    // Byte 0 is left for last.
    write_behind(sink, 1, &made[1..len])?;
    Ok(len as u64)
}

// The bytes of the picks.
fn data_len(image: &PackedImage, sieve: &Sieve) -> u64
    requires divided { IsDivided image.now.plan.shape image.now.plan.tile }
    requires size { IsBitpix image.now.plan.bitpix }
    requires sieve { IsSieveOf image.now.plan.shape sieve.now }
    ensures len { result ≡ pixel_bits image.now.plan / 8 * product (sieve_lengths sieve.now) }
    ensures most { result ≤ 2 ^ 43 }
{
    shape_law();
    plain_len(
        image.plan.bitpix,
        volume(&cutout_axes(&image.plan.shape, sieve)),
    )
}
