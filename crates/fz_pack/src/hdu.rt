//! One HDU of the packed file.
ghost use Rattle.std.specs.Prelude.{ℕ, ◌≡◌, ◌+◌, ◌-◌, ◌^◌, ◌≤◌, ◌<◌, true, IsTrue, Some, length as len, IfOk, IfSome};
ghost use Rattle.fz_base.specs.Keeps.{SinkStays, SourceStays};
ghost use Rattle.fz_base.specs.Source.{LogsWithin};
ghost use Rattle.fz_base.specs.Stop.{CodesAndWrites, Writes};
ghost use Rattle.fz_block.specs.Header.{data_start_of, next_start_of};
ghost use Rattle.fz_head.specs.Planned.{AreOptions};
ghost use Rattle.fz_pool.specs.Window.{HasSlotsFor, WindowStays};
ghost use Rattle.fz_job.specs.Behind.{HoldsBytes};
ghost use Rattle.fz_job.specs.Workspace.{SpaceStays};
ghost use Rattle.fz_image.specs.Image.{HoldsTable};
ghost use Rattle.fz_pack.specs.Again.{IsAgain, largest_of};
ghost use Rattle.fz_pack.specs.Behind.{EndsNear, HoldsHdu, before_image};

use crate::again::Again;
use crate::file::Packing;
use crate::image::{ImageToPack, write_image};
use fz_base::{Gate, Sink, Source, Stop, log_law, output_law, write_behind};
use fz_block::{BLOCK_LEN, Header};
use fz_head::{Plan, to_empty_primary};
use fz_job::{Workspace, copy_hdu};
use fz_pool::Window;
use std::thread::Threads;

// The table of an image with this header and plan, and the byte of the sink at which it begins.
#[derive(Clone, Copy)]
struct Table {
    header: Header,
    plan: Plan,
    at: u64,
}

/// Writes an HDU, whose header is in the workspace, from this byte of the sink on, but not byte 0 of the file, and
/// answers the byte after it.
pub(crate) fn write_hdu<R: Threads + Sync, S: Source, K: Sink, G: Gate>(
    asked: &Packing<'_, '_, R, G>,
    source: &mut S,
    sink: &mut K,
    window: &mut Window,
    again: &Again,
    at: u64,
    space: &mut Workspace,
    block: &mut [u8],
) -> Result<u64, Stop>
    requires again { (n : ℕ) × (S.attached source.old ≡ Some n) × IsAgain asked.now.options (S.held source.old) n space.old.header again.now }
    requires first { (again.now.header.hdu ≡ 0 → at ≡ 0) × (0 < again.now.header.hdu → 0 < at) }
    requires near { at + 2 ^ 46 ≤ 2 ^ 63 }
    requires created { IsTrue (K.created sink.old) }
    requires window { IfSome again.now.plan (λ p. HasSlotsFor (largest_of p) window.old) }
    requires translated { len space.old.header + 2880 ≤ len space.old.translated }
    requires copy { 4096 ≤ len space.old.copy }
    requires block { len block.old ≡ 2880 }
    ensures written { IfOk result (λ end. IfSome (S.held source.old)
        (λ g. HoldsHdu asked.now.options again.now.header g at end (K.contents sink.old) (K.contents sink.new))) }
    ensures end { IfOk result (EndsNear again.now.header at) }
    ensures block { len block.new ≡ 2880 }
    ensures stays { SourceStays S.held S.attached S.ranges source.old source.new
        × SinkStays K.created K.contents sink.old sink.new × SpaceStays space.old space.new
        × WindowStays window.old window.new }
    ensures log { LogsWithin (data_start_of again.now.header) (next_start_of again.now.header) (S.ranges source.old) (S.ranges source.new) }
    ensures cause { CodesAndWrites (S.tally source.old) (S.tally source.new) (K.tally sink.old) (K.tally sink.new) result }
{
    match &again.plan {
        Some(plan) => {
            log_law();
            output_law();
            let at = write_before(sink, plan, at, block)?;
            let table = Table {
                header: again.header,
                plan: *plan,
                at,
            };
            write_table(asked, source, sink, window, table, space)
        }
        None => {
            let buf = &space.header.as_slice()[..BLOCK_LEN * again.header.blocks as usize];
            copy_hdu(
                source,
                &again.header,
                buf,
                sink,
                at,
                space.copy.as_mut_slice(),
            )
        }
    }
}

// Writes what is before the table of an image, which is a primary if the image was one, and answers the byte
// after it.
fn write_before<K: Sink>(sink: &mut K, plan: &Plan, at: u64, block: &mut [u8]) -> Result<u64, Stop>
    requires first { plan.now.primary ≡ true → at ≡ 0 }
    requires created { IsTrue (K.created sink.old) }
    requires block { len block.old ≡ 2880 }
    ensures written { IfOk result (λ end. HoldsBytes (before_image plan.now.primary) at end (K.contents sink.old) (K.contents sink.new)) }
    ensures short { IfOk result (λ end. (at ≤ end) × (end ≤ at + 2880) × (plan.now.primary ≡ true → end ≡ 2880)) }
    ensures block { len block.new ≡ 2880 }
    ensures sink { SinkStays K.created K.contents sink.old sink.new }
    ensures cause { Writes (K.tally sink.old) (K.tally sink.new) result }
{
    if !plan.primary {
        return Ok(at);
    }
    let len = to_empty_primary(block);
    write_behind(sink, 1, &block[1..len])?;
    Ok(len as u64)
}

// Writes the table of an image.
fn write_table<R: Threads + Sync, S: Source, K: Sink, G: Gate>(
    asked: &Packing<'_, '_, R, G>,
    source: &mut S,
    sink: &mut K,
    window: &mut Window,
    table: Table,
    space: &mut Workspace,
) -> Result<u64, Stop>
    requires again { (n : ℕ) × (S.attached source.old ≡ Some n)
        × IsAgain asked.now.options (S.held source.old) n space.old.header (record { header = table.header; plan = Some table.plan }) }
    requires at { (0 < table.at) × (table.at + 2 ^ 45 ≤ 2 ^ 63) }
    requires created { IsTrue (K.created sink.old) }
    requires window { HasSlotsFor (largest_of table.plan) window.old }
    requires translated { len space.old.header + 2880 ≤ len space.old.translated }
    requires copy { 4096 ≤ len space.old.copy }
    ensures table { IfOk result (λ end. IfSome (S.held source.old)
        (λ g. HoldsTable asked.now.options.sums table.plan table.header g table.at end (K.contents sink.old) (K.contents sink.new))) }
    ensures end { IfOk result (λ end. (table.at ≤ end) × (end ≤ table.at + 2 ^ 45)) }
    ensures stays { SourceStays S.held S.attached S.ranges source.old source.new
        × SinkStays K.created K.contents sink.old sink.new × SpaceStays space.old space.new
        × WindowStays window.old window.new }
    ensures log { LogsWithin (data_start_of table.header) (next_start_of table.header) (S.ranges source.old) (S.ranges source.new) }
    ensures cause { CodesAndWrites (S.tally source.old) (S.tally source.new) (K.tally sink.old) (K.tally sink.new) result }
{
    let buf = &space.header.as_slice()[..BLOCK_LEN * table.header.blocks as usize];
    let image = ImageToPack {
        buf,
        header: table.header,
        plan: table.plan,
        sums: asked.options.sums,
        at: table.at,
    };
    write_image(
        &asked.crew,
        source,
        sink,
        &image,
        space.translated.as_mut_slice(),
        space.copy.as_mut_slice(),
        window,
    )
}
