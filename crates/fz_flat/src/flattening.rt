//! The plan of a packed image, and the image of a plan.
ghost use Rattle.std.specs.Prelude.{◌≡◌, ◌≤◌};
ghost use Rattle.fz_flat.specs.Plans.{codec_block, codec_bytepix, codec_number, column_there, flag_number, flat_column};
ghost use Rattle.fz_flat.specs.Plans.{flat_plan, image_there, numbered_codec};

use crate::{FzArrays, FzPlan};
use fz_block::Axes;
use fz_checks::PackedImage;
use fz_head::{Plan, is_wide};
use fz_table::{Column, Table};
use fz_tile::Codec;

/// The plan of a packed image.
pub fn plan_of(image: &PackedImage) -> FzPlan
    ensures { result ≡ flat_plan image.now }
{
    let (codec, block, bytepix) = numbers_of(image.plan.codec);
    FzPlan {
        rows_at: image.table.rows_at,
        heap_at: image.table.heap_at,
        heap_len: image.table.heap_len,
        row_bytes: image.table.row_bytes,
        rows: image.table.rows,
        coded: flat_column(image.table.coded),
        stored: flat_column(image.table.stored),
        gzip: flat_column(image.table.gzip),
        codec,
        block,
        bytepix,
        bitpix: image.plan.bitpix,
        axes: image.plan.shape.n,
        lengths: image.plan.shape.len,
        tile: image.plan.tile.len,
        primary: flag_number(image.plan.primary),
    }
}

// The number of a codec, its BLOCKSIZE and its BYTEPIX.
fn numbers_of(codec: Codec) -> (u32, u32, u32)
    ensures number { result.0 ≡ codec_number codec }
    ensures block { result.1 ≡ codec_block codec }
    ensures bytepix { result.2 ≡ codec_bytepix codec }
{
    match codec {
        Codec::Plain => (0, 0, 0),
        Codec::Rice { block, bytepix } => (1, block, bytepix),
        Codec::Plio => (2, 0, 0),
    }
}

// A column in numbers.
fn flat_column(column: Option<Column>) -> FzArrays
    ensures { result ≡ flat_column column }
{
    match column {
        Some(column) => FzArrays {
            at: column.at,
            wide: flag_number(column.wide),
            unit: column.unit,
        },
        None => FzArrays {
            at: 0,
            wide: 0,
            unit: 0,
        },
    }
}

// 1 for true.
fn flag_number(flag: bool) -> u32
    ensures { result ≡ flag_number flag }
{
    if flag { 1 } else { 0 }
}

/// The image that the numbers of a plan say. They are its plan if they are lawful.
pub fn image_of(plan: &FzPlan) -> PackedImage
    requires { plan.now.axes ≤ 9 }
    ensures { result ≡ image_there plan.now }
{
    PackedImage {
        plan: packing(plan),
        table: table(plan),
    }
}

// How it is packed.
fn packing(plan: &FzPlan) -> Plan
    requires { plan.now.axes ≤ 9 }
    ensures { result ≡ (image_there plan.now).plan }
{
    let shape = Axes {
        n: plan.axes,
        len: plan.lengths,
    };
    let tile = Axes {
        n: plan.axes,
        len: plan.tile,
    };
    Plan {
        codec: codec_in(plan.codec, plan.block, plan.bytepix),
        bitpix: plan.bitpix,
        shape,
        tile,
        primary: plan.primary == 1,
        wide: is_wide(plan.bitpix, &shape),
    }
}

// The codec of these numbers; one that has no codec is PLIO_1's.
fn codec_in(number: u32, block: u32, bytepix: u32) -> Codec
    ensures { result ≡ numbered_codec number block bytepix }
{
    match number {
        0 => Codec::Plain,
        1 => Codec::Rice { block, bytepix },
        _ => Codec::Plio,
    }
}

// The table in which it is.
fn table(plan: &FzPlan) -> Table
    ensures { result ≡ (image_there plan.now).table }
{
    Table {
        row_bytes: plan.row_bytes,
        rows: plan.rows,
        rows_at: plan.rows_at,
        heap_at: plan.heap_at,
        heap_len: plan.heap_len,
        coded: column_in(&plan.coded),
        stored: column_in(&plan.stored),
        gzip: column_in(&plan.gzip),
    }
}

// A column, if it is there.
fn column_in(column: &FzArrays) -> Option<Column>
    ensures { result ≡ column_there column.now }
{
    if column.unit == 0 {
        return None;
    }
    Some(Column {
        at: column.at,
        wide: column.wide == 1,
        unit: column.unit,
    })
}
