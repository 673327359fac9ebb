//! The lines that are printed, one for each HDU.
ghost use Rattle.std.specs.Prelude.{◌≡◌, ◌+◌, ◌*◌, ◌≤◌, ◌^◌, ◌++◌, decimal, length as len, IfSome, OnErr, OnOk};
ghost use Rattle.arrayvec.specs.ArrayString.{array_string_len};
ghost use Rattle.fz_base.specs.Sink.{MayAppend, appended};
ghost use Rattle.fz_base.specs.Stop.{Writes};
ghost use Rattle.fz_base.specs.Told.{StaysTold};
ghost use Rattle.fz_block.specs.Header.{next_start_of};
ghost use Rattle.fz_grid.specs.Region.{IsDivided, lengths_of};
ghost use Rattle.fz_files.specs.Lines.{axes_text, other_text, packed_text, sizes_text, sort_word as word_of_sort, verdict_word as word_of_verdict};
ghost use Rattle.fz_files.specs.Packed.{tiles_in};
ghost use Rattle.fz_verify.specs.Lines.{listed_text, tiles_said, verdicts_text};

use crate::sums::Verdicts;
use arrayvec::ArrayString;
use fz_base::{Stop, Text};
use fz_block::{Axes, BLOCK_LEN, Header, Sort, data_start, next_start};
use fz_checks::PackedImage;
use fz_grid::Grid;
use fz_head::{Plan, codec_name};
use fz_sum::Verdict;
use itoa::Buffer;

/// A line has room for the lengths of nine axes twice, and the words beside them.
pub(crate) type Line = ArrayString<640>;

/// The line of `verify` for an HDU of this number, with the image that is in it, if it is packed.
pub(crate) fn verify_line(hdu: u32, image: &Option<PackedImage>, verdicts: &Verdicts) -> Line
    requires image { IfSome image.now (λ i. IsDivided i.plan.shape i.plan.tile) }
    ensures { result.bytes ≡ verdicts_text hdu image.now verdicts.now }
{
    let mut line = Line::new();
    line.push_str("HDU ");
    push_number(&mut line, u64::from(hdu));
    line.push_str(" datasum ");
    line.push_str(verdict_word(verdicts.datasum));
    line.push_str(" checksum ");
    line.push_str(verdict_word(verdicts.checksum));
    line.push_str(" tiles ");
    push_tiles(&mut line, image);
    line.push_str("\n");
    line
}

/// The line of `list` for an HDU, with the image that is in it, if it is packed.
pub(crate) fn list_line(header: &Header, image: &Option<PackedImage>) -> Line
    requires axes { header.now.axes.n ≤ 9 }
    requires end { next_start_of header.now ≤ 2 ^ 62 }
    requires image { IfSome image.now (λ i. IsDivided i.plan.shape i.plan.tile) }
    ensures { result.bytes ≡ listed_text header.now image.now }
{
    let mut line = Line::new();
    line.push_str("HDU ");
    push_number(&mut line, u64::from(header.hdu));
    line.push_str(" ");
    match image {
        Some(image) => push_packed(&mut line, &image.plan),
        None => push_other(&mut line, header),
    }
    push_sizes(&mut line, header);
    line.push_str("\n");
    line
}

/// Prints a line.
pub(crate) fn print<T: Text>(text: &mut T, line: &Line) -> Result<(), Stop>
    ensures all { OnOk result (T.contents text.new ≡ appended line.now.bytes (T.contents text.old)) }
    ensures front { OnErr result (MayAppend line.now.bytes (T.contents text.old) (T.contents text.new)) }
    ensures told { StaysTold (T.contents text.old) (T.contents text.new) }
    ensures cause { Writes (T.tally text.old) (T.tally text.new) result }
{
    text.put(line.as_str().as_bytes()).map_err(Stop::writing)
}

// A verdict in a line.
fn verdict_word(verdict: Verdict) -> &'static str
    ensures word { result.now ≡ word_of_verdict verdict }
    ensures short { len result.now ≤ 5 }
{
    match verdict {
        Verdict::Absent => "none",
        Verdict::Right => "ok",
        Verdict::Wrong => "wrong",
    }
}

// The number of tiles of an image, if there is one.
fn push_tiles(line: &mut Line, image: &Option<PackedImage>)
    requires room { array_string_len line.old ≤ 100 }
    requires image { IfSome image.now (λ i. IsDivided i.plan.shape i.plan.tile) }
    ensures bytes { line.new.bytes ≡ line.old.bytes ++ tiles_said image.now }
    ensures len { array_string_len line.new ≤ array_string_len line.old + 40 }
{
    match image {
        Some(image) => push_number(line, u64::from(tile_count(&image.plan))),
        None => line.push_str("-"),
    }
}

// What a packed image is.
fn push_packed(line: &mut Line, plan: &Plan)
    requires room { array_string_len line.old ≤ 30 }
    requires plan { IsDivided plan.now.shape plan.now.tile }
    ensures bytes { line.new.bytes ≡ line.old.bytes ++ packed_text plan.now }
    ensures len { array_string_len line.new ≤ array_string_len line.old + 450 }
{
    line.push_str("PACKED ");
    line.push_str(codec_name(plan.codec));
    line.push_str(" ");
    line.push_str(Buffer::new().format(plan.bitpix));
    line.push_str(" ");
    push_axes(line, &plan.shape);
    line.push_str(" tile ");
    push_axes(line, &plan.tile);
    line.push_str(" rows ");
    push_number(line, u64::from(tile_count(plan)));
}

// What an HDU is that is not packed.
fn push_other(line: &mut Line, header: &Header)
    requires room { array_string_len line.old ≤ 30 }
    requires axes { header.now.axes.n ≤ 9 }
    ensures bytes { line.new.bytes ≡ line.old.bytes ++ other_text header.now }
    ensures len { array_string_len line.new ≤ array_string_len line.old + 450 }
{
    line.push_str(sort_word(header.sort));
    line.push_str(" ");
    line.push_str(Buffer::new().format(header.bitpix));
    line.push_str(" ");
    push_axes(line, &header.axes);
}

// What an HDU is, by its sort.
fn sort_word(sort: Sort) -> &'static str
    ensures word { result.now ≡ word_of_sort sort }
    ensures short { len result.now ≤ 5 }
{
    match sort {
        Sort::Primary | Sort::Image => "IMAGE",
        Sort::BinTable => "TABLE",
        Sort::Other => "OTHER",
    }
}

// The bytes of the header, and of the data with fill.
fn push_sizes(line: &mut Line, header: &Header)
    requires room { array_string_len line.old ≤ 500 }
    requires end { next_start_of header.now ≤ 2 ^ 62 }
    ensures bytes { line.new.bytes ≡ line.old.bytes ++ sizes_text header.now }
    ensures len { array_string_len line.new ≤ array_string_len line.old + 60 }
{
    let data_at = data_start(header);
    line.push_str(" header ");
    push_number(line, BLOCK_LEN as u64 * u64::from(header.blocks));
    line.push_str(" data ");
    push_number(line, next_start(header) - data_at);
}

// The lengths of axes with an x between them, or that there are none.
fn push_axes(line: &mut Line, axes: &Axes)
    requires few { axes.now.n ≤ 9 }
    requires room { array_string_len line.old ≤ 400 }
    ensures bytes { line.new.bytes ≡ line.old.bytes ++ axes_text (lengths_of axes.now) }
    ensures len { array_string_len line.new ≤ array_string_len line.old + 190 }
{
    if axes.n == 0 {
        line.push_str("-");
        return;
    }
    push_number(line, u64::from(axes.len[0]));
    for i in 1..axes.n as usize {
        line.push_str("x");
        push_number(line, u64::from(axes.len[i]));
    }
}

// A number in decimal.
fn push_number(line: &mut Line, number: u64)
    requires room { array_string_len line.old ≤ 600 }
    ensures bytes { line.new.bytes ≡ line.old.bytes ++ decimal number }
    ensures len { array_string_len line.new ≤ array_string_len line.old + 20 }
{
    line.push_str(Buffer::new().format(number));
}

// How many tiles an image has.
fn tile_count(plan: &Plan) -> u32
    requires { IsDivided plan.now.shape plan.now.tile }
    ensures { result ≡ tiles_in plan.now }
{
    Grid::new(plan.shape, plan.tile).tile_count()
}
