//! What the options of a line say.
ghost use Rattle.std.specs.Prelude.{◌≡◌, ◌≤◌, ◌<◌, ◌^◌, IfOk, IfSome, Some};
ghost use Rattle.std.specs.Result.{result_ok};
ghost use Rattle.fz_head.specs.Planned.{IsTile};
ghost use Rattle.fz_words.specs.Jobs.{at_of, block_of, box_of, codec_of, hdu_of, memory_of, strict_of, sums_of, tile_of, workers_of};
ghost use Rattle.fz_files.specs.Picks.{HasPicks};
ghost use Rattle.fz_words.specs.Seen.{seen_line};
ghost use Rattle.fz_words.specs.Values.{codec_in};

use crate::line::Line;
use crate::lists::{box_in, lengths_in};
use crate::number::{number_in, short_in};
use crate::request::Usage;
use crate::table::OptionName;
use fz_block::Axes;
use fz_grid::Sieve;
use fz_head::CodecWord;

/// The memory that buffers may take, if no limit is given: 4,294,967,296 bytes.
pub(crate) const MEMORY: u64 = 1 << 32;

/// The codec; rice, if none is given.
pub(crate) fn codec_of(line: &Line<'_>) -> Result<CodecWord, Usage>
    ensures { result_ok result ≡ codec_of (seen_line line.now) }
{
    match line.value(OptionName::Codec)? {
        None => Ok(CodecWord::Rice),
        Some(text) => codec_in(text).ok_or(Usage),
    }
}

fn codec_in(text: &str) -> Option<CodecWord>
    ensures { result ≡ codec_in text.now }
{
    match text {
        "rice" => Some(CodecWord::Rice),
        "plio" => Some(CodecWord::Plio),
        "none" => Some(CodecWord::None),
        _ => None,
    }
}

/// The lengths of a tile along the leading axes, if they are given.
pub(crate) fn tile_of(line: &Line<'_>) -> Result<Option<Axes>, Usage>
    ensures value { result_ok result ≡ tile_of (seen_line line.now) }
    ensures lawful { IfOk result IsTile }
{
    match line.value(OptionName::Tile)? {
        None => Ok(None),
        Some(text) => Ok(Some(lengths_in(text).ok_or(Usage)?)),
    }
}

/// The numbers in a block of the Rice code, which no other codec has; 32, if they are not given.
pub(crate) fn block_of(codec: CodecWord, line: &Line<'_>) -> Result<u32, Usage>
    ensures value { result_ok result ≡ block_of codec (seen_line line.now) }
    ensures lawful { IfOk result (λ block. (1 ≤ block) × (block ≤ 32767)) }
{
    match (line.value(OptionName::Block)?, codec) {
        (None, _) => Ok(32),
        (Some(text), CodecWord::Rice) => short_in(text, 1, 32767).ok_or(Usage),
        (Some(_), CodecWord::Plio | CodecWord::None) => Err(Usage),
    }
}

/// Whether sums are asked for.
pub(crate) fn sums_of(line: &Line<'_>) -> Result<bool, Usage>
    ensures { result_ok result ≡ sums_of (seen_line line.now) }
{
    Ok(line.value(OptionName::Sums)?.is_some())
}

/// Whether a file is to be compared with what `pack` writes.
pub(crate) fn strict_of(line: &Line<'_>) -> Result<bool, Usage>
    ensures { result_ok result ≡ strict_of (seen_line line.now) }
{
    Ok(line.value(OptionName::Strict)?.is_some())
}

/// The number of workers; 1, if it is not given.
pub(crate) fn workers_of(line: &Line<'_>) -> Result<u32, Usage>
    ensures value { result_ok result ≡ workers_of (seen_line line.now) }
    ensures lawful { IfOk result (λ workers. (1 ≤ workers) × (workers ≤ 64)) }
{
    match line.value(OptionName::Workers)? {
        None => Ok(1),
        Some(text) => short_in(text, 1, 64).ok_or(Usage),
    }
}

/// The bytes that buffers may take.
pub(crate) fn memory_of(line: &Line<'_>) -> Result<u64, Usage>
    ensures value { result_ok result ≡ memory_of (seen_line line.now) }
    ensures lawful { IfOk result (λ memory. (1 ≤ memory) × (memory ≤ 2 ^ 40)) }
{
    match line.value(OptionName::Memory)? {
        None => Ok(MEMORY),
        Some(text) => number_in(text, 1, 1 << 40).ok_or(Usage),
    }
}

/// The number of the HDU, if it is given.
pub(crate) fn hdu_of(line: &Line<'_>) -> Result<Option<u32>, Usage>
    ensures value { result_ok result ≡ hdu_of (seen_line line.now) }
    ensures lawful { IfOk result (λ hdu. IfSome hdu (λ h. h < 2 ^ 16)) }
{
    match line.value(OptionName::Hdu)? {
        None => Ok(None),
        Some(text) => Ok(Some(short_in(text, 0, 65535).ok_or(Usage)?)),
    }
}

/// The box, which has to be given.
pub(crate) fn box_of(line: &Line<'_>) -> Result<Sieve, Usage>
    ensures value { result_ok result ≡ box_of (seen_line line.now) }
    ensures lawful { IfOk result HasPicks }
{
    let text = line.value(OptionName::Box)?.ok_or(Usage)?;
    box_in(text).ok_or(Usage)
}

/// Where the first pixel of what is put into an image goes: a place along each axis, counted from 1, which have to be
/// given.
pub(crate) fn at_of(line: &Line<'_>) -> Result<Axes, Usage>
    ensures value { result_ok result ≡ at_of (seen_line line.now) }
    ensures lawful { IfOk result (λ at. IsTile (Some at)) }
{
    let text = line.value(OptionName::At)?.ok_or(Usage)?;
    lengths_in(text).ok_or(Usage)
}
