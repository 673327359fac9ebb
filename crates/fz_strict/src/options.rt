//! The options by which a file may have been packed.
ghost use Rattle.std.specs.Prelude.{◌≡◌, ◌<◌, ◌≤◌, Some, length as len, IfOk, IfSome};
ghost use Rattle.fz_base.specs.Stop.{IfRefused, ReadsOnly};
ghost use Rattle.fz_block.specs.Facts.{IsHeaderOf};
ghost use Rattle.fz_block.specs.Hdus.{cards_of};
ghost use Rattle.fz_head.specs.Planned.{AreOptions, IsTile};
ghost use Rattle.fz_files.specs.declared.job.Job.TheVariants.{Verify};
ghost use Rattle.fz_tile.specs.Codecs.{ReadsCodes};
ghost use Rattle.fz_job.specs.Hdus.{ReadsHdus};
ghost use Rattle.fz_base.specs.Keeps.{SourceStays};
ghost use Rattle.fz_job.specs.Clauses.{IsChanged};
ghost use Rattle.fz_strict.specs.FoundOptions.{has_sums as has_sums_of};
ghost use Rattle.fz_strict.specs.Gathered.{FindsOptions, greater_tile as greater_tile_of, greatest_tile as greatest_tile_of};
ghost use Rattle.fz_strict.specs.Gathered.{length_along as length_along_of, longer as longer_of, said_codec as said_codec_of};

use fz_base::{Source, Stop, ranges_law};
use fz_block::{Axes, BLOCK_LEN, Header, cards_law, next_start};
use fz_card::Name;
use fz_head::{CodecWord, PackOptions, Plan};
use fz_job::{Begun, ReadHdu, Survey, hdus_law, read_front};
use fz_table::first_named;
use fz_tile::Codec;

/// What the headers of packed images say of the options by which they were packed.
#[derive(Clone, Copy, Debug)]
pub(crate) struct Found {
    /// The codec of the first image that is not of 64 bits.
    pub(crate) codec: Option<Codec>,
    /// Along each axis the greatest length of a tile, of the images that have the axis.
    pub(crate) tile: Option<Axes>,
    /// Whether the table of the first image has cards of sums.
    pub(crate) sums: bool,
}

/// The options by which `pack` wrote the file, if it did. `header` has room for the longest header.
pub(crate) fn find_options<S: Source>(
    source: &mut S,
    length: u64,
    survey: &Survey,
    header: &mut [u8],
) -> Result<PackOptions, Stop>
    requires attached { S.attached source.old ≡ Some length }
    requires some { 0 < survey.now.hdus }
    requires few { survey.now.hdus ≤ 65536 }
    requires long { 2880 ≤ survey.now.header_len }
    requires header { survey.now.header_len ≤ len header.old }
    ensures options { IfSome (S.held source.old) (λ g. FindsOptions g survey.now result) }
    ensures allowed { IfOk result AreOptions }
    ensures changed { IfRefused result IsChanged }
    ensures stays { SourceStays S.held S.attached S.ranges source.old source.new × (len header.new ≡ len header.old) }
    ensures read { IfSome (S.held source.old) (λ g. ReadsHdus Verify g survey.now (S.ranges source.old) (S.ranges source.new)) }
    ensures cause { ReadsOnly (S.tally source.old) (S.tally source.new) result }
{
    hdus_law();
    ranges_law();
    let mut found = Found::nothing();
    let mut start = 0;
    let mut after_empty = false;
    for hdu in 0..survey.hdus {
        let begun = Begun {
            hdu,
            start,
            after_empty,
        };
        let again = read_front(source, length, begun, survey, header)?;
        found = found.with_hdu(header, &again);
        start = next_start(&again.header);
        if start == length {
            return Ok(found.options());
        }
        after_empty = again.is_empty_primary();
    }
    Ok(found.options())
}

impl Found {
    ghost use Rattle.std.specs.Prelude.{◌≡◌, ◌*◌, ◌≤◌, length as len, take, Some, IfSome};
    ghost use Rattle.fz_block.specs.Facts.{IsHeaderOf};
    ghost use Rattle.fz_block.specs.Hdus.{cards_of};
    ghost use Rattle.fz_head.specs.Planned.{AreOptions, IsTile};
    ghost use Rattle.fz_tile.specs.Codecs.{ReadsCodes};
    ghost use Rattle.fz_strict.specs.Gathered.{IsFound, nothing_found, options_found, with_cards, with_image as with_image_of};

    // No image was met.
    fn nothing() -> Found
        ensures found { IsFound result }
        ensures value { result ≡ nothing_found }
    {
        Found {
            codec: None,
            tile: None,
            sums: false,
        }
    }

    // With what an HDU says, whose header is in the buffer.
    fn with_hdu(&self, buf: &[u8], again: &ReadHdu) -> Found
        requires found { IsFound self.now }
        requires room { 2880 * again.now.header.blocks ≤ len buf.now }
        requires header { IsHeaderOf (take (2880 * again.now.header.blocks) buf.now) again.now.header }
        requires tile { IfSome again.now.image (λ i. IsTile (Some i.plan.tile) × ReadsCodes i.plan.codec) }
        ensures found { IsFound result }
        ensures value { result ≡ with_cards self.now (cards_of (take (2880 * again.now.header.blocks) buf.now)) again.now.image }
    {
        match &again.image {
            Some(image) => {
                let buf = &buf[..BLOCK_LEN * again.header.blocks as usize];
                self.with_image(&image.plan, has_sums(buf, &again.header))
            }
            None => *self,
        }
    }

    // With an image that has this plan, and cards of sums or none.
    fn with_image(&self, plan: &Plan, sums: bool) -> Found
        requires found { IsFound self.now }
        requires tile { IsTile (Some plan.now.tile) }
        requires codec { ReadsCodes plan.now.codec }
        ensures found { IsFound result }
        ensures value { result ≡ with_image_of self.now plan.now sums }
    {
        Found {
            codec: match self.codec {
                Some(codec) => Some(codec),
                None => said_codec(plan),
            },
            tile: Some(greatest_tile(&self.tile, &plan.tile)),
            sums: if self.tile.is_some() { self.sums } else { sums },
        }
    }

    // The options by which `pack` packs images so; any codec does if it stores all their pixels.
    fn options(&self) -> PackOptions
        requires { IsFound self.now }
        ensures allowed { AreOptions result }
        ensures value { result ≡ options_found self.now }
    {
        let (codec, block) = match self.codec {
            Some(Codec::Plio) => (CodecWord::Plio, 32),
            Some(Codec::Plain) => (CodecWord::None, 32),
            Some(Codec::Rice { block, .. }) => (CodecWord::Rice, block),
            None => (CodecWord::Rice, 32),
        };
        PackOptions {
            codec,
            tile: self.tile,
            block,
            sums: self.sums,
            workers: 1,
        }
    }
}

// Whether a header has both cards of sums.
fn has_sums(buf: &[u8], header: &Header) -> bool
    requires { IsHeaderOf buf.now header.now }
    ensures { result ≡ has_sums_of (cards_of buf.now) }
{
    cards_law();
    first_named(buf, header, &Name::DATASUM).is_some()
        && first_named(buf, header, &Name::CHECKSUM).is_some()
}

// The codec of an image; none if its pixels are of 64 bits, which are stored whatever the codec.
fn said_codec(plan: &Plan) -> Option<Codec>
    requires { ReadsCodes plan.now.codec }
    ensures value { result ≡ said_codec_of plan.now }
    ensures codec { IfSome result ReadsCodes }
{
    if plan.bitpix == 64 {
        return None;
    }
    Some(plan.codec)
}

// Along each axis the greater length of two tiles.
fn greatest_tile(found: &Option<Axes>, tile: &Axes) -> Axes
    requires found { IsTile found.now }
    requires tile { IsTile (Some tile.now) }
    ensures value { result ≡ greatest_tile_of found.now tile.now }
    ensures tile { IsTile (Some result) }
{
    match found {
        Some(found) => greater_tile(found, tile),
        None => *tile,
    }
}

// The same of two tiles.
fn greater_tile(found: &Axes, tile: &Axes) -> Axes
    requires found { found.now.n ≤ 9 }
    requires tile { tile.now.n ≤ 9 }
    ensures { result ≡ greater_tile_of found.now tile.now }
{
    Axes {
        n: found.n.max(tile.n),
        len: [
            longer(found, tile, 0),
            longer(found, tile, 1),
            longer(found, tile, 2),
            longer(found, tile, 3),
            longer(found, tile, 4),
            longer(found, tile, 5),
            longer(found, tile, 6),
            longer(found, tile, 7),
            longer(found, tile, 8),
        ],
    }
}

// The greater length along an axis.
fn longer(found: &Axes, tile: &Axes, i: usize) -> u32
    requires found { found.now.n ≤ 9 }
    requires tile { tile.now.n ≤ 9 }
    ensures { result ≡ longer_of found.now tile.now i }
{
    length_along(found, i).max(length_along(tile, i))
}

// The length along an axis, or 0 if there is no such axis.
fn length_along(axes: &Axes, i: usize) -> u32
    requires { axes.now.n ≤ 9 }
    ensures { result ≡ length_along_of axes.now i }
{
    if i < axes.n as usize { axes.len[i] } else { 0 }
}
