//! The header of an HDU, read again, and where what the HDU stands for is.
ghost use Rattle.std.specs.Prelude.{◌≡◌, ◌⊎◌, ◌+◌, ◌-◌, ◌*◌, ◌^◌, ◌<◌, ◌≤◌, length as len, None, Some, IfOk, IfSome, take};
ghost use Rattle.fz_base.specs.Ranges.{LogsIn};
ghost use Rattle.fz_base.specs.Stop.{IfRefused, ReadsOnly};
ghost use Rattle.fz_block.specs.Facts.{IsHeaderOf};
ghost use Rattle.fz_block.specs.Header.{next_start_of};
ghost use Rattle.fz_block.specs.Hdus.{cards_of, header_bytes};
ghost use Rattle.fz_head.specs.PlainHeader.{plain_header};
ghost use Rattle.fz_head.specs.Conditions.{IsPackedPlan};
ghost use Rattle.fz_files.specs.Touched.{touched_by};
ghost use Rattle.fz_files.specs.declared.job.Job.TheVariants.{Unpack};
ghost use Rattle.fz_job.specs.Images.{IsReadable};
ghost use Rattle.fz_job.specs.Again.{header_at_front};
ghost use Rattle.fz_base.specs.Keeps.{SourceStays};
ghost use Rattle.fz_job.specs.Clauses.{IsChanged};
ghost use Rattle.fz_retile.specs.Begins.{HeadersStay, IsBegun, IsReadHere, IsToldHere};
ghost use Rattle.fz_look.specs.Here.{IsCopiedHere, IsImageHere};

use fz_base::{Source, Stop};
use fz_block::{BLOCK_LEN, Header, next_start};
use fz_checks::PackedImage;
use fz_head::to_plain;
use fz_job::{Begun, ReadHdu, Survey, changed, read_again};
use fz_look::{Here, Space, pixels_len, places_law, touched_law};

/// Where an HDU begins: its number, its first byte in the packed file, whether it is HDU 1 after a primary with NAXIS 0,
/// and the first byte of what it stands for.
#[derive(Clone, Copy, Debug)]
pub(crate) struct Begin {
    pub(crate) hdu: u32,
    pub(crate) start: u64,
    pub(crate) after_empty: bool,
    pub(crate) at: u64,
}

impl Begin {
    ghost use Rattle.std.specs.Prelude.{◌≡◌, ◌<◌, ◌↔◌, IsTrue};

    /// Whether it is one of so many HDUs, and begins within so many bytes.
    pub(crate) fn is_there(&self, hdus: u32, length: u64) -> bool
        ensures exact { IsTrue result ↔ ((self.now.hdu < hdus) × (self.now.start < length)) }
    {
        self.hdu < hdus && self.start < length
    }
}

/// Reads the header of the HDU that begins there, and makes that of its image.
///
/// Refused: the source gave other bytes than before.
pub(crate) fn read_begun<S: Source>(
    source: &mut S,
    length: u64,
    plain_size: u64,
    survey: &Survey,
    begin: &Begin,
    space: &mut Space,
) -> Result<Here, Stop>
    requires attached { S.attached source.old ≡ Some length }
    requires number { begin.now.hdu ≤ 65536 }
    requires within { (begin.now.start < length) ⊎ ((begin.now.hdu ≡ 0) × (begin.now.start ≡ 0)) }
    requires place { begin.now.at ≤ plain_size }
    requires short { plain_size ≤ 2 ^ 62 }
    requires long { 2880 ≤ survey.now.header_len }
    requires header { len space.old.header ≡ survey.now.header_len }
    requires translated { len space.old.translated ≡ survey.now.header_len + 2880 }
    requires told { IfSome (S.held source.old) (λ g. IsBegun g survey.now plain_size begin.now) }
    ensures read { IfOk result (IsReadHere plain_size length (len space.old.translated) survey.now.tile space.new.header) }
    ensures place { IfOk result (λ h. h.at ≡ begin.now.at) }
    ensures told { IfOk result (λ h. IfSome (S.held source.old) (λ g. IsToldHere g space.new.translated h)) }
    ensures changed { IfRefused result IsChanged }
    ensures never { IfSome (S.held source.old) (λ g. IfRefused result (λ x. ⊥)) }
    ensures touched { IfSome (S.held source.old) (λ g. LogsIn (touched_by Unpack g) (S.ranges source.old) (S.ranges source.new)) }
    ensures stays { SourceStays S.held S.attached S.ranges source.old source.new × HeadersStay space.old space.new }
    ensures cause { ReadsOnly (S.tally source.old) (S.tally source.new) result }
{
    places_law();
    touched_law();
    let begun = Begun {
        hdu: begin.hdu,
        start: begin.start,
        after_empty: begin.after_empty,
    };
    let read = read_again(
        source,
        length,
        begun,
        survey.tile,
        space.header.as_mut_slice(),
    )?;
    let buf = space.header.as_slice();
    let made = space.translated.as_mut_slice();
    let here = here_for(buf, &read, made, begin.after_empty, begin.at);
    if here.end > plain_size {
        return Err(changed(begin.hdu));
    }
    Ok(here)
}

// Where what an HDU stands for is, whose header is in the buffer; the header of an image is made.
fn here_for(buf: &[u8], read: &ReadHdu, made: &mut [u8], after_empty: bool, at: u64) -> Here
    requires near { next_start_of read.now.header ≤ 2 ^ 62 }
    requires room { 2880 * read.now.header.blocks ≤ len buf.now }
    requires header { IsHeaderOf (header_at_front read.now buf.now) read.now.header }
    requires image { IfSome read.now.image (λ i. IsPackedPlan (header_at_front read.now buf.now) read.now.header i.plan × IsReadable i) }
    requires made { len buf.now + 2880 ≤ len made.old }
    requires early { at ≤ 2 ^ 62 }
    ensures read { (result.read ≡ read.now) × (result.after_empty ≡ after_empty) × (result.at ≡ at) }
    ensures copied { read.now.image ≡ None → IsCopiedHere read.now at result }
    ensures image { IfSome read.now.image (λ i. IsImageHere (header_at_front read.now buf.now) read.now i.plan after_empty at result) }
    ensures made { IfSome read.now.image (λ i. take (result.data_at - at) made.new
        ≡ header_bytes (plain_header (cards_of (header_at_front read.now buf.now)))) }
    ensures fits { result.data_at ≤ at + len made.old }
    ensures len { len made.new ≡ len made.old }
{
    match &read.image {
        Some(image) => image_here(buf, read, image, made, after_empty, at),
        None => {
            let end = at + (next_start(&read.header) - read.header.start);
            Here {
                read: *read,
                after_empty,
                at,
                data_at: at,
                data_end: end,
                end,
            }
        }
    }
}

// Where an image is, whose header is made.
fn image_here(
    buf: &[u8],
    read: &ReadHdu,
    image: &PackedImage,
    made: &mut [u8],
    after_empty: bool,
    at: u64,
) -> Here
    requires room { 2880 * read.now.header.blocks ≤ len buf.now }
    requires header { IsHeaderOf (header_at_front read.now buf.now) read.now.header }
    requires plan { IsPackedPlan (header_at_front read.now buf.now) read.now.header image.now.plan }
    requires image { IsReadable image.now }
    requires made { len buf.now + 2880 ≤ len made.old }
    requires early { at ≤ 2 ^ 62 }
    ensures here { IsImageHere (header_at_front read.now buf.now) read.now image.now.plan after_empty at result }
    ensures made { take (result.data_at - at) made.new ≡ header_bytes (plain_header (cards_of (header_at_front read.now buf.now))) }
    ensures fits { result.data_at ≤ at + len made.old }
    ensures len { len made.new ≡ len made.old }
{
    let header: &Header = &read.header;
    let buf = &buf[..BLOCK_LEN * header.blocks as usize];
    let data_at = at + to_plain(buf, header, &image.plan, made) as u64;
    let data_len = pixels_len(image);
    Here {
        read: *read,
        after_empty,
        at,
        data_at,
        data_end: data_at + data_len,
        end: data_at + data_len.div_ceil(BLOCK_LEN as u64) * BLOCK_LEN as u64,
    }
}
