//! What the look at a packed file learns, and the buffers that it leaves to a view.
ghost use Rattle.std.specs.Prelude.{◌≡◌, ◌≤◌};
ghost use Rattle.fz_base.specs.Meter.{handed_back};
ghost use Rattle.fz_look.specs.Looked.{buffers_of};

use fz_base::{Bytes, Meter, Numbers};
use fz_job::Survey;

/// The first HDU that stands for something: its number, the byte at which it begins, and whether it is HDU 1 after a
/// primary with NAXIS 0.
#[derive(Clone, Copy, Debug, PartialEq, Eq)]
pub struct First {
    pub hdu: u32,
    pub start: u64,
    pub after_empty: bool,
}

/// The buffers of a view.
#[derive(Drop)]
pub struct Space {
    /// The block with which the look read headers. A view does not use it: it stays live since the peak of a job, which is said
    /// exactly, has one block beside all other buffers.
    pub block: Bytes,
    /// A header as it is read.
    pub header: Bytes,
    /// The header of the image that it stands for.
    pub translated: Bytes,
    /// The numbers of a tile.
    pub numbers: Numbers,
    /// The bytes of a record.
    pub code: Bytes,
    /// The pixels of a box of an image.
    pub band: Bytes,
}

impl Space {
    /// Hands all back.
    pub fn give_back(self, meter: &mut Meter)
        requires live { buffers_of self ≤ meter.old.live }
        ensures given { meter.new ≡ handed_back meter.old (buffers_of self) }
    {
        meter.give_bytes(self.band);
        meter.give_bytes(self.code);
        meter.give_numbers(self.numbers);
        meter.give_bytes(self.translated);
        meter.give_bytes(self.header);
        meter.give_bytes(self.block);
    }
}

/// What the look at a packed file learns: no check of its headers refuses it, and all its rows stand for pixels.
#[derive(Drop)]
pub struct Looked {
    /// The bytes of the file that it stands for.
    pub plain_len: u64,
    /// What the first look at its headers learnt.
    pub survey: Survey,
    /// The first HDU that stands for something.
    pub first: First,
    pub space: Space,
}
