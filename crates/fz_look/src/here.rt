//! The HDU at hand.
ghost use Rattle.std.specs.Prelude.{◌≡◌};

use fz_job::ReadHdu;

/// An HDU of a packed file, and where what it stands for is in the file that the packed file stands for.
#[derive(Clone, Copy, Debug)]
pub struct Here {
    /// Its header in the packed file, and its image.
    pub read: ReadHdu,
    /// Whether it is HDU 1 after a primary with NAXIS 0.
    pub after_empty: bool,
    /// The byte at which what it stands for begins.
    pub at: u64,
    /// The byte after the header of the image that it stands for; that where it begins, if it is copied.
    pub data_at: u64,
    /// The byte after its data, without fill.
    pub data_end: u64,
    /// The byte after all that it stands for.
    pub end: u64,
}
