//! The first HDU that stands for something.

ghost use Rattle.std.specs.Prelude.{◌≡◌};
ghost use Rattle.fz_unpack.specs.First.{first_at};

use fz_job::Survey;

/// An HDU: its number, the byte at which it begins, and whether it is HDU 1 after a primary with NAXIS 0.
#[derive(Clone, Copy, Debug)]
pub(crate) struct First {
    pub(crate) hdu: u32,
    pub(crate) start: u64,
    pub(crate) after_empty: bool,
}

/// The first HDU that stands for something: the primary, unless the packed primary after it stands for the
/// primary (FITS 4.0, section 10.1).
pub(crate) fn first_standing(survey: &Survey) -> First
    ensures { result ≡ first_at survey.now.packed_primary }
{
    if let Some(start) = survey.packed_primary {
        return First {
            hdu: 1,
            start,
            after_empty: true,
        };
    }
    First {
        hdu: 0,
        start: 0,
        after_empty: false,
    }
}
