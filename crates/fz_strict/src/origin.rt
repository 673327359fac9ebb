//! The file that a packed file stands for, as far as it was compared.
ghost use Rattle.std.specs.Prelude.{◌≡◌, ◌≤◌, ◌^◌};
ghost use Rattle.fz_block.specs.Facts.{IsHeaderOf};
ghost use Rattle.fz_block.specs.Header.{next_start_of};
ghost use Rattle.fz_head.specs.Planned.{AreOptions};
ghost use Rattle.fz_strict.specs.Origins.{no_origin, with_copied as with_copied_of, with_hdu as with_hdu_of};

use fz_block::Header;
use fz_checks::plan_to_pack;
use fz_head::PackOptions;

/// The last place of a file at which data may end.
pub(crate) const MAX_PLACE: u64 = 1 << 62;

/// The most HDUs of a file that is packed.
const MOST_HDUS: u32 = 65_535;

/// The first HDUs of the file that a packed file stands for, as long as the packed file is what `pack` writes for them.
#[derive(Clone, Copy, Debug)]
pub(crate) struct Origin {
    /// How many HDUs.
    pub(crate) hdus: u32,
    /// The byte after them.
    pub(crate) end: u64,
}

impl Origin {
    ghost use Rattle.std.specs.Prelude.{◌≡◌, ◌≤◌, ◌^◌};
    ghost use Rattle.fz_block.specs.Facts.{IsHeaderOf};
    ghost use Rattle.fz_block.specs.Header.{next_start_of};
    ghost use Rattle.fz_head.specs.Planned.{AreOptions};
    ghost use Rattle.fz_strict.specs.Origins.{no_origin, with_copied as with_copied_of, with_hdu as with_hdu_of};

    /// No HDU.
    pub(crate) fn none() -> Origin
        ensures { result ≡ no_origin }
    {
        Origin { hdus: 0, end: 0 }
    }

    /// With one HDU more, which has so many bytes, if a file that is packed can have it.
    pub(crate) fn with_hdu(&self, len: u64) -> Option<Origin>
        requires hdus { self.now.hdus ≤ 65535 }
        requires end { self.now.end ≤ 2 ^ 62 }
        requires len { len ≤ 2 ^ 62 }
        ensures { result ≡ with_hdu_of self.now len }
    {
        let end = self.end + len;
        if self.hdus == MOST_HDUS || end > MAX_PLACE {
            return None;
        }
        Some(Origin {
            hdus: self.hdus + 1,
            end,
        })
    }

    /// With an HDU that is not packed, if `pack` copies it.
    pub(crate) fn with_copied(
        &self,
        buf: &[u8],
        header: &Header,
        len: u64,
        options: &PackOptions,
    ) -> Option<Origin>
        requires hdus { self.now.hdus ≤ 65535 }
        requires end { self.now.end ≤ 2 ^ 62 }
        requires len { len ≤ 2 ^ 62 }
        requires header { IsHeaderOf buf.now header.now }
        requires inside { next_start_of header.now ≤ 2 ^ 62 }
        requires options { AreOptions options.now }
        ensures { result ≡ with_copied_of options.now self.now header.now buf.now len }
    {
        match plan_to_pack(buf, header, options) {
            Ok(None) => self.with_hdu(len),
            _ => None,
        }
    }
}
