//! How a command is written, and what it does.
use crate::command::Command;

impl Command {
    /// How it is written.
    pub(crate) fn synopsis(self) -> &'static str {
        match self {
            Command::Pack => {
                "fz pack [--codec rice|plio|none] [--tile a,b,..] [--block n] [--sums]
         [--workers n] [--memory bytes] IN OUT"
            }
            Command::Unpack => "fz unpack [--workers n] [--memory bytes] IN OUT",
            Command::Cut => {
                "fz cut --box lo:hi[:step],.. [--hdu k] [--workers n] [--memory bytes] IN OUT"
            }
            Command::Verify => "fz verify [--strict] [--memory bytes] IN",
            Command::List => "fz list IN",
            Command::Drill => "fz drill N",
            Command::Retile => {
                "fz retile [--codec rice|plio|none] [--tile a,b,..] [--block n] [--sums]
         [--workers n] [--memory bytes] IN OUT"
            }
            Command::Patch => "fz patch --at a,b,.. [--hdu k] [--memory bytes] PATCH FILE",
        }
    }

    /// What it does.
    pub(crate) fn purpose(self) -> &'static str {
        match self {
            Command::Pack => "compress the integer images of IN",
            Command::Unpack => "restore the file that was packed",
            Command::Cut => "write a part of a packed image",
            Command::Verify => "check tiles and checksums: a line for each HDU, no output file",
            Command::List => "check headers: a line for each HDU, no output file",
            Command::Drill => "a self-test in memory, with N rows, 1 to 16384",
            Command::Retile => "pack again, with these options, what IN stands for",
            Command::Patch => "put an image into a packed image of FILE, in place",
        }
    }

    /// A line for each of its options.
    pub(crate) fn options(self) -> &'static str {
        match self {
            Command::Pack | Command::Retile => PACKING,
            Command::Unpack => WORKING,
            Command::Cut => CUTTING,
            Command::Verify => VERIFYING,
            Command::List | Command::Drill => "",
            Command::Patch => PATCHING,
        }
    }
}

const PACKING: &str = "
  --codec rice|plio|none  rice (default) for counts, plio for masks, none to store
  --tile a,b,..           lengths of a tile along the first axes (default: a row)
  --block n               pixels in a block of the rice code (default: 32)
  --sums                  add DATASUM and CHECKSUM, by which verify finds damage
  --workers n             threads, 1 to 64 (default: 1)
  --memory bytes          the most that buffers may take (default: 4294967296)
";

const WORKING: &str = "
  --workers n     threads, 1 to 64 (default: 1)
  --memory bytes  the most that buffers may take (default: 4294967296)
";

const CUTTING: &str = "
  --box lo:hi[:step],..  the pixels: a range for each axis, counted from 1
  --hdu k                the HDU of the image (default: the first that is packed)
  --workers n            threads, 1 to 64 (default: 1)
  --memory bytes         the most that buffers may take (default: 4294967296)
";

const VERIFYING: &str = "
  --strict        say, too, whether pack writes this very file
  --memory bytes  the most that buffers may take (default: 4294967296)
";

const PATCHING: &str = "
  --at a,b,..     where its first pixel goes: a place for each axis, counted from 1
  --hdu k         the HDU of the packed image (default: the first that is packed)
  --memory bytes  the most that buffers may take (default: 4294967296)
";
