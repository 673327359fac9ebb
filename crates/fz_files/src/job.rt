//! The jobs.
use fz_grid::Sieve;
use fz_head::PackOptions;

/// A job, and what it is asked to do.
#[derive(Clone, Copy, Debug, PartialEq, Eq)]
pub enum Job {
    /// Writes the packed file of a file.
    Pack(PackOptions),
    /// Writes the file that a packed file stands for.
    Unpack,
    /// Writes the picks of a packed image as a primary image of their own: of the HDU of this number, or of
    /// the first that is packed.
    Cut { hdu: Option<u32>, sieve: Sieve },
    /// Decodes every tile and prints what the checksums of every HDU say.
    Verify,
    /// Prints what every HDU is.
    List,
    /// Packs, unpacks and cuts a file of so many rows in memory.
    Drill { rows: u32 },
    /// Writes the packed file of the file that a packed file stands for.
    Retile(PackOptions),
}
