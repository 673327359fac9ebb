//! Where and why a file is refused.
use crate::Kind;

/// A place in a file that is read, counted from 0.
#[derive(Clone, Copy, Debug, PartialEq, Eq)]
pub enum Place {
    /// A byte of the file.
    Byte(u64),
    /// A card of the header.
    Card(u32),
    /// A row of the packed table.
    Row(u32),
}

/// A refusal: the HDU (counted from 0), the place in it, and the kind.
#[derive(Clone, Copy, Debug, PartialEq, Eq)]
pub struct Fault {
    pub hdu: u32,
    pub at: Place,
    pub kind: Kind,
}
