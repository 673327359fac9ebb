//! Unpacks a file: each table of a packed image becomes the image, and every other HDU is copied, but for an empty
//! primary before a packed primary.
//!
//! Reading order: `unpack_file`, `law`, `file`, `first`, `seen`, `hdu`, `restore`, `image`, `turns`.
#![tactic(auto)]

mod file;
mod first;
mod hdu;
mod image;
mod law;
mod restore;
mod seen;
mod turns;
mod unpack_file;

pub use unpack_file::unpack;
