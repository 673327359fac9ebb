//! Says whether a file is the packed file, by some options, of the file that it stands for.
//!
//! Reading order: `laws`, `worked`; `strict_file`, `options`, `hdus`, `origin`, `plans`, `headers`, `image`, `image_law`.
#![tactic(auto)]

mod hdus;
mod headers;
mod image;
mod image_law;
mod laws;
mod options;
mod origin;
mod plans;
mod strict_file;
mod worked;

pub use laws::{one_hdu_law, options_law, same_hdus_law};
pub use strict_file::{Decoded, strict, strict_decoded};
pub use worked::strict_files_law;
