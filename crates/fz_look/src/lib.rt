//! What is learnt of a packed file that is read as the file that it stands for, and the pixels of a box of an image in it.
//!
//! Reading order: `looked`, `whole_look`, `hdus`; `here`, `marked`, `filling`, `fronts`, `boxes`; `law`.
#![tactic(auto)]

mod boxes;
mod filling;
mod fronts;
mod hdus;
mod here;
mod law;
mod looked;
mod marked;
mod whole_look;

pub use boxes::{box_at, has_pixel};
pub use filling::fill_band;
pub use fronts::{put_front, put_zeros, read_front};
pub use hdus::pixels_len;
pub use here::Here;
pub use law::{image_law, line_law, pieces_law, places_law, readable_law, touched_law};
pub use looked::{First, Looked, Space};
pub use marked::forget_marks;
pub use whole_look::look;
