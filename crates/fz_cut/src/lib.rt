//! Cuts a part out of a packed image: the picks of a box with steps become a primary image of their own, only from the headers
//! of the file and the tiles that hold a pick.
//!
//! Reading order: `cut_file`, `law`, `boxes`, `again`, `file`, `part_header`, `moved`, `picks`.
#![tactic(auto)]

mod again;
mod boxes;
mod cut_file;
mod file;
mod law;
mod moved;
mod part_header;
mod picks;

pub use cut_file::cut;
pub use law::slice_law;
