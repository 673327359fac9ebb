//! The file that a packed file stands for, as a source: its bytes are decoded as they are read; and the job `retile`, which
//! packs that file again.
//!
//! Reading order: `view`, `going`, `reading`, `pixels`, `plain_source`, `pinned`; `retile_file`, `one_limit`, `pinning`, `watched`, `law`.
#![tactic(auto)]

mod going;
mod law;
mod one_limit;
mod pinned;
mod pinning;
mod pixels;
mod plain_source;
mod reading;
mod retile_file;
mod view;
mod watched;

pub use law::{longest_header_law, retile_law};
pub use one_limit::retile_within;
pub use pinned::{Origin, Pinned};
pub use retile_file::{retile, settled};
pub use view::PlainView;
