//! The ground of fz: places and faults, the ends that a job reads and writes, and metered buffers.
//!
//! Reading order: `kind`, `fault`, `failure`; the traits `source`, `sink`, `store`, `text`, `gate`;
//! `calls`, `placing` and the objects in memory `mem_source`, `fixed_source`, `mem_sink`, `mem_store`,
//! `mem_text`; the adapters `file_source`, `file_sink`, `file_store`, `std_text`; `output`, `amends`,
//! `compare` and `laws`; `buffer` and `meter`.
#![tactic(auto)]

mod amends;
mod buffer;
mod calls;
mod compare;
mod failure;
mod fault;
mod file_sink;
mod file_source;
mod file_store;
mod fixed_source;
mod gate;
mod kind;
mod laws;
mod mem_sink;
mod mem_source;
mod mem_store;
mod mem_text;
mod meter;
mod output;
mod placing;
mod sink;
mod source;
mod std_text;
mod store;
mod text;

pub use amends::amend_at;
pub use buffer::{Bytes, Numbers};
pub use compare::has_bytes;
pub use failure::{Failed, NoMemory, Short, Stop};
pub use fault::{Fault, Place};
pub use file_sink::FileSink;
pub use file_source::FileSource;
pub use file_store::FileStore;
pub use fixed_source::FixedSource;
pub use gate::{FreeGate, Gate};
pub use kind::Kind;
pub use laws::{log_law, output_law, places_law, ranges_law, takings_law};
pub use mem_sink::MemSink;
pub use mem_source::MemSource;
pub use mem_store::MemStore;
pub use mem_text::MemText;
pub use meter::Meter;
pub use output::{copy, seal, write_behind};
pub use sink::Sink;
pub use source::Source;
pub use std_text::StdText;
pub use store::{Store, StoreEvent, Write};
pub use text::Text;
