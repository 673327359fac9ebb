//! The window of tiles, and the workers that draw them by ticket.
//!
//! Reading order: `slot`, `window`, `filling`, `halves`; `law`; `crew`, `task`; `board`, `step_facts`, `code`, `steps`; `workers`, `moving`,
//! `round`, `encode`, `decode`; `laws`.
#![tactic(auto)]

mod board;
mod code;
mod crew;
mod decode;
mod encode;
mod filling;
mod halves;
mod law;
mod laws;
mod moving;
mod round;
mod slot;
mod step_facts;
mod steps;
mod task;
mod window;
mod workers;

pub use board::{Board, Hand, Running, TableKey, Turn, View};
pub use crew::Crew;
pub use decode::{decode_beside, decode_window};
pub use encode::{encode_beside, encode_window};
pub use law::window_law;
pub use laws::{halves_law, length_law, lowest_fault_law, put_law, round_law, sizes_law};
pub use slot::{Job, Slot};
pub use steps::{draw, home, work};
pub use task::Task;
pub use window::{BY_TURNS, Window};
