//! The table that the workers share. Its one word is the ticket: the number of the next tile. Each of
//! its slots holds a slot of the window.
use crate::{Slot, Task};
use atomic_table::{Seat, Table, TableRule};
use std::alloc::Global;
use std::collections::LinkedList;
use std::snapshot::Snapshot;

/// What a table is made for: the window's slots as they were, how many of them are worked on, by how many
/// workers, and whether they are encoded or decoded.
#[derive(Drop)]
pub struct TableKey {
    /// All slots of the window before any moved out. It takes no memory.
    pub slots: Snapshot<Vec<Slot>>,
    /// How many of the first slots are worked on.
    pub count: u64,
    /// How many seats are split off the first one.
    pub workers: u64,
    /// Whether the slots are encoded or decoded.
    pub task: Task,
}

/// What a seat has to do. No value of it is made.
pub enum Turn {
    /// It holds no slot, and may draw.
    Idle,
    /// It holds the slot of this tile.
    Tile(u64),
    /// Its last draw found no tile left.
    Ended,
    /// It was joined away.
    Spent,
    /// The first seat: how many seats it may still split off, how many of them were not joined again,
    /// and whether one was.
    Lead(u64, u64, bool),
}

/// What a seat knows. No value of it is made.
pub struct View {
    /// The slots that are worked on, as they were.
    pub starts: LinkedList<Slot>,
    /// How many seats are split off the first one.
    pub workers: u64,
    /// Whether the slots are encoded or decoded.
    pub task: Task,
    /// What this seat has to do.
    pub turn: Turn,
    /// At most the ticket: one more than the ticket of its last draw.
    pub seen: u64,
}

/// The rule of the table.
pub struct Running;

impl TableRule<Option<Slot>, View, TableKey> for Running {
    ghost use Rattle.fz_pool.specs.Running.{Kept, leading, starts_of};

    ghost holds = { λ key. Kept (starts_of key) key.workers key.task };

    ghost first = { λ key. leading (starts_of key) key.workers key.task };
}

/// The table of one call. Workers step on it with a `Hand`.
pub type Board = Table<Option<Slot>, View, TableKey, Running, Global>;

/// A seat of a `Board`.
pub type Hand = Seat<Option<Slot>, View>;
