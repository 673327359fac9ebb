//! Who works on the tiles of a call.
ghost use Rattle.std.specs.Prelude.{◌≤◌};

/// Who works: what starts threads, the gate that each worker passes before a tile, and how many workers there are.
#[derive(Drop)]
pub struct Crew<'a, R, G> {
    /// What starts threads.
    pub rt: &'a R,
    /// What each worker passes before a tile.
    pub gate: &'a G,
    /// How many work.
    pub workers: u32,
    pub ghost some: { 1 ≤ workers },
    pub ghost few: { workers ≤ 64 },
}
