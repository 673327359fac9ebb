//! A place that each worker passes before each tile.

/// Called by a worker before it works on a tile. It promises nothing but to return. Threads share
/// one gate.
pub trait Gate: Sync {
    /// The worker's number and the tile's number in its image.
    fn pass(&self, worker: u32, tile: u32);
}

/// A gate that does nothing.
#[derive(Clone, Copy, Debug, Default)]
pub struct FreeGate;

impl Gate for FreeGate {
    fn pass(&self, _worker: u32, _tile: u32) {}
}
