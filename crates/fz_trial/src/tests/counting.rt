//! A gate that counts.
use fz_base::Gate;
use std::sync::atomic::{AtomicU64, Ordering};

/// Counts the calls, and those for each of the tiles 0 to 15.
#[derive(Drop)]
pub(crate) struct Counting {
    calls: AtomicU64,
    low: AtomicU64,
    high: AtomicU64,
}

impl Counting {
    /// A gate that no tile has passed.
    pub(crate) fn new() -> Counting {
        Counting {
            calls: AtomicU64::new(0),
            low: AtomicU64::new(0),
            high: AtomicU64::new(0),
        }
    }

    /// How many calls came.
    pub(crate) fn calls(&self) -> u64 {
        self.calls.load(Ordering::SeqCst)
    }

    /// How many came for each of the tiles 0 to 7, and 8 to 15: 8 bits for each, those of the lowest tile last.
    pub(crate) fn tiles(&self) -> (u64, u64) {
        (
            self.low.load(Ordering::SeqCst),
            self.high.load(Ordering::SeqCst),
        )
    }
}

impl Gate for Counting {
    fn pass(&self, _worker: u32, tile: u32) {
        self.calls.fetch_add(1, Ordering::SeqCst);
        if tile < 8 {
            self.low.fetch_add(1u64 << (8 * tile), Ordering::SeqCst);
        } else if tile < 16 {
            self.high
                .fetch_add(1u64 << (8 * (tile - 8)), Ordering::SeqCst);
        }
    }
}
