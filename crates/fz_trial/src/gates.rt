//! Gates: one that does nothing, one that holds tiles back, and one that counts.
use crate::amiss::Amiss;
use crate::words::number;
use fz_base::Gate;
use std::alloc::{AllocError, Global};
use std::sync::atomic::{AtomicU64, Ordering};

/// How many tiles are counted apart. Those after them count as the last of these.
const TILES: u32 = 1024;

/// What a gate does.
#[derive(Clone, Copy)]
pub(crate) enum Watch {
    Nothing,
    /// It holds so many tiles from the first on until so many calls for tiles after these have come.
    Hold { first: u32, held: u32, wanted: u32 },
    /// It counts the calls by tile, and those of workers from this number on.
    Count { workers: u32 },
}

impl Watch {
    /// What a line says that begins with `hold` or `count`.
    pub(crate) fn of(head: &str, rest: &str) -> Result<Watch, Amiss> {
        if head == "count" {
            let workers = number(rest)?;
            return Ok(Watch::Count { workers });
        }
        let mut words = rest.split(' ');
        let first = number(words.next().unwrap_or(""))?;
        let held = number(words.next().unwrap_or(""))?;
        let wanted = number(words.next().unwrap_or(""))?;
        Ok(Watch::Hold {
            first,
            held,
            wanted,
        })
    }
}

/// The gate of a run.
#[derive(Drop)]
pub(crate) enum Guard {
    Free,
    Holding(Holding),
    Counting(Counting),
}

impl Guard {
    /// The gate that does this.
    pub(crate) fn new(alloc: Global, watch: Watch) -> Result<Guard, AllocError> {
        match watch {
            Watch::Nothing => Ok(Guard::Free),
            Watch::Hold {
                first,
                held,
                wanted,
            } => Ok(Guard::Holding(Holding::new(first, held, wanted))),
            Watch::Count { workers } => Ok(Guard::Counting(Counting::new(alloc, workers)?)),
        }
    }

    /// Adds a line of what it has seen, if it looks at anything.
    pub(crate) fn add_to(&self, said: &mut String) -> Result<(), AllocError> {
        match self {
            Guard::Free => Ok(()),
            Guard::Holding(holding) => holding.add_to(said),
            Guard::Counting(counting) => counting.add_to(said),
        }
    }
}

impl Gate for Guard {
    fn pass(&self, worker: u32, tile: u32) {
        match self {
            Guard::Free => {}
            Guard::Holding(holding) => holding.pass(tile),
            Guard::Counting(counting) => counting.pass(worker, tile),
        }
    }
}

/// Holds the calls for some tiles until so many of those after them have come.
#[derive(Drop)]
pub(crate) struct Holding {
    first: u32,
    held: u32,
    wanted: u32,
    others: AtomicU64,
    came: AtomicU64,
    calls: AtomicU64,
}

impl Holding {
    fn new(first: u32, held: u32, wanted: u32) -> Holding {
        Holding {
            first,
            held,
            wanted,
            others: AtomicU64::new(0),
            came: AtomicU64::new(0),
            calls: AtomicU64::new(0),
        }
    }

    fn pass(&self, tile: u32) {
        self.calls.fetch_add(1, Ordering::SeqCst);
        if tile < self.first {
            return;
        }
        if tile - self.first >= self.held {
            self.others.fetch_add(1, Ordering::SeqCst);
            return;
        }
        for _ in 0..1_000_000_000u64 {
            if self.others.load(Ordering::SeqCst) >= u64::from(self.wanted) {
                self.came.fetch_add(1, Ordering::SeqCst);
                return;
            }
        }
    }

    // Adds whether the others came while each of the tiles was held, and how many calls came.
    fn add_to(&self, said: &mut String) -> Result<(), AllocError> {
        let calls = self.calls.load(Ordering::SeqCst);
        let came = if self.came.load(Ordering::SeqCst) == u64::from(self.held) {
            "came"
        } else {
            "did not come"
        };
        writeln!(said, "others {came}, {calls} calls")
    }
}

/// Counts the calls for each tile, and those of workers from a number on.
#[derive(Drop)]
pub(crate) struct Counting {
    workers: u32,
    tiles: Vec<AtomicU64>,
    beyond: AtomicU64,
}

impl Counting {
    fn new(alloc: Global, workers: u32) -> Result<Counting, AllocError> {
        let mut tiles = Vec::new(alloc);
        for _ in 0..TILES {
            tiles.push(AtomicU64::new(0))?;
        }
        Ok(Counting {
            workers,
            tiles,
            beyond: AtomicU64::new(0),
        })
    }

    fn pass(&self, worker: u32, tile: u32) {
        if let Some(count) = self.tiles.get(tile.min(TILES - 1) as usize) {
            count.fetch_add(1, Ordering::SeqCst);
        }
        if worker >= self.workers {
            self.beyond.fetch_add(1, Ordering::SeqCst);
        }
    }

    // Adds the count of each tile up to the last that had one, and the calls of the workers that are counted.
    fn add_to(&self, said: &mut String) -> Result<(), AllocError> {
        let beyond = self.beyond.load(Ordering::SeqCst);
        said.push_str("tiles")?;
        self.add_counts(said)?;
        writeln!(said, " beyond {beyond}")
    }

    // Adds the count of each tile up to the last that had one.
    fn add_counts(&self, said: &mut String) -> Result<(), AllocError> {
        let end = self.end();
        if end == 0 {
            return said.push_str(" none");
        }
        for tile in self.tiles.iter().take(end) {
            let count = tile.load(Ordering::SeqCst);
            write!(said, " {count}")?;
        }
        Ok(())
    }

    // The number after that of the last tile that had a call.
    fn end(&self) -> usize {
        let mut end = 0;
        for (i, tile) in self.tiles.iter().enumerate() {
            if tile.load(Ordering::SeqCst) > 0 {
                end = i + 1;
            }
        }
        end
    }
}
