//! Runs of the words of a patch over two files in memory.
use crate::conditions::Conditions;
use crate::facts::Facts;
use crate::left::Left;
use crate::named::NamedSource;
use crate::named_store::NamedStore;
use crate::runs::source_of;
use fz_app::{Status, run_patch};
use fz_base::{MemSource, MemStore, MemText, Meter};
use std::alloc::{AllocError, Global};
use std::thread::Threads;

/// What a patch answered and left after.
#[derive(Drop)]
pub(crate) struct Amended {
    pub(crate) status: Status,
    pub(crate) store: NamedStore<MemStore>,
    pub(crate) patch: NamedSource<MemSource>,
    pub(crate) text: MemText,
    pub(crate) live: u64,
    pub(crate) peak: u64,
}

impl Amended {
    /// How it ended. Failing calls are not counted.
    pub(crate) fn left(&self) -> Left<'_> {
        Left {
            status: self.status,
            file: self.store.store().contents(),
            text: self.text.contents(),
            faults: (0, 0),
            live: self.live,
        }
    }

    /// What can be asked of it.
    pub(crate) fn facts(&self) -> Facts<'_> {
        Facts {
            opened: self.store.opened(),
            given: Some(self.patch.opened()),
            made: 0,
            settled: self.store.settled(),
            reads: self.store.store().reads(),
            writes: self.store.store().writes().len(),
            peak: self.peak,
        }
    }
}

// The store FILE over a file of at most 2^32 bytes.
fn store_of(
    alloc: Global,
    file: &[u8],
    on: &Conditions,
) -> Result<NamedStore<MemStore>, AllocError> {
    let name = String::from_str(alloc, "FILE")?;
    let bytes = file.to_vec(alloc)?;
    if bytes.len() > 1 << 32 {
        return Err(AllocError);
    }
    let store = MemStore::new(alloc, bytes, vec![in alloc; on.store]?, on.keep);
    Ok(NamedStore::new(store, name))
}

/// Runs the words over FILE and PATCH, of at most 2^32 bytes each.
pub(crate) fn patched<R: Threads + Sync + AllocGlobal>(
    rt: &R,
    words: &[String],
    file: &[u8],
    patch: &[u8],
    on: &Conditions,
) -> Result<Amended, AllocError> {
    let alloc = rt.alloc();
    let mut store = store_of(alloc, file, on)?;
    let mut patch = source_of(alloc, "PATCH", patch, on.source)?;
    let mut text = MemText::new(alloc, vec![in alloc; on.text]?);
    let mut meter = Meter::new(alloc, on.limit);
    let status = run_patch(
        rt, alloc, words, &mut patch, &mut store, &mut text, &mut meter,
    );
    Ok(Amended {
        status,
        store,
        patch,
        text,
        live: meter.live(),
        peak: meter.peak(),
    })
}
