//! What a run works with besides its ends.

use std::alloc::Global;

/// What each job of a run works with besides source, sink and text: what starts threads, what each worker passes before a tile,
/// and what buffers are allocated with.
#[derive(Drop)]
pub(crate) struct Host<'a, R, G> {
    pub(crate) rt: &'a R,
    pub(crate) gate: &'a G,
    pub(crate) alloc: Global,
}
