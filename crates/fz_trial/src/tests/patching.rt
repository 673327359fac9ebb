//! Patches of files in memory, and cuts of what they leave.
use crate::conditions::Conditions;
use crate::patches::{Amended, patched};
use crate::runs::outcome_of;
use crate::words::command;
use fz_app::Status;
use fz_base::FreeGate;
use std::alloc::AllocError;
use std::thread::Threads;

/// Runs the words on two files, under these conditions.
pub(crate) fn patched_on<R: Threads + Sync + AllocGlobal>(
    rt: &R,
    words: &str,
    file: &[u8],
    patch: &[u8],
    on: &Conditions,
) -> Result<Amended, AllocError> {
    let words = command(rt.alloc(), words)?;
    patched(rt, &words, file, patch, on)
}

/// Runs the words on two files. Nothing fails.
pub(crate) fn patched_by<R: Threads + Sync + AllocGlobal>(
    rt: &R,
    words: &str,
    file: &[u8],
    patch: &[u8],
) -> Result<Amended, AllocError> {
    let on = Conditions::free(rt.alloc())?;
    patched_on(rt, words, file, patch, &on)
}

/// The bytes of a cut of the first packed image, by these words; none at all if it was refused.
pub(crate) fn cut_of<R: Threads + Sync + AllocGlobal>(
    rt: &R,
    file: &[u8],
    words: &str,
) -> Result<Vec<u8>, AllocError> {
    let words = command(rt.alloc(), words)?;
    let on = Conditions::free(rt.alloc())?;
    let outcome = outcome_of(rt, &words, file, &on, &FreeGate)?;
    if outcome.status == Status::Done {
        outcome.sink.contents().to_vec(rt.alloc())
    } else {
        Ok(Vec::new(rt.alloc()))
    }
}
