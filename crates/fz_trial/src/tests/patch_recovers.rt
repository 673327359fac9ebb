//! The same patch once more, after a run that was stopped.
use crate::conditions::Conditions;
use crate::tests::alike::{alike, holds};
use crate::tests::changes::{Change, changed};
use crate::tests::files::{Hdu, file_of};
use crate::tests::patch_files;
use crate::tests::patch_files::{GRID, SUMMED};
use crate::tests::patching::{cut_of, patched_by, patched_on};
use std::test::Fail;

const WORDS: &str = "patch --at=2,2 PATCH FILE";

const WHOLE: &str = "cut --box 1:5,1:3 IN OUT";

/// More calls than a run on one of these files makes.
const CALLS: u32 = 400;

/// FILE, and a change of it: the second grows.
static CASES: [(&[Hdu<'static>], Change); 3] = [
    (&GRID, Change::Nothing),
    (
        &GRID,
        Change::Table(&[(5, "PCOUNT  =                 2782")], &[]),
    ),
    (&SUMMED, Change::Nothing),
];

// A file that was stopped while it grew is refused, until it has its old length again. From there the same patch is enough.
#[test]
fn is_patched_once_more(rt: HostRuntime) -> Result<(), Fail> {
    let alloc = rt.alloc();
    let patch = file_of(alloc, &patch_files::SIX_FILE)?;
    let mut refused = 0u32;
    for (hdus, change) in &CASES {
        let file = changed(alloc, hdus, change)?;
        let whole = patched_by(&rt, WORDS, &file, &patch)?;
        let pixels = cut_of(&rt, whole.store.store().contents(), WHOLE)?;
        for call in 0..CALLS {
            let on = Conditions {
                store: call,
                ..Conditions::free(alloc)?
            };
            let stopped = patched_on(&rt, WORDS, &file, &patch, &on)?;
            if stopped.status.number() == 0 {
                break;
            }
            let left = stopped.store.store().contents();
            let mut again = patched_by(&rt, WORDS, left, &patch)?;
            if again.status.number() == 3 {
                refused = refused.saturating_add(1);
                let line = b"refused: 8 TrailingBytes hdu 2 byte 8640\n".as_slice();
                holds(&rt, again.text.contents() == line);
                let old = &left[..file.len().min(left.len())];
                again = patched_by(&rt, WORDS, old, &patch)?;
            }
            alike(&rt, again.status.number(), 0);
            let now = cut_of(&rt, again.store.store().contents(), WHOLE)?;
            holds(&rt, !now.is_empty() && now[..] == pixels[..]);
        }
    }
    holds(&rt, refused > 2);
    Ok(())
}
