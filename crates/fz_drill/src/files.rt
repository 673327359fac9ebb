//! The files of `drill` in memory, and sources over them.
ghost use Rattle.std.specs.Prelude.{◌≡◌, ◌≤◌, ◌^◌, Some, length as len, IfErr, IfOk};
ghost use Rattle.fz_base.specs.declared.failure.Stop.TheVariants.{NoMemory};
ghost use Rattle.fz_tile.specs.Plain.{AreBytes};
ghost use Rattle.fz_files.specs.Drill.{drill_file};
ghost use Rattle.fz_drill.specs.Files.{IsRows, part_file};

use crate::making::{COLUMNS, CUT_COLUMNS, CUT_FROM, make_file};
use fz_base::{FixedSource, Source, Stop};
use std::alloc::{AllocError, Global};

/// The file of so many rows, and the part that should be cut from it.
#[derive(Drop)]
pub(crate) struct Files {
    pub(crate) rows: u32,
    pub(crate) plain: Vec<u8>,
    pub(crate) part: Vec<u8>,
    ghost few: { IsRows rows },
    ghost plain_is: { plain.items ≡ drill_file rows },
    ghost part_is: { part.items ≡ part_file rows },
}

/// Makes them.
pub(crate) fn make_files(alloc: Global, rows: u32) -> Result<Files, AllocError>
    requires { IsRows rows }
    ensures { IfOk result (λ files. files.rows ≡ rows) }
{
    let plain = make_file(alloc, 0, COLUMNS, rows)?;
    let part = make_file(alloc, CUT_FROM, CUT_COLUMNS, rows)?;
    Ok(Files { rows, plain, part })
}

/// No file of `drill` is longer.
const LONGEST: usize = 1 << 40;

/// A source that holds these bytes and is attached, and how many there are.
pub(crate) fn source_of(alloc: Global, bytes: &[u8]) -> Result<(FixedSource, u64), Stop>
    ensures held { IfOk result (λ made. ⟦<FixedSource as Source>⟧.held made.0 ≡ Some bytes.now) }
    ensures attached { IfOk result (λ made. ⟦<FixedSource as Source>⟧.attached made.0 ≡ Some made.1) }
    ensures length { IfOk result (λ made. made.1 ≡ len bytes.now) }
    ensures stop { IfErr result (λ stop. stop ≡ NoMemory) }
    ensures most { IfOk result (λ made. made.1 ≤ 2 ^ 40) }
{
    if bytes.len() > LONGEST {
        return Err(Stop::NoMemory);
    }
    let mut source = FixedSource::new(bytes.to_vec(alloc).map_err(no_memory)?);
    let length = source.attach("").map_err(Stop::reading)?;
    Ok((source, length))
}

/// There is no memory for a file.
pub(crate) fn no_memory(_: AllocError) -> Stop
    ensures { result ≡ NoMemory }
{
    Stop::NoMemory
}

/// Bytes in memory are bytes: no code runs.
pub(crate) fn bytes_law(bytes: &[u8])
    ensures { AreBytes bytes.now }
{}
