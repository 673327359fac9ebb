//! Bytes that are put into a vector at a place.
ghost use Rattle.std.specs.Prelude.{◌≡◌, ◌+◌, ◌-◌, ◌≤◌, ◌++◌, length as len, take, drop, replicate, OnOk, OnErr};
ghost use Rattle.fz_base.specs.Sink.{overwrite};

use std::alloc::AllocError;

// Grows the contents with zeros to a length that it does not have yet.
fn extend(contents: &mut Vec<u8>, to: usize) -> Result<(), AllocError>
    ensures ok { OnOk result (contents.new.items ≡ contents.old.items ++ replicate (to - len contents.old.items) 0) }
    ensures err { OnErr result (contents.new.items ≡ contents.old.items) }
{
    if contents.len() < to {
        contents.resize(to, 0)?;
    }
    Ok(())
}

// Puts the bytes over those at a place.
fn place(contents: &mut [u8], at: usize, bytes: &[u8])
    requires { at + len bytes.now ≤ len contents.old }
    ensures { contents.new ≡ take at contents.old ++ (bytes.now ++ drop (at + len bytes.now) contents.old) }
{
    contents[at..at + bytes.len()].copy_from_slice(bytes);
}

/// Writes the bytes at a place, or nothing if there is no memory for them.
pub(crate) fn put(contents: &mut Vec<u8>, at: u64, bytes: &[u8]) -> Result<(), AllocError>
    ensures ok { OnOk result (contents.new.items ≡ overwrite at bytes.now contents.old.items) }
    ensures err { OnErr result (contents.new.items ≡ contents.old.items) }
{
    if bytes.is_empty() {
        return Ok(());
    }
    let at = at as usize;
    let end = at.checked_add(bytes.len()).ok_or(AllocError)?;
    extend(contents, end)?;
    place(contents, at, bytes);
    Ok(())
}
