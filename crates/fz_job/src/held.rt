//! Bytes that are held back, so that many short pieces are one write.
ghost use Rattle.std.specs.Prelude.{ℕ, ◌≡◌, ◌+◌, ◌^◌, ◌<◌, ◌≤◌, IsTrue, List, Option, length as len, OnOk};
ghost use Rattle.fz_base.specs.Keeps.{SinkStays};
ghost use Rattle.fz_base.specs.Sink.{written};
ghost use Rattle.fz_base.specs.Stop.{Writes};
ghost use Rattle.fz_job.specs.Held.{IsHeld, caught_up, nothing_held, settled};

use fz_base::{Sink, Stop, output_law, write_behind};

/// How many of the first bytes of a buffer are held back, and where they go.
#[derive(Clone, Copy, Debug)]
pub struct Held {
    /// So many.
    pub count: usize,
    /// The byte of the sink after them.
    pub end: u64,
}

impl Held {
    /// None are held back.
    pub fn none() -> Held
        ensures nothing { result ≡ nothing_held }
        ensures held { (held : List ℕ) → IsHeld result held }
        ensures settled { (held : List ℕ) (contents : Option (List ℕ)) → settled result held contents ≡ contents }
    {
        Held { count: 0, end: 1 }
    }
}

/// Has a piece written to a place after byte 0, now or later. Bytes that are held back stay so if the piece follows them
/// and there is room for it. Otherwise they are written first.
pub fn hold_piece<K: Sink>(
    sink: &mut K,
    at: u64,
    bytes: &[u8],
    held: &mut [u8],
    back: &mut Held,
) -> Result<(), Stop>
    requires created { IsTrue (K.created sink.old) }
    requires held { IsHeld back.old held.old }
    requires behind { 0 < at }
    requires near { at + len bytes.now < 2 ^ 64 }
    ensures written { OnOk result (settled back.new held.new (K.contents sink.new) ≡ written at bytes.now
        (settled back.old held.old (K.contents sink.old))) }
    ensures kept { OnOk result (IsHeld back.new held.new) }
    ensures stays { SinkStays K.created K.contents sink.old sink.new × (len held.new ≡ len held.old) }
    ensures cause { Writes (K.tally sink.old) (K.tally sink.new) result }
{
    if at == back.end {
        return hold_next(sink, at, bytes, held, back);
    }
    write_pieces(sink, held, back)?;
    *back = Held { count: 0, end: at };
    hold_next(sink, at, bytes, held, back)
}

// The same of a piece that follows what is held back.
fn hold_next<K: Sink>(
    sink: &mut K,
    at: u64,
    bytes: &[u8],
    held: &mut [u8],
    back: &mut Held,
) -> Result<(), Stop>
    requires created { IsTrue (K.created sink.old) }
    requires held { IsHeld back.old held.old }
    requires follows { at ≡ back.old.end }
    requires near { at + len bytes.now < 2 ^ 64 }
    ensures written { OnOk result (settled back.new held.new (K.contents sink.new) ≡ written at bytes.now
        (settled back.old held.old (K.contents sink.old))) }
    ensures kept { OnOk result (IsHeld back.new held.new) }
    ensures stays { SinkStays K.created K.contents sink.old sink.new × (len held.new ≡ len held.old) }
    ensures cause { Writes (K.tally sink.old) (K.tally sink.new) result }
{
    hold_back(sink, at, bytes, held, &mut back.count)?;
    back.end = at + bytes.len() as u64;
    Ok(())
}

/// Writes what is held back.
pub fn write_pieces<K: Sink>(sink: &mut K, held: &[u8], back: &Held) -> Result<(), Stop>
    requires created { IsTrue (K.created sink.old) }
    requires held { IsHeld back.now held.now }
    ensures written { OnOk result (K.contents sink.new ≡ settled back.now held.now (K.contents sink.old)) }
    ensures sink { SinkStays K.created K.contents sink.old sink.new }
    ensures cause { Writes (K.tally sink.old) (K.tally sink.new) result }
{
    write_held(sink, back.end, held, back.count)
}

/// Has bytes written to a place after byte 0, now or later: the first `count` bytes of `held` are held back, and
/// go just before that place. A piece is held back if it leaves room for others.
pub fn hold_back<K: Sink>(
    sink: &mut K,
    at: u64,
    bytes: &[u8],
    held: &mut [u8],
    count: &mut usize,
) -> Result<(), Stop>
    requires created { IsTrue (K.created sink.old) }
    requires within { count.old ≤ len held.old }
    requires behind { count.old < at }
    ensures written { OnOk result (caught_up (at + len bytes.now) count.new held.new (K.contents sink.new) ≡ written at bytes.now
        (caught_up at count.old held.old (K.contents sink.old))) }
    ensures within { OnOk result (count.new ≤ len held.new) }
    ensures few { OnOk result (count.new ≤ count.old + len bytes.now) }
    ensures stays { SinkStays K.created K.contents sink.old sink.new × (len held.new ≡ len held.old) }
    ensures cause { Writes (K.tally sink.old) (K.tally sink.new) result }
{
    if bytes.len() <= held.len() - *count {
        keep(bytes, held, count);
        return Ok(());
    }
    write_held(sink, at, held, *count)?;
    *count = 0;
    if bytes.len() > held.len() / 2 {
        return write_behind(sink, at, bytes);
    }
    keep(bytes, held, count);
    Ok(())
}

// Holds back more bytes, after those that are held back.
fn keep(bytes: &[u8], held: &mut [u8], count: &mut usize)
    requires room { count.old + len bytes.now ≤ len held.old }
    ensures later { (at : ℕ) (contents : Option (List ℕ)) → count.old ≤ at
        → caught_up (at + len bytes.now) count.new held.new contents ≡ written at bytes.now
        (caught_up at count.old held.old contents) }
    ensures count { count.new ≡ count.old + len bytes.now }
    ensures len { len held.new ≡ len held.old }
{
    output_law();
    let end = *count + bytes.len();
    held[*count..end].copy_from_slice(bytes);
    *count = end;
}

/// Writes the bytes that are held back, which end before this place.
pub fn write_held<K: Sink>(sink: &mut K, end: u64, held: &[u8], count: usize) -> Result<(), Stop>
    requires created { IsTrue (K.created sink.old) }
    requires within { count ≤ len held.now }
    requires behind { count < end }
    ensures written { OnOk result (K.contents sink.new ≡ caught_up end count held.now (K.contents sink.old)) }
    ensures sink { SinkStays K.created K.contents sink.old sink.new }
    ensures cause { Writes (K.tally sink.old) (K.tally sink.new) result }
{
    write_behind(sink, end - count as u64, &held[..count])
}
