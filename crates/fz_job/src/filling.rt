//! The fill after data.
ghost use Rattle.std.specs.Prelude.{◌≡◌, ◌+◌, ◌-◌, ◌≤◌, ◌<◌, ◌^◌, IsTrue, replicate, length as len, IfOk, OnOk};
ghost use Rattle.fz_base.specs.Keeps.{SinkStays};
ghost use Rattle.fz_base.specs.Sink.{written};
ghost use Rattle.fz_base.specs.Stop.{Writes};
ghost use Rattle.fz_block.specs.Header.{whole_blocks_of};

use fz_base::{Sink, Stop, write_behind};
use fz_block::BLOCK_LEN;

/// Writes zeros after data of so many bytes, which begin at this byte of the sink, up to whole blocks, and answers
/// the byte after them (FITS 4.0, section 3.3.2).
pub fn write_fill<K: Sink>(
    sink: &mut K,
    data_at: u64,
    data_len: u64,
    zeros: &mut [u8],
) -> Result<u64, Stop>
    requires created { IsTrue (K.created sink.old) }
    requires behind { 0 < data_at }
    requires near { data_at + data_len + 2880 ≤ 2 ^ 63 }
    requires room { 2880 ≤ len zeros.old }
    ensures filled { OnOk result (K.contents sink.new ≡ written (data_at + data_len)
        (replicate (whole_blocks_of data_len - data_len) 0) (K.contents sink.old)) }
    ensures end { IfOk result (λ end. end ≡ data_at + whole_blocks_of data_len) }
    ensures stays { SinkStays K.created K.contents sink.old sink.new × (len zeros.new ≡ len zeros.old) }
    ensures cause { Writes (K.tally sink.old) (K.tally sink.new) result }
{
    let filled = data_len.div_ceil(BLOCK_LEN as u64) * BLOCK_LEN as u64;
    let zeros = &mut zeros[..(filled - data_len) as usize];
    zeros.fill(0);
    write_behind(sink, data_at + data_len, zeros)?;
    Ok(data_at + filled)
}
