//! The sum of bytes that are added in pieces.
ghost use Rattle.std.specs.Prelude.{◌≡◌, ◌+◌, ◌<◌, ◌^◌, length};
ghost use Rattle.fz_sum.specs.Sums.{carried};
ghost use Rattle.fz_sum.specs.Pieces.{nothing, after};

use crate::words::total_from;
use std::marker::Model;

/// The ones' complement sum of all bytes that were added (FITS 4.0, appendix J). Pieces may come in any order.
#[derive(Drop)]
pub struct Sum {
    total: u128,
    count: u64,
}

impl Model for Sum {
    ghost use Rattle.std.specs.Prelude.{◌*◌, ◌<◌, ◌≤◌, ◌^◌};
    ghost use Rattle.fz_sum.specs.Pieces.{Added};

    ghost Value = { Added };

    ghost view = { λ s. record { total = s.total; count = s.count } };

    ghost invariant = { λ s. (s.count < 2 ^ 63) × (s.total ≤ 2 ^ 32 * s.count) };
}

impl Sum {
    /// The sum of no bytes.
    pub fn new() -> Sum
        ensures { result ≡ nothing }
    {
        Sum { total: 0, count: 0 }
    }

    /// Adds bytes, the first of which is at this position: only what is left of the position by division by 4
    /// counts. Fewer than `2^63` bytes may be added in all.
    pub fn add(&mut self, at: u64, bytes: &[u8])
        requires { self.old.count + length bytes.now < 2 ^ 63 }
        ensures { self.new ≡ after self.old at bytes.now }
    {
        self.total += total_from(at, bytes);
        self.count += bytes.len() as u64;
    }

    /// The sum of all bytes that were added: 0 if all of them are 0, otherwise at least 1.
    pub fn value(&self) -> u32
        ensures { result ≡ carried self.now.total }
    {
        folded(self.total)
    }
}

/// The low 32 bits of a number.
const LOW: u128 = 0xffff_ffff;

/// The total, with each carry out of 32 bits added to it again.
fn folded(mut total: u128) -> u32
    ensures { result ≡ carried total }
{
    while total > LOW {
        total = (total >> 32) + (total & LOW);
    }
    total as u32
}
