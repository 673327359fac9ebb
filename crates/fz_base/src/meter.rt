//! A meter of the buffers that are live.
ghost use Rattle.std.specs.Prelude.{◌≡◌, ◌+◌, ◌*◌, ◌^◌, ◌≤◌, pos, replicate, length as len, IfOk, IfErr, OnOk, OnErr};
ghost use Rattle.fz_base.specs.Meter.{taken, handed_back, narrowed, RefusedFor, IsOverLimit};

use crate::{Bytes, Numbers, Short};
use std::alloc::Global;
use std::marker::Model;

/// Gives buffers and takes them back, and counts what is live. Nothing past its limit is ever live.
#[derive(Drop)]
pub struct Meter {
    alloc: Global,
    live: u64,
    peak: u64,
    limit: u64,
}

impl Model for Meter {
    ghost use Rattle.fz_base.specs.Meter.{Gauge, IsGauge};

    ghost Value = { Gauge };

    ghost view = { λ m. record { live = m.live; peak = m.peak; limit = m.limit } };

    ghost invariant = { λ m. IsGauge (record { live = m.live; peak = m.peak; limit = m.limit }) };
}

impl Meter {
    /// A meter with this limit in bytes, and nothing live.
    pub fn new(alloc: Global, limit: u64) -> Meter
        ensures { result ≡ record { live = 0; peak = 0; limit = limit } }
    {
        Meter {
            alloc,
            live: 0,
            peak: 0,
            limit,
        }
    }

    /// Lowers the limit, if this one is smaller.
    pub fn narrow(&mut self, limit: u64)
        requires live { self.old.live ≡ 0 }
        requires peak { self.old.peak ≤ limit }
        ensures { self.new ≡ narrowed self.old limit }
    {
        self.limit = self.limit.min(limit);
    }

    /// So many bytes of value 0. `OverLimit` comes exactly if they would pass the limit, before
    /// memory is tried; a refused call changes nothing.
    pub fn bytes(&mut self, n: u64) -> Result<Bytes, Short>
        ensures bytes { IfOk result (λ b. b ≡ replicate n 0) }
        ensures taken { IfOk result (λ _. (self.old.live + n ≤ self.old.limit) × (self.new ≡ taken self.old n)) }
        ensures refused { IfErr result (RefusedFor self.old n) }
        ensures unchanged { OnErr result (self.new ≡ self.old) }
    {
        self.allow(n)?;
        let bytes = vec![in self.alloc; 0u8; n as usize].map_err(|_| Short::NoMemory)?;
        self.take(n);
        Ok(Bytes { bytes })
    }

    /// So many numbers of value 0, for which 4 bytes each are asked. `OverLimit` comes exactly if
    /// they would pass the limit, before memory is tried; a refused call changes nothing.
    pub fn numbers(&mut self, n: u64) -> Result<Numbers, Short>
        requires { n ≤ 2 ^ 61 }
        ensures numbers { IfOk result (λ b. b ≡ replicate n (pos 0)) }
        ensures taken { IfOk result (λ _. (self.old.live + 4 * n ≤ self.old.limit) × (self.new ≡ taken self.old (4 * n))) }
        ensures refused { IfErr result (RefusedFor self.old (4 * n)) }
        ensures unchanged { OnErr result (self.new ≡ self.old) }
    {
        self.allow(4 * n)?;
        let numbers = vec![in self.alloc; 0i32; n as usize].map_err(|_| Short::NoMemory)?;
        self.take(4 * n);
        Ok(Numbers { numbers })
    }

    /// Takes bytes back.
    pub fn give_bytes(&mut self, b: Bytes)
        requires { len b ≤ self.old.live }
        ensures { self.new ≡ handed_back self.old (len b) }
    {
        self.live -= b.len();
    }

    /// Takes numbers back.
    pub fn give_numbers(&mut self, b: Numbers)
        requires { 4 * len b ≤ self.old.live }
        ensures { self.new ≡ handed_back self.old (4 * len b) }
    {
        self.live -= 4 * b.len();
    }

    /// The bytes that are live.
    pub fn live(&self) -> u64
        ensures value { result ≡ self.now.live }
        ensures below_peak { result ≤ self.now.peak }
    {
        self.live
    }

    /// The most bytes that were ever live.
    pub fn peak(&self) -> u64
        ensures value { result ≡ self.now.peak }
        ensures below_limit { result ≤ self.now.limit }
    {
        self.peak
    }

    /// The limit in bytes.
    pub fn limit(&self) -> u64
        ensures { result ≡ self.now.limit }
    {
        self.limit
    }

    // Answers OverLimit if so many bytes more would pass the limit.
    fn allow(&self, asked: u64) -> Result<(), Short>
        ensures room { OnOk result (self.now.live + asked ≤ self.now.limit) }
        ensures refused { IfErr result (IsOverLimit self.now asked) }
    {
        if asked > self.limit - self.live {
            return Err(Short::OverLimit {
                live: self.live,
                asked,
                limit: self.limit,
            });
        }
        Ok(())
    }

    // Counts bytes that there is room for.
    fn take(&mut self, asked: u64)
        requires { self.old.live + asked ≤ self.old.limit }
        ensures { self.new ≡ taken self.old asked }
    {
        self.live += asked;
        self.peak = self.peak.max(self.live);
    }
}
