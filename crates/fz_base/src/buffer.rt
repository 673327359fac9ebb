//! Buffers of bytes and of numbers that a meter gives and takes back.
ghost use Rattle.std.specs.Prelude.{◌≡◌, [], length as size_of};
ghost use Rattle.std.specs.Borrow.{sem};

use std::alloc::Global;
use std::marker::Model;

/// Bytes that a meter counts. A drop does not lower what is live: hand them back.
#[derive(Drop)]
pub struct Bytes {
    pub(crate) bytes: Vec<u8>,
}

impl Model for Bytes {
    ghost use Rattle.std.specs.Prelude.{ℕ, List};

    ghost Value = { List ℕ };

    ghost view = { λ b. b.bytes.items };
}

impl Bytes {
    ghost use Rattle.fz_base.specs.Buffer.{LendsBytes};

    /// No bytes. Nothing is asked for them, so no meter is needed.
    pub fn empty(alloc: Global) -> Bytes
        ensures { result ≡ [] }
    {
        Bytes {
            bytes: Vec::new(alloc),
        }
    }

    /// How many bytes.
    pub fn len(&self) -> u64
        ensures { result ≡ size_of self.now }
    {
        self.bytes.len() as u64
    }

    pub fn as_slice(&self) -> &[u8]
        ensures { result.now ≡ self.now }
    {
        &self.bytes
    }

    pub fn as_mut_slice(&mut self) -> &mut [u8]
        ensures* writes_back { sem 𝓛 (LendsBytes self.entry result) }
        ensures value { result.now ≡ self.old }
    {
        &mut self.bytes
    }
}

/// 32-bit numbers that a meter counts by 4 bytes each. A drop does not lower what is live.
#[derive(Drop)]
pub struct Numbers {
    pub(crate) numbers: Vec<i32>,
}

impl Model for Numbers {
    ghost use Rattle.std.specs.Prelude.{ℤ, List};

    ghost Value = { List ℤ };

    ghost view = { λ b. b.numbers.items };
}

impl Numbers {
    ghost use Rattle.fz_base.specs.Buffer.{LendsNumbers};

    /// No numbers. Nothing is asked for them, so no meter is needed.
    pub fn empty(alloc: Global) -> Numbers
        ensures { result ≡ [] }
    {
        Numbers {
            numbers: Vec::new(alloc),
        }
    }

    /// How many numbers.
    pub fn len(&self) -> u64
        ensures { result ≡ size_of self.now }
    {
        self.numbers.len() as u64
    }

    pub fn as_slice(&self) -> &[i32]
        ensures { result.now ≡ self.now }
    {
        &self.numbers
    }

    pub fn as_mut_slice(&mut self) -> &mut [i32]
        ensures* writes_back { sem 𝓛 (LendsNumbers self.entry result) }
        ensures value { result.now ≡ self.old }
    {
        &mut self.numbers
    }
}
