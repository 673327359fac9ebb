//! A source that gives other bytes from some reading on, as a file does that another program changes.
ghost use Rattle.std.specs.Prelude.{◌≤◌, ◌^◌, None};
ghost use Rattle.std.specs.Option.{ForSome};
ghost use Rattle.fz_base.specs.Counts.{Tally, unamended};

use fz_base::{Failed, Source};
use std::alloc::AllocError;

/// The bytes of the first readings, and those of the later ones, which are as many.
#[derive(Drop)]
pub(crate) struct Changing {
    before: Vec<u8>,
    after: Vec<u8>,
    readings: u32,
    faults: u64,
    size: Option<u64>,
    ghost near: { ForSome size (λ n. n ≤ 2 ^ 62) },
}

impl Changing {
    /// A source of some bytes, at most 2^32, that becomes one of others after so many readings.
    pub(crate) fn new(
        before: Vec<u8>,
        after: Vec<u8>,
        readings: u32,
    ) -> Result<Changing, AllocError> {
        if before.len() > 1 << 32 {
            return Err(AllocError);
        }
        let size = Some(before.len() as u64);
        Ok(Changing {
            before,
            after,
            readings,
            faults: 0,
            size,
        })
    }
}

// Puts the bytes from a place on, if they are there.
fn put_from(bytes: &[u8], from: usize, into: &mut [u8]) -> bool {
    if from > bytes.len() || into.len() > bytes.len() - from {
        return false;
    }
    into.copy_from_slice(&bytes[from..from + into.len()]);
    true
}

impl Source for Changing {
    ghost use Rattle.fz_base.specs.Counts.{Tally, unamended};

    ghost held = { λ _. None };

    ghost ranges = { λ _. None };

    ghost attached = { λ s. s.size };

    ghost tally = { λ s. record { faults = s.faults; wants = 0; names = None; amended = unamended } };

    fn attach(&mut self, _name: &str) -> Result<u64, Failed> {
        match self.size {
            Some(size) => Ok(size),
            None => {
                self.faults = self.faults.saturating_add(1);
                Err(Failed::Fault)
            }
        }
    }

    fn read_at(&mut self, at: u64, into: &mut [u8]) -> Result<(), Failed> {
        let from = at as usize;
        let is_read = if self.readings > 0 {
            put_from(self.before.as_slice(), from, into)
        } else {
            put_from(self.after.as_slice(), from, into)
        };
        self.readings = self.readings.saturating_sub(1);
        if is_read {
            Ok(())
        } else {
            self.faults = self.faults.saturating_add(1);
            Err(Failed::Fault)
        }
    }

    ghost agrees = { λ _ _ _. tt };

    ghost near = { λ s n e. s.near n e };

    ghost octets = { λ _. tt };
}
