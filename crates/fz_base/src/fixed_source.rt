//! A source in memory that never fails.
ghost use Rattle.std.specs.Prelude.{◌≡◌, ◌^◌, ◌≤◌, ◌<◌, All, length as len, vec_len, Some, None};
ghost use Rattle.std.specs.Option.{ForSome};
ghost use Rattle.fz_base.specs.Counts.{uncounted};

use crate::{Failed, Source};

/// A source over bytes in memory that never fails and takes no memory. It shows its bytes, and no
/// ranges.
#[derive(Drop)]
pub struct FixedSource {
    bytes: Vec<u8>,
    size: Option<u64>,
    ghost short: { vec_len bytes ≤ 2 ^ 62 },
    ghost whole: { ForSome size (λ n. n ≡ len bytes.items) },
    ghost near: { ForSome size (λ n. n ≤ 2 ^ 62) },
    ghost octets: { All (λ byte. byte < 256) bytes.items },
}

impl FixedSource {
    /// A source that holds these bytes.
    pub fn new(bytes: Vec<u8>) -> FixedSource
        requires { vec_len bytes ≤ 2 ^ 62 }
        ensures held { ⟦<FixedSource as Source>⟧.held result ≡ Some bytes.items }
        ensures ranges { ⟦<FixedSource as Source>⟧.ranges result ≡ None }
        ensures attached { ⟦<FixedSource as Source>⟧.attached result ≡ None }
        ensures tally { ⟦<FixedSource as Source>⟧.tally result ≡ uncounted }
    {
        FixedSource { bytes, size: None }
    }
}

impl Source for FixedSource {
    ghost use Rattle.fz_base.specs.Agreement.{agrees_of};

    ghost held = { λ s. Some s.bytes.items };

    ghost ranges = { λ _. None };

    ghost attached = { λ s. s.size };

    ghost tally = { λ _. uncounted };

    fn attach(&mut self, _name: &str) -> Result<u64, Failed> {
        let size = self.bytes.len() as u64;
        self.size = Some(size);
        Ok(size)
    }

    fn read_at(&mut self, at: u64, into: &mut [u8]) -> Result<(), Failed> {
        let from = at as usize;
        let to = from + into.len();
        into.copy_from_slice(&self.bytes[from..to]);
        Ok(())
    }

    ghost agrees = { λ s n e. agrees_of s.size (len s.bytes.items) n s.whole e };

    ghost near = { λ s n e. s.near n e };

    ghost octets = { λ s. s.octets };
}
