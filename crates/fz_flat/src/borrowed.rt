//! A source over bytes that somebody else holds.
ghost use Rattle.std.specs.Prelude.{◌≡◌, ◌^◌, ◌≤◌, ◌<◌, All, length as len, Some, None};
ghost use Rattle.std.specs.Option.{ForSome};
ghost use Rattle.fz_base.specs.Counts.{uncounted};

use fz_base::{Failed, Source};

/// A source over borrowed bytes that never fails and takes no memory. It shows its bytes, and no ranges.
#[derive(Drop)]
pub(crate) struct SliceSource<'a> {
    bytes: &'a [u8],
    size: Option<u64>,
    ghost short: { len bytes.now ≤ 2 ^ 62 },
    ghost whole: { ForSome size (λ n. n ≡ len bytes.now) },
    ghost near: { ForSome size (λ n. n ≤ 2 ^ 62) },
    ghost octets: { All (λ byte. byte < 256) bytes.now },
}

impl<'a> SliceSource<'a> {
    /// A source over these bytes, attached.
    pub(crate) fn opened(bytes: &'a [u8]) -> SliceSource<'a>
        requires { len bytes.now ≤ 2 ^ 62 }
        ensures held { ⟦<SliceSource<'a> as Source>⟧.held result ≡ Some bytes.now }
        ensures ranges { ⟦<SliceSource<'a> as Source>⟧.ranges result ≡ None }
        ensures attached { ⟦<SliceSource<'a> as Source>⟧.attached result ≡ Some (len bytes.now) }
        ensures tally { ⟦<SliceSource<'a> as Source>⟧.tally result ≡ uncounted }
    {
        SliceSource {
            bytes,
            size: Some(bytes.len() as u64),
        }
    }
}

impl<'a> Source for SliceSource<'a> {
    ghost use Rattle.fz_base.specs.Agreement.{agrees_of};

    ghost held = { λ s. Some s.bytes.now };

    ghost ranges = { λ _. None };

    ghost attached = { λ s. s.size };

    ghost tally = { λ _. uncounted };

    fn attach(&mut self, _name: &str) -> Result<u64, Failed> {
        let size = self.bytes.len() as u64;
        self.size = Some(size);
        Ok(size)
    }

    fn read_at(&mut self, at: u64, into: &mut [u8]) -> Result<(), Failed> {
        let from = at as usize;
        let to = from + into.len();
        into.copy_from_slice(&self.bytes[from..to]);
        Ok(())
    }

    ghost agrees = { λ s n e. agrees_of s.size (len s.bytes.now) n s.whole e };

    ghost near = { λ s n e. s.near n e };

    ghost octets = { λ s. s.octets };
}
