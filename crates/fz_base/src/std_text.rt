//! A text over standard output.
ghost use Rattle.std.specs.Prelude.{◌≡◌, None};
ghost use Rattle.fz_base.specs.Counts.{tally_of, uncounted};

use crate::calls::Counts;
use crate::{Failed, Text};
use std::io;
use std::io::Write;

/// Standard output. It shows no contents.
#[derive(Drop)]
pub struct StdText<R: Print + Drop> {
    rt: R,
    counts: Counts,
}

impl<R: Print + Drop> StdText<R> {
    /// The text of this runtime's standard output.
    pub fn new(rt: R) -> StdText<R>
        ensures contents { ⟦<StdText<R> as Text>⟧.contents result ≡ None }
        ensures tally { ⟦<StdText<R> as Text>⟧.tally result ≡ uncounted }
    {
        StdText {
            rt,
            counts: Counts::new(),
        }
    }
}

fn print_all<R: Print>(rt: &R, bytes: &[u8]) -> io::Result<()> {
    let mut out = io::writer(rt);
    out.write_all(bytes)?;
    out.flush()
}

impl<R: Print + Drop> Text for StdText<R> {
    ghost contents = { λ _. None };

    ghost tally = { λ t. tally_of t.counts };

    fn put(&mut self, bytes: &[u8]) -> Result<(), Failed> {
        self.counts.noted(print_all(&self.rt, bytes))
    }
}
