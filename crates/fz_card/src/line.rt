//! A line of `N` bytes that is written from the left over blanks.
ghost use Rattle.std.specs.Prelude.{◌≡◌, ◌+◌, ◌-◌, ◌≤◌, ℕ, List, [], ◌++◌, length, take, drop};
ghost use Rattle.fz_card.specs.Layout.{blanks, filled};

use std::marker::Model;

/// A line of `N` bytes: the bytes that were written so far, and blanks after them.
#[derive(Drop)]
pub struct Line<const N: usize> {
    bytes: [u8; N],
    len: usize,
}

impl<const N: usize> Model for Line<N> {
    ghost Value = { List ℕ };

    ghost view = { λ l. take l.len l.bytes };

    ghost invariant = { λ l. (l.len ≤ N) × (drop l.len l.bytes ≡ blanks (N - l.len)) };
}

impl<const N: usize> Line<N> {
    /// A line of blanks, to which nothing was written.
    pub fn new() -> Self
        ensures { result ≡ [] }
    {
        Line {
            bytes: [b' '; N],
            len: 0,
        }
    }

    /// Writes this text after what was written.
    pub fn push(&mut self, text: &[u8])
        requires { length self.old + length text.now ≤ N }
        ensures { self.new ≡ self.old ++ text.now }
    {
        let end = self.len + text.len();
        let bytes = &mut self.bytes[..];
        bytes[self.len..end].copy_from_slice(text);
        self.len = end;
    }

    /// Writes so many blanks.
    pub fn push_blanks(&mut self, count: usize)
        requires { length self.old + count ≤ N }
        ensures { self.new ≡ self.old ++ blanks count }
    {
        self.len += count;
    }

    /// What was written so far.
    pub fn text(&self) -> &[u8]
        ensures { result.now ≡ self.now }
    {
        &self.bytes[..self.len]
    }

    /// The whole line.
    pub fn bytes(&self) -> [u8; N]
        ensures { result ≡ filled N self.now }
    {
        self.bytes
    }
}
