//! Bits written into a lent slice.
#![tactic(auto)]

ghost use Rattle.fz_bits.specs.Bits.{number_bits, bits_of};
ghost use Rattle.std.specs.Prelude.{◌≡◌, ℕ, ◌+◌, ◌-◌, ◌*◌, ◌/◌, ◌%◌, ◌^◌, ◌<◌, ◌≤◌, ◌↔◌, true, false, []};
ghost use Rattle.std.specs.Prelude.{◌∷◌, ◌++◌, length, take, drop, replicate, IsTrue, IsErr, OnOk, OnErr};

use crate::fields::{back, high_first, joined};

/// The bits do not fit into the slice.
#[derive(Clone, Copy, Debug, PartialEq, Eq)]
pub struct Full;

/// Writes bits into a lent slice, the most significant first.
#[derive(Drop)]
pub struct BitWriter<'a> {
    out: &'a mut [u8],
    at: usize,
    pending: u64,
    count: u32,
    ghost few: { count < 64 },
    ghost in_out: { 8 * at + count ≤ 8 * length out.now },
    ghost fits: { pending < 2 ^ count },
}

impl<'a> BitWriter<'a> {
    ghost use Rattle.fz_bits.specs.Bits.{number_bits, bits_of, filled};
    ghost use Rattle.fz_bits.specs.Writer.{written, lent, buffer, room, SameBehind};

    /// No bits are written yet.
    pub fn new(out: &'a mut [u8]) -> BitWriter<'a>
        ensures same { lent result ≡ out.entry.ghost_name }
        ensures empty { written result ≡ [] }
        ensures buffer { buffer result ≡ out.old }
    {
        BitWriter {
            out,
            at: 0,
            pending: 0,
            count: 0,
        }
    }

    /// Appends the `width` bits of `value`. `Full` leaves the bits as they were.
    #[inline]
    #[tactic(auto, using(crate::proofs::WriterLemmas::lengths))]
    pub fn put(&mut self, value: u32, width: u32) -> Result<(), Full>
        requires width { width ≤ 32 }
        requires fits { value < 2 ^ width }
        ensures same { lent self.new ≡ lent self.old }
        ensures room { room self.new ≡ room self.old }
        ensures ok { OnOk result (written self.new ≡ written self.old ++ number_bits width value) }
        ensures full { IsErr result ↔ (room self.old < length (written self.old) + width) }
        ensures err { OnErr result (written self.new ≡ written self.old) }
        ensures behind { SameBehind (length (written self.new)) (buffer self.old) (buffer self.new) }
    {
        self.put_long(u64::from(value), width)
    }

    /// Appends the `width` bits of `value`, up to 63. `Full` leaves the bits as they were.
    #[inline]
    #[tactic(auto, using(crate::proofs::WriterLemmas::lengths))]
    pub fn put_long(&mut self, value: u64, width: u32) -> Result<(), Full>
        requires width { width < 64 }
        requires fits { value < 2 ^ width }
        ensures same { lent self.new ≡ lent self.old }
        ensures room { room self.new ≡ room self.old }
        ensures ok { OnOk result (written self.new ≡ written self.old ++ number_bits width value) }
        ensures full { IsErr result ↔ (room self.old < length (written self.old) + width) }
        ensures err { OnErr result (written self.new ≡ written self.old) }
        ensures behind { SameBehind (length (written self.new)) (buffer self.old) (buffer self.new) }
    {
        // With 16 bytes free there is room for 63 pending bits and as many more.
        if self.out.len() - self.at < 16 && !self.has_room(u64::from(width)) {
            return Err(Full);
        }
        self.push(value, width);
        Ok(())
    }

    /// Appends `zeros` zeros and a one. `Full` leaves the bits as they were.
    #[inline]
    #[tactic(auto, using(crate::proofs::WriterLemmas::lengths))]
    pub fn unary(&mut self, zeros: u32) -> Result<(), Full>
        ensures same { lent self.new ≡ lent self.old }
        ensures room { room self.new ≡ room self.old }
        ensures ok { OnOk result (written self.new ≡ written self.old ++ (replicate zeros false ++ true ∷ [])) }
        ensures full { IsErr result ↔ (room self.old < length (written self.old) + zeros + 1) }
        ensures err { OnErr result (written self.new ≡ written self.old) }
        ensures behind { SameBehind (length (written self.new)) (buffer self.old) (buffer self.new) }
    {
        if zeros < 32 {
            self.put(1, zeros + 1)
        } else {
            self.long_unary(zeros)
        }
    }

    /// Fills the last byte with zeros, and answers the number of bytes.
    #[tactic(auto, using(crate::proofs::WriterLemmas::lengths))]
    pub fn finish(self) -> usize
        ensures within { result ≤ length self.exit.0.now }
        ensures bits { bits_of (take result self.exit.0.now) ≡ filled (written self.entry) }
        ensures behind { drop result self.exit.0.now ≡ drop result (buffer self.entry) }
    {
        let BitWriter {
            out,
            at,
            pending,
            count,
        } = self;
        finished(out, at, pending, count)
    }

    /// `unary` for more zeros than one call of `push` takes.
    #[cold]
    #[tactic(auto, using(crate::proofs::WriterLemmas::lengths))]
    fn long_unary(&mut self, zeros: u32) -> Result<(), Full>
        ensures same { lent self.new ≡ lent self.old }
        ensures room { room self.new ≡ room self.old }
        ensures ok { OnOk result (written self.new ≡ written self.old ++ (replicate zeros false ++ true ∷ [])) }
        ensures full { IsErr result ↔ (room self.old < length (written self.old) + zeros + 1) }
        ensures err { OnErr result (written self.new ≡ written self.old) }
        ensures behind { SameBehind (length (written self.new)) (buffer self.old) (buffer self.new) }
    {
        if !self.has_room(u64::from(zeros) + 1) {
            return Err(Full);
        }
        for _word in 0..zeros / 32 {
            self.push(0, 32);
        }
        self.push(1, zeros % 32 + 1);
        Ok(())
    }

    /// Whether `bits` more bits fit into the slice.
    #[cold]
    #[inline(never)]
    #[tactic(auto, using(crate::proofs::WriterLemmas::lengths))]
    fn has_room(&self, bits: u64) -> bool
        requires { bits ≤ 2 ^ 32 }
        ensures { IsTrue result ↔ (length (written self.now) + bits ≤ room self.now) }
    {
        let free = (self.out.len() - self.at).min(1 << 32) as u64 * 8;
        u64::from(self.count) + bits <= free
    }

    /// Appends the `width` bits of `value`, for which there is room.
    #[inline]
    #[tactic(auto, using(crate::proofs::WriterLemmas::lengths))]
    fn push(&mut self, value: u64, width: u32)
        requires width { width < 64 }
        requires fits { value < 2 ^ width }
        requires free { length (written self.old) + width ≤ room self.old }
        ensures same { lent self.new ≡ lent self.old }
        ensures room { room self.new ≡ room self.old }
        ensures ok { written self.new ≡ written self.old ++ number_bits width value }
        ensures behind { SameBehind (length (written self.new)) (buffer self.old) (buffer self.new) }
    {
        let count = self.count + width;
        if count < 64 {
            self.pending = joined(self.pending, value, width);
            self.count = count;
        } else {
            let rest = count - 64;
            let word = high_first(joined(self.pending, value >> rest, 64 - self.count));
            self.out[self.at..self.at + 8].copy_from_slice(&word);
            self.at += 8;
            self.pending = back(value, rest);
            self.count = rest;
        }
    }
}

/// Writes the last `count` bits of `pending` and zeros to a whole byte from `at` on, and answers
/// the place after them.
fn finished(out: &mut [u8], at: usize, pending: u64, count: u32) -> usize
    requires few { count < 64 }
    requires fits { pending < 2 ^ count }
    requires in_out { 8 * at + count ≤ 8 * length out.old }
    ensures place { result ≡ at + (count + 7) / 8 }
    ensures len { length out.new ≡ length out.old }
    ensures front { take at out.new ≡ take at out.old }
    ensures bits { bits_of (take (result - at) (drop at out.new))
        ≡ number_bits count pending ++ replicate (8 * (result - at) - count) false }
    ensures behind { drop result out.new ≡ drop result out.old }
{
    let word = (pending << (63 - count) << 1).to_be_bytes();
    let len = (count as usize + 7) / 8;
    out[at..at + len].copy_from_slice(&word[..len]);
    at + len
}
