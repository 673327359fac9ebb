//! Bits read from a lent slice.
#![tactic(auto)]

ghost use Rattle.fz_bits.specs.Bits.{number_bits, bits_of, IsAhead};
ghost use Rattle.std.specs.Int.Count.{count_leading_zeros};
ghost use Rattle.std.specs.Prelude.{◌≡◌, ℕ, ◌+◌, ◌-◌, ◌*◌, ◌/◌, ◌%◌, ◌^◌, ◌<◌, ◌≤◌, ◌⊎◌, ◌↔◌, true, false, [], ◌∷◌, ◌++◌, length};
ghost use Rattle.std.specs.Prelude.{take, drop, replicate, slice_index, ◌≢◌, MatchOption, IsTrue, IsErr, IfOk, OnErr, IsErrOf};

use crate::fields::{behind, first};

/// Fewer bits are left than were asked for.
#[derive(Clone, Copy, Debug, PartialEq, Eq)]
pub struct Ended;

/// Why no run of zeros with a one after it was read.
#[derive(Clone, Copy, Debug, PartialEq, Eq)]
pub enum ZeroStop {
    /// More zeros are next than were allowed.
    TooMany,
    /// The bits end before a one, and their zeros are not too many.
    Ended,
}

/// Reads bits from a lent slice, the most significant first. After the `count` bits that are pending,
/// `pending` has zeros or the bits that come there.
#[derive(Clone, Copy)]
pub struct BitReader<'a> {
    code: &'a [u8],
    at: usize,
    pending: u64,
    count: u32,
    ghost small: { length code.now ≤ 2 ^ 60 },
    ghost within: { at ≤ length code.now },
    ghost loaded: { count ≤ 8 * at },
    ghost few: { count < 64 },
    ghost ahead: { ∥ IsAhead count pending (drop (8 * at - count) (bits_of code.now)) ∥₁ },
}

impl<'a> BitReader<'a> {
    ghost use Rattle.fz_bits.specs.Bits.{number_bits, bits_of};
    ghost use Rattle.fz_bits.specs.Reader.{left, place, ready, IsUnmoved, HasZeros, IsZeros};

    /// All bits of `code` are left.
    pub fn new(code: &'a [u8]) -> BitReader<'a>
        requires { length code.now ≤ 2 ^ 60 }
        ensures left { left result ≡ bits_of code.now }
        ensures place { place result ≡ 0 }
    {
        BitReader {
            code,
            at: 0,
            pending: 0,
            count: 0,
        }
    }

    /// The number of bits read.
    pub fn place(&self) -> u64
        ensures { result ≡ place self.now }
    {
        self.at as u64 * 8 - u64::from(self.count)
    }

    /// Reads a number of `width` bits. `Ended` leaves the place as it was.
    #[inline]
    #[tactic(auto, using(crate::proofs::ReaderLemmas::lengths))]
    pub fn get(&mut self, width: u32) -> Result<u32, Ended>
        requires { width ≤ 32 }
        ensures bits { IfOk result (λ v. left self.old ≡ number_bits width v ++ left self.new) }
        ensures fits { IfOk result (λ v. v < 2 ^ width) }
        ensures place { IfOk result (λ _. place self.new ≡ place self.old + width) }
        ensures ended { IsErr result ↔ (length (left self.old) < width) }
        ensures err { OnErr result (IsUnmoved self.old self.new) }
    {
        self.load(width);
        if self.count < width {
            return Err(Ended);
        }
        let value = first(self.pending, width);
        self.skip(width);
        Ok(value)
    }

    /// Reads zeros, at most `max`, and the one after them, and answers the number of zeros. A
    /// refusal leaves the place as it was.
    #[inline]
    #[tactic(auto, using(crate::proofs::ReaderLemmas::lengths))]
    pub fn zeros(&mut self, max: u32) -> Result<u32, ZeroStop>
        ensures bits { IfOk result (λ n. left self.old ≡ replicate n false ++ true ∷ left self.new) }
        ensures most { IfOk result (λ n. n ≤ max) }
        ensures place { IfOk result (λ n. place self.new ≡ place self.old + n + 1) }
        ensures too_many { IsErrOf result ZeroStop.TooMany ↔ HasZeros max (left self.old) }
        ensures ended { IsErrOf result ZeroStop.Ended ↔ IsZeros max (left self.old) }
        ensures err { OnErr result (IsUnmoved self.old self.new) }
    {
        self.load_one();
        let zeros = self.pending.leading_zeros();
        if zeros >= self.count {
            // The copy keeps the fields of `self` in registers: its address is handed out.
            let mut ahead = *self;
            let zeros = ahead.zeros_ahead(max)?;
            *self = ahead;
            return Ok(zeros);
        }
        if zeros > max {
            return Err(ZeroStop::TooMany);
        }
        self.skip(zeros);
        self.skip(1);
        Ok(zeros)
    }

    /// Loads the next bits, and answers whether 56 of them are ready now. They are if eight bytes are
    /// left after those that were loaded before.
    #[inline]
    #[tactic(auto, using(crate::proofs::ReaderLemmas::lengths))]
    pub fn load_word(&mut self) -> bool
        ensures unmoved { IsUnmoved self.old self.new }
        ensures ready { IsTrue result → 56 ≤ ready self.new }
    {
        if self.code.len() - self.at < 8 {
            return false;
        }
        self.append_word();
        true
    }

    /// The reader with as many of the next bits loaded as the slice has, 49 at least if it has so many:
    /// for the end of the slice, where `load_word` loads none.
    #[inline]
    #[tactic(auto, using(crate::proofs::ReaderLemmas::lengths))]
    pub fn loaded_at_end(self) -> BitReader<'a>
        ensures unmoved { IsUnmoved self.entry result }
        ensures ready { ready result < 49 → length (left result) ≡ ready result }
    {
        self.refilled_near_end()
    }

    /// A number of 64 bits that begins with those that are ready.
    #[inline]
    pub fn word(&self) -> u64
        ensures { take (ready self.now) (number_bits 64 result)
            ≡ take (ready self.now) (left self.now) }
    {
        self.pending
    }

    /// How many of the bits that are left are ready, that is, loaded.
    #[inline]
    #[tactic(auto, using(crate::proofs::ReaderLemmas::lengths))]
    pub fn ready(&self) -> u32
        ensures ready { result ≡ ready self.now }
        ensures few { result < 64 }
        ensures within { result ≤ length (left self.now) }
    {
        self.count
    }

    /// `zeros` if all pending bits are zeros.
    #[cold]
    #[inline(never)]
    #[tactic(auto, using(crate::proofs::ReaderLemmas::lengths))]
    fn zeros_ahead(&mut self, max: u32) -> Result<u32, ZeroStop>
        requires { self.old.count ≤ count_leading_zeros 64 self.old.pending }
        ensures bits { IfOk result (λ n. left self.old ≡ replicate n false ++ true ∷ left self.new) }
        ensures most { IfOk result (λ n. n ≤ max) }
        ensures place { IfOk result (λ n. place self.new ≡ place self.old + n + 1) }
        ensures too_many { IsErrOf result ZeroStop.TooMany ↔ HasZeros max (left self.old) }
        ensures ended { IsErrOf result ZeroStop.Ended ↔ IsZeros max (left self.old) }
        ensures err { OnErr result (IsUnmoved self.old self.new) }
    {
        let rest = &self.code[self.at..];
        let Some(zero_bytes) = first_set(rest) else {
            let zeros = u64::from(self.count) + 8 * rest.len() as u64;
            return Err(stop_in_zeros(zeros, max));
        };
        let byte = rest[zero_bytes];
        let lead = byte.leading_zeros();
        let zeros = u64::from(self.count) + 8 * zero_bytes as u64 + u64::from(lead);
        if zeros > u64::from(max) {
            return Err(ZeroStop::TooMany);
        }
        self.at += zero_bytes;
        self.pending = 0;
        self.count = 0;
        self.refill();
        self.skip(lead);
        self.skip(1);
        Ok(zeros as u32)
    }

    /// Passes over bits that are ready.
    #[inline]
    #[tactic(auto, using(crate::proofs::ReaderLemmas::lengths))]
    pub fn skip(&mut self, bits: u32)
        requires { bits ≤ ready self.old }
        ensures left { left self.new ≡ drop bits (left self.old) }
        ensures place { place self.new ≡ place self.old + bits }
        ensures ready { ready self.new ≡ ready self.old - bits }
    {
        self.pending = behind(self.pending, bits);
        self.count -= bits;
    }

    /// Loads more bits, so that `width` are pending or none is left in the slice.
    #[inline]
    #[tactic(auto, using(crate::proofs::ReaderLemmas::lengths))]
    fn load(&mut self, width: u32)
        requires { width ≤ 32 }
        ensures unmoved { IsUnmoved self.old self.new }
        ensures end { self.new.count < width → self.new.at ≡ length self.new.code.now }
    {
        if self.count < width {
            self.refill();
        }
    }

    /// Loads more bits if none of the pending ones is a one.
    #[inline]
    fn load_one(&mut self)
        ensures { IsUnmoved self.old self.new }
    {
        if self.pending.leading_zeros() >= self.count {
            self.refill();
        }
    }

    /// Loads the next bits, so that 49 are pending or none is left in the slice.
    #[inline]
    fn refill(&mut self)
        ensures unmoved { IsUnmoved self.old self.new }
        ensures end { self.new.count < 49 → self.new.at ≡ length self.new.code.now }
    {
        if self.code.len() - self.at >= 8 {
            self.append_word();
        } else {
            *self = self.refilled_near_end();
        }
    }

    /// Loads the next bits, so that 56 are pending.
    #[inline]
    #[tactic(auto, using(crate::proofs::ReaderLemmas::lengths))]
    fn append_word(&mut self)
        requires { self.old.at + 8 ≤ length self.old.code.now }
        ensures unmoved { IsUnmoved self.old self.new }
        ensures count { 56 ≤ self.new.count }
    {
        // Bits that were pending after the `count` ones come once more.
        self.pending |= word_at(self.code, self.at) >> self.count;
        self.at += ((63 - self.count) / 8) as usize;
        self.count = self.count % 8 + 56;
    }

    /// `refill` if fewer than eight bytes are left after the loaded ones.
    #[cold]
    #[inline(never)]
    #[tactic(auto, using(crate::proofs::ReaderLemmas::lengths))]
    fn refilled_near_end(self) -> BitReader<'a>
        ensures unmoved { IsUnmoved self.entry result }
        ensures end { result.count < 49 → result.at ≡ length result.code.now }
    {
        let place = self.place();
        let from = (place / 8) as usize;
        if self.code.len() - from >= 8 {
            self.at_word(from)
        } else {
            self.at_last_word()
        }
    }

    /// The reader with the eight bytes from `from` on, where the next bit is.
    fn at_word(self, from: usize) -> BitReader<'a>
        requires from { from ≡ place self / 8 }
        requires whole { from + 8 ≤ length self.code.now }
        ensures unmoved { IsUnmoved self.entry result }
        ensures count { 49 ≤ result.count }
    {
        let read = (self.place() % 8) as u32;
        BitReader {
            code: self.code,
            at: from + 7,
            pending: behind(word_at(self.code, from), read),
            count: 56 - read,
        }
    }

    /// The reader with the last bytes of the slice pending, fewer than eight.
    #[cold]
    #[inline(never)]
    fn at_last_word(self) -> BitReader<'a>
        requires { length self.code.now < place self / 8 + 8 }
        ensures unmoved { IsUnmoved self.entry result }
        ensures end { result.at ≡ length result.code.now }
    {
        let place = self.place();
        let read = (place % 8) as u32;
        let bytes = &self.code[(place / 8) as usize..];
        BitReader {
            code: self.code,
            at: self.code.len(),
            pending: behind(last_word(bytes), read),
            count: 8 * bytes.len() as u32 - read,
        }
    }
}

/// The number of the eight bytes from `at` on.
#[inline]
fn word_at(bytes: &[u8], at: usize) -> u64
    requires { at + 8 ≤ length bytes.now }
    ensures { number_bits 64 result ≡ bits_of (take 8 (drop at bytes.now)) }
{
    let mut word = [0u8; 8];
    word.copy_from_slice(&bytes[at..at + 8]);
    u64::from_be_bytes(word)
}

/// The number of fewer than eight bytes and zeros after them.
#[cold]
#[inline(never)]
fn last_word(bytes: &[u8]) -> u64
    requires { length bytes.now < 8 }
    ensures { number_bits 64 result
        ≡ bits_of bytes.now ++ replicate (64 - 8 * length bytes.now) false }
{
    let mut word = [0u8; 8];
    word[..bytes.len()].copy_from_slice(bytes);
    u64::from_be_bytes(word)
}

/// Why the bits end if all that are left are zeros.
fn stop_in_zeros(zeros: u64, max: u32) -> ZeroStop
    ensures too_many { (result ≡ ZeroStop.TooMany) ↔ (max < zeros) }
    ensures ended { (result ≡ ZeroStop.Ended) ↔ (zeros ≤ max) }
{
    if zeros > u64::from(max) {
        ZeroStop::TooMany
    } else {
        ZeroStop::Ended
    }
}

/// The place of the first byte that is not zero.
fn first_set(bytes: &[u8]) -> Option<usize>
    ensures { MatchOption result (bytes.now ≡ replicate (length bytes.now) 0)
        (λ i. (i < length bytes.now) × (take i bytes.now ≡ replicate i 0) × (slice_index bytes.now i ≢ 0)) }
{
    for (i, byte) in bytes.iter().enumerate() {
        if *byte != 0 {
            return Some(i);
        }
    }
    None
}
