//! Reading several values from one word.
#![tactic(auto)]

ghost use Rattle.std.specs.Prelude.{◌≡◌, ℕ, ◌+◌, ◌-◌, ◌*◌, ◌/◌, ◌%◌, ◌^◌, ◌<◌, ◌≤◌, min, ℤ, List};
ghost use Rattle.std.specs.Prelude.{[], ◌∷◌, ◌++◌, true, length, take, replicate, IsNone, IfSome};
ghost use Rattle.fz_bits.specs.Bits.{number_bits};
ghost use Rattle.fz_bits.specs.Reader.{left, IsUnmoved};
ghost use Rattle.fz_rice.specs.Numbers.{IsWidth};
ghost use Rattle.fz_rice.specs.Reading.{split_at, most_zeros, last_of, numbers_from, bit_count, IsPiece, ReadsFour, ReadsTwo};

use crate::numbers::{greatest, next_residue, number};
use fz_bits::{BitReader, number_law};

/// What a block's values in unary and `k` bits have in common.
#[derive(Clone, Copy)]
pub struct Shape {
    /// `k + 1`.
    tail: u32,
    /// `2 ^ k`.
    one: u32,
    /// Values of so many bits together have not too many zeros.
    most: u32,
    ghost some: { 1 ≤ tail },
    ghost few: { tail ≤ 32 },
    ghost one_is: { one ≡ 2 ^ (tail - 1) },
}

impl Shape {
    ghost use Rattle.fz_rice.specs.Numbers.{IsWidth};
    ghost use Rattle.fz_rice.specs.Reading.{most_zeros};

    /// The shape of values of `W` bits in unary and `k` bits, of which so many are read at once.
    #[inline]
    pub fn of<const W: u32>(k: u32, several: u32) -> Shape
        requires width { IsWidth W }
        requires k { k < W }
        requires few { several ≤ 4 }
        ensures tail { result.tail ≡ k + 1 }
        ensures most { result.most ≡ min (most_zeros W k) 1024 + several * (k + 1) }
    {
        Shape {
            tail: k + 1,
            one: power(k),
            most: (greatest::<W>() >> k).min(1024) + several * (k + 1),
        }
    }
}

/// `2 ^ k`. It is not inlined: a product by it is faster than a shift.
#[inline(never)]
fn power(k: u32) -> u32
    requires { k < 32 }
    ensures { result ≡ 2 ^ k }
{
    1 << k
}

/// The value at the top of a word, how many bits it takes, and the word without them.
#[derive(Clone, Copy)]
struct Piece {
    value: u32,
    width: u32,
    rest: u64,
}

/// The value at the top of a word. A width of 64 or more says only that there is none.
#[inline(always)]
fn next_piece(word: u64, shape: Shape) -> Piece
    ensures least { shape.tail ≤ result.width }
    ensures most { result.width ≤ 96 }
    ensures is { result.width < 64
        → IsPiece (shape.tail - 1) word result.value result.width result.rest }
{
    number_law();
    let zeros = word.leading_zeros();
    let width = zeros + shape.tail;
    let turned = word.rotate_left(width % 64);
    let low = (turned & u64::from(shape.one - 1)) as u32;
    Piece {
        value: zeros.wrapping_mul(shape.one).wrapping_add(low),
        width,
        rest: turned,
    }
}

/// Loads the next bits, 56 of them, or at the end of the code as many as are left.
#[inline(always)]
fn load(reader: &mut BitReader)
    ensures { IsUnmoved reader.old reader.new }
{
    if !reader.load_word() {
        // The copy keeps the fields of `reader` in registers: its address is handed out.
        let at_end = reader.loaded_at_end();
        *reader = at_end;
    }
}

/// Four values.
#[derive(Clone, Copy)]
pub struct Four {
    pub a: u32,
    pub b: u32,
    pub c: u32,
    pub d: u32,
}

/// Reads four values if so many are wanted and are in one word of the code, and none of them has too
/// many zeros.
#[inline(always)]
pub fn take_four<const W: u32>(
    reader: &mut BitReader,
    k: u32,
    shape: Shape,
    wanted: usize,
) -> Option<Four>
    requires width { IsWidth W }
    requires k { k < W }
    requires tail { shape.tail ≡ k + 1 }
    requires most { shape.most ≡ min (most_zeros W k) 1024 + 4 * (k + 1) }
    ensures reads { IfSome result (λ four. ReadsFour (split_at W k) four.a four.b four.c four.d
        (left reader.old) (left reader.new)) }
    ensures a { IfSome result (λ four. four.a < 2 ^ W) }
    ensures b { IfSome result (λ four. four.b < 2 ^ W) }
    ensures c { IfSome result (λ four. four.c < 2 ^ W) }
    ensures d { IfSome result (λ four. four.d < 2 ^ W) }
    ensures enough { IfSome result (λ _. 4 ≤ wanted) }
    ensures none { IsNone result → left reader.new ≡ left reader.old }
    ensures count { bit_count reader.new ≡ bit_count reader.old }
{
    number_law();
    if wanted < 4 {
        return None;
    }
    load(reader);
    let a = next_piece(reader.word(), shape);
    let b = next_piece(a.rest, shape);
    let c = next_piece(b.rest, shape);
    let d = next_piece(c.rest, shape);
    let width = a.width + b.width + c.width + d.width;
    if width > reader.ready() || width > shape.most {
        return None;
    }
    reader.skip(width);
    Some(Four {
        a: a.value,
        b: b.value,
        c: c.value,
        d: d.value,
    })
}

/// How many ones are at the top of a word.
#[inline]
fn ones_of(word: u64) -> u32
    ensures few { result ≤ 64 }
    ensures ones { take result (number_bits 64 word) ≡ replicate result true }
{
    number_law();
    (u64::MAX - word).leading_zeros()
}

/// Reads ones: as many as are wanted, or those that are next in one word of the code. Answers how many;
/// none if they are few, since four values at once are then faster.
#[inline]
pub fn take_ones(reader: &mut BitReader, wanted: usize) -> usize
    ensures ones { left reader.old ≡ replicate result true ++ left reader.new }
    ensures few { result ≤ wanted }
    ensures count { bit_count reader.new ≡ bit_count reader.old }
{
    if !reader.load_word() {
        return 0;
    }
    let ones = ones_of(reader.word()).min(reader.ready());
    let taken = wanted.min(ones as usize);
    if taken < wanted.min(8) {
        return 0;
    }
    reader.skip(taken as u32);
    taken
}

/// Writes the numbers of four mapped differences, and answers the residue of the last one.
#[inline]
pub fn put_four<const W: u32>(start: u32, four: Four, numbers: &mut [i32]) -> u32
    requires width { IsWidth W }
    requires start { start < 2 ^ W }
    requires len { length numbers.old ≡ 4 }
    requires a { four.a < 2 ^ W }
    requires b { four.b < 2 ^ W }
    requires c { four.c < 2 ^ W }
    requires d { four.d < 2 ^ W }
    ensures numbers { numbers.new
        ≡ numbers_from W start (four.a ∷ four.b ∷ four.c ∷ four.d ∷ []) }
    ensures last { result ≡ last_of W start (four.a ∷ four.b ∷ four.c ∷ four.d ∷ []) }
{
    let a = next_residue::<W>(start, four.a);
    let b = next_residue::<W>(a, four.b);
    let c = next_residue::<W>(b, four.c);
    let d = next_residue::<W>(c, four.d);
    numbers[0] = number::<W>(a);
    numbers[1] = number::<W>(b);
    numbers[2] = number::<W>(c);
    numbers[3] = number::<W>(d);
    d
}

/// Two values.
#[derive(Clone, Copy)]
pub struct Two {
    pub a: u32,
    pub b: u32,
}

/// `take_four` for two values.
#[inline(always)]
pub fn take_two<const W: u32>(
    reader: &mut BitReader,
    k: u32,
    shape: Shape,
    wanted: usize,
) -> Option<Two>
    requires width { IsWidth W }
    requires k { k < W }
    requires tail { shape.tail ≡ k + 1 }
    requires most { shape.most ≡ min (most_zeros W k) 1024 + 2 * (k + 1) }
    ensures reads { IfSome result (λ two. ReadsTwo (split_at W k) two.a two.b
        (left reader.old) (left reader.new)) }
    ensures a { IfSome result (λ two. two.a < 2 ^ W) }
    ensures b { IfSome result (λ two. two.b < 2 ^ W) }
    ensures enough { IfSome result (λ _. 2 ≤ wanted) }
    ensures none { IsNone result → left reader.new ≡ left reader.old }
    ensures count { bit_count reader.new ≡ bit_count reader.old }
{
    number_law();
    if wanted < 2 {
        return None;
    }
    load(reader);
    let a = next_piece(reader.word(), shape);
    let b = next_piece(a.rest, shape);
    let width = a.width + b.width;
    if width > reader.ready() || width > shape.most {
        return None;
    }
    reader.skip(width);
    Some(Two {
        a: a.value,
        b: b.value,
    })
}

/// `put_four` for two mapped differences.
#[inline]
pub fn put_two<const W: u32>(start: u32, two: Two, numbers: &mut [i32]) -> u32
    requires width { IsWidth W }
    requires start { start < 2 ^ W }
    requires len { length numbers.old ≡ 2 }
    requires a { two.a < 2 ^ W }
    requires b { two.b < 2 ^ W }
    ensures numbers { numbers.new ≡ numbers_from W start (two.a ∷ two.b ∷ []) }
    ensures last { result ≡ last_of W start (two.a ∷ two.b ∷ []) }
{
    let a = next_residue::<W>(start, two.a);
    let b = next_residue::<W>(a, two.b);
    numbers[0] = number::<W>(a);
    numbers[1] = number::<W>(b);
    b
}
