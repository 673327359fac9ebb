//! Laws of the code.
#![tactic(auto)]

ghost use Rattle.std.specs.Prelude.{◌≡◌, ℕ, ◌+◌, ◌/◌, ◌<◌, ◌≤◌, Bool, ℤ, List, [], ◌++◌, length, All};
ghost use Rattle.fz_rice.specs.Numbers.{IsWidth, IsNumber};
ghost use Rattle.fz_rice.specs.Code.{IsRiceCode};
ghost use Rattle.fz_rice.specs.Producer.{rice_code};
ghost use Rattle.fz_rice.specs.Prefix.{BeginsWith};
ghost use Rattle.fz_rice.specs.MarkLaws.{HoldsLast, ReadsNumbersOn, IsWholeBefore, LeadsOn, IsFront, AreNext, NeverStops, HasStart, ReadsOnInAll, StopsInAll};
ghost use Rattle.fz_rice.specs.Laws.{IsItsCode, HasOneReading, IsNoBeginning, HasSomeAnswer, HasCodeBits, HasCodeBytes};

use fz_bits::{bytes_law, number_law};

/// No code of so many numbers is a proper prefix of another one, and a code has one list of them.
pub fn one_code_law()
    ensures { (w block : ℕ) (xs ys : List ℤ) (code rest : List Bool) → IsWidth w → 1 ≤ block
        → length xs ≡ length ys → IsRiceCode w block xs code → IsRiceCode w block ys (code ++ rest)
        → (xs ≡ ys) × (rest ≡ []) }
{
    number_law();
}

/// What `encode` writes is a code of the numbers, and zeros after it, in some whole bytes.
pub fn producer_law()
    ensures code { IsItsCode }
    ensures bits { HasCodeBits }
    ensures some { HasCodeBytes }
{
    bytes_law();
    number_law();
}

/// Numbers that are read from what `encode` wrote, with any bits after it, are the numbers again.
pub fn round_trip_law()
    ensures { (w block : ℕ) (xs ys : List ℤ) (rest : List Bool) (bytes : ℕ) → IsWidth w → 1 ≤ block
        → All (IsNumber w) xs → length ys ≡ length xs
        → BeginsWith w block ys bytes (rice_code w block xs ++ rest)
        → (ys ≡ xs) × (bytes ≡ length (rice_code w block xs) / 8) }
{
    number_law();
}

/// Bits begin with at most one code of so many numbers, or are a proper prefix of one, or neither; not both.
pub fn reading_law()
    ensures one { HasOneReading }
    ensures none { IsNoBeginning }
    ensures some { HasSomeAnswer }
{
    number_law();
}

/// Before a mark is a code of the numbers that were read, which are the first ones of each longer code
/// that the bits begin with. From a mark after whole blocks on come its next numbers, and no fault.
pub fn marks_law()
    ensures last { HoldsLast }
    ensures numbers { ReadsNumbersOn }
    ensures whole { IsWholeBefore }
    ensures on { LeadsOn }
    ensures front { IsFront }
    ensures next { AreNext }
    ensures never { NeverStops }
    ensures start { HasStart }
    ensures moved { ReadsOnInAll }
    ensures moved_stop { StopsInAll }
{
    bytes_law();
    number_law();
}
