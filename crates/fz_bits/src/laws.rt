//! The laws of bits, of numbers and of bytes, and of a writer.
#![tactic(auto)]

ghost use Rattle.std.specs.Prelude.{◌≤◌, length};
ghost use Rattle.fz_bits.specs.Laws.{NumberLaws, HasEightBits, HasWholeBytes, GivesBitsAgain, GivesBytesAgain};
ghost use Rattle.fz_bits.specs.Writer.{written, room};
ghost use Rattle.fz_bits.specs.declared.writer.BitWriter.{BitWriter};

/// The bits of a number are as many as were asked for: those of its quotient by a power of 2 and then those of its
/// remainder. A number that they hold is their value, and bits are those of their value.
#[inline]
pub fn number_law()
    ensures { NumberLaws }
{}

/// A writer has no more bits than its buffer has room for.
#[inline]
pub fn room_law()
    ensures { (writer : BitWriter) → length (written writer) ≤ room writer }
{}

/// Bytes are eight bits each, and whole bytes and their bits undo each other.
pub fn bytes_law()
    ensures eight { HasEightBits }
    ensures whole { HasWholeBytes }
    ensures bits { GivesBitsAgain }
    ensures bytes { GivesBytesAgain }
{}
