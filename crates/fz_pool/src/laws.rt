//! Laws for those who fill a window, have it coded and read it: no code runs.
ghost use Rattle.fz_pool.specs.Laws.{AreFresh, AreAsMany, IsAlike, AsksForFresh, AsksAlike, PutsSlot, ReadiesNext, EncodesTiles};
ghost use Rattle.fz_pool.specs.Laws.{TellsLength, DecodesTiles, HasNoFault, IsOneLowest, HalvesAlike, BothAlike};

use fz_tile::{column_law, one_fault_law};

/// The lengths of the buffers after `fill`, and what is asked for them, which no call over the window
/// changes.
pub fn sizes_law()
    ensures fresh { AreFresh }
    ensures many { AreAsMany }
    ensures alike { IsAlike }
    ensures asked { AsksForFresh }
    ensures same { AsksAlike }
{}

/// The lengths of the buffers in the halves of a window, and in a window that was joined again.
pub fn halves_law()
    ensures halves { HalvesAlike }
    ensures both { BothAlike }
{}

/// What is left in a slot that `slot_mut` lent is put into the window. Slots that are put one after the
/// other are ready as far as the last one.
pub fn put_law()
    ensures put { PutsSlot }
    ensures ready { ReadiesNext }
{}

/// The first slots after `encode_window` have the codes of the tiles whose pixels they had, in order. After
/// `decode_window` without a fault they have the pixels of the tiles for which their records stand.
pub fn round_law()
    ensures encoded { EncodesTiles }
    ensures decoded { DecodesTiles }
{}

/// A slot that was encoded shows how many bytes its tile has: at least one, no more than the plain bytes, and whole
/// elements of their column (FITS 4.0, sections 7.3.5 and 10.1.3). They are the first of its code.
pub fn length_law()
    ensures { TellsLength }
{
    column_law();
}

/// `decode_window` answers None only if no record is faulty, and there is one lowest fault at most.
pub fn lowest_fault_law()
    ensures none { HasNoFault }
    ensures one { IsOneLowest }
{
    one_fault_law();
}
