//! The three calls that a worker makes, each in turn, until no tile is left.
ghost use Rattle.std.specs.Prelude.{◌≡◌, ℕ, ◌+◌, ◌<◌, ◌≤◌, IfSome, IfNone};
ghost use Rattle.fz_pool.specs.Slots.{task_of};
ghost use Rattle.fz_pool.specs.Hands.{IsIdle, HoldsStart, HoldsResult, HasEnded, IsSame, IsSeatOf};

use crate::Task;
use crate::board::{Board, Hand};
use crate::code::code_slot;
use crate::step_facts::{DrawFact, HomeFact};

/// Draws the next tile. The hand then holds the tile's slot with its start. None comes exactly if
/// all tiles were drawn already.
pub fn draw(board: &Board, hand: &mut Hand) -> Option<u32>
    requires seat { IsSeatOf board.now.shared.table_id hand.old }
    requires idle { IsIdle hand.old }
    ensures same { IsSame hand.old hand.new }
    ensures some { IfSome result (λ i. HoldsStart hand.new i × (i < board.now.shared.table_id.slots)
        × (hand.old.me.0.seen ≤ i) × (hand.new.me.0.seen ≡ i + 1)) }
    ensures none { IfNone result (HasEnded hand.new × (board.now.shared.table_id.slots < hand.new.me.0.seen)) }
{
    let ticket = board.shared.fetch_add::<DrawFact>(hand, 0, 1);
    if ticket < board.slot_count() as u64 {
        Some(ticket as u32)
    } else {
        None
    }
}

/// Moves the slot that the hand holds out, encodes or decodes its tile, and moves it back. The hand then
/// holds it with its result.
pub fn work(board: &Board, hand: &mut Hand, i: u32, encode: bool)
    requires seat { IsSeatOf board.now.shared.table_id hand.old }
    requires start { HoldsStart hand.old i }
    requires task { task_of encode ≡ hand.old.me.0.task }
    ensures same { IsSame hand.old hand.new }
    ensures seen { hand.new.me.0.seen ≡ hand.old.me.0.seen }
    ensures done { HoldsResult hand.new i }
{
    work_on(board, hand, i, Task::of(encode));
}

/// The same by a task.
pub(crate) fn work_on(board: &Board, hand: &mut Hand, i: u32, task: Task)
    requires seat { IsSeatOf board.now.shared.table_id hand.old }
    requires start { HoldsStart hand.old i }
    requires task { task ≡ hand.old.me.0.task }
    ensures same { IsSame hand.old hand.new }
    ensures seen { hand.new.me.0.seen ≡ hand.old.me.0.seen }
    ensures done { HoldsResult hand.new i }
{
    let slot = board.shared.exchange(hand, i as usize, None);
    let Some(mut slot) = slot else { unreachable!() };
    code_slot(&mut slot, task);
    let _ = board.shared.exchange(hand, i as usize, Some(slot));
}

/// Gives the slot that the hand holds home.
pub fn home(board: &Board, hand: &mut Hand)
    requires seat { IsSeatOf board.now.shared.table_id hand.old }
    requires done { (i : ℕ) × HoldsResult hand.old i }
    ensures same { IsSame hand.old hand.new }
    ensures seen { hand.new.me.0.seen ≡ hand.old.me.0.seen }
    ensures idle { IsIdle hand.new }
{
    board.shared.load::<HomeFact>(hand, 0);
}
