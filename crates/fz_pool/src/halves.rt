//! Slots that move from one list to another.
ghost use Rattle.std.specs.Prelude.{◌≡◌, ◌+◌, ◌-◌, ◌≤◌, ◌++◌, [], vec_len, vec_capacity};

use crate::Slot;

/// Moves the last slots, so many, to an empty list, which has room. They stay in order.
pub(crate) fn move_last(from: &mut Vec<Slot>, to: &mut Vec<Slot>, count: usize)
    requires near { count ≤ vec_len from.old }
    requires empty { to.old.items ≡ [] }
    requires room { count ≤ vec_capacity to.old }
    ensures all { from.new.items ++ to.new.items ≡ from.old.items }
    ensures moved { vec_len to.new ≡ count }
    ensures left { vec_len from.new ≡ vec_len from.old - count }
    ensures from_capacity { vec_capacity from.new ≡ vec_capacity from.old }
    ensures to_capacity { vec_capacity to.new ≡ vec_capacity to.old }
{
    for _i in 0..count {
        let Some(slot) = from.pop() else {
            unreachable!()
        };
        to.push_reserved(slot);
    }
    to.reverse();
}

/// Moves all slots after those of another list, which has room.
pub(crate) fn move_all(from: &mut Vec<Slot>, to: &mut Vec<Slot>)
    requires room { vec_len from.old + vec_len to.old ≤ vec_capacity to.old }
    ensures all { to.new.items ≡ to.old.items ++ from.old.items }
    ensures none { from.new.items ≡ [] }
    ensures from_capacity { vec_capacity from.new ≡ vec_capacity from.old }
    ensures to_capacity { vec_capacity to.old ≤ vec_capacity to.new }
{
    let Ok(()) = to.append(from) else {
        unreachable!()
    };
}
