// The calls on a table that is known to be sound: they check nothing.
ghost use Rattle.std.specs.Prelude.{◌≡◌, ◌≤◌, ◌<◌, length};
ghost use Rattle.numbers.specs.Marks.{LIMIT};
ghost use Rattle.slot_arena.specs.Arena.{Filled, Takes, Releases};
ghost use Rattle.slot_arena.specs.Fill.{filled_cell};

use crate::{Order, USED};
use numbers::{NONE, Slot};

// All slots are free in ascending order. Linear in the table's length.
pub fn fill(arena: &mut [u64]) -> Order
    requires { length arena.old ≤ LIMIT }
    ensures { Filled arena.old arena.new result }
{
    let capacity = arena.len() as u64;
    for (i, link) in arena.iter_mut().enumerate() {
        *link = filled_cell(capacity, i as u64);
    }
    if capacity == 0 {
        return Order {
            first: NONE,
            last: NONE,
        };
    }
    Order {
        first: 0,
        last: capacity - 1,
    }
}

// What a filled table has at slot i.
fn filled_cell(capacity: u64, i: u64) -> u64
    requires { i < capacity }
    ensures { result ≡ filled_cell capacity i }
{
    if i + 1 < capacity { i + 1 } else { NONE }
}

// Hands out the first free slot.
pub fn take(arena: &mut [u64], order: &mut Order) -> Slot
    requires { order.old.first < length arena.old }
    ensures { Takes arena.old order.old arena.new result order.new }
{
    let slot = Slot(order.first);
    let s = slot.0 as usize;
    let next = arena[s];
    arena[s] = USED;
    order.first = next;
    if next == NONE {
        order.last = NONE;
    }
    slot
}

// Takes a slot back: it is linked behind the last free one, and is the last to be handed out again.
pub fn release(arena: &mut [u64], order: &mut Order, slot: Slot)
    requires { slot.0 < length arena.old }
    ensures { Releases arena.old order.old slot.0 arena.new order.new }
{
    let s = slot.0 as usize;
    arena[s] = NONE;
    let last = order.last as usize;
    if last < arena.len() {
        arena[last] = slot.0;
        order.last = slot.0;
        return;
    }
    order.first = slot.0;
    order.last = slot.0;
}
