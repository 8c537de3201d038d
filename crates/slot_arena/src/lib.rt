// Hands out the slots of a table. `arena[s]` is the free slot after s, NONE at the last one, and USED at a slot in use.
#![tactic(auto)]

ghost use Rattle.std.specs.Prelude.{◌≡◌, true, ◌↔◌, ◌≤◌, length};
ghost use Rattle.numbers.specs.Marks.{LIMIT};
ghost use Rattle.slot_arena.specs.Arena.{InUse, ArenaSound};
ghost use Rattle.slot_arena.specs.Check.{Walks, used_in};

use numbers::{LIMIT, NONE, Slot};

pub mod sound;

// The mark of a slot in use. No link has this number.
pub const USED: u64 = 4097;

// Where the free order begins and ends, NONE where no slot is free.
#[derive(Clone, Copy)]
pub struct Order {
    pub first: u64,
    pub last: u64,
}

// How far the free order was followed: where the walk stopped, after how many slots, and the last of them.
#[derive(Clone, Copy)]
struct Reached {
    at: u64,
    steps: u64,
    last: u64,
}

// Whether the slot is one of the table and in use.
pub fn in_use(arena: &[u64], slot: Slot) -> bool
    ensures { (result ≡ true) ↔ InUse arena.now slot.0 }
{
    let s = slot.0 as usize;
    s < arena.len() && arena[s] == USED
}

// Whether the table and the order are those of some free slots, with all others in use.
pub fn is_sound(arena: &[u64], order: Order) -> bool
    ensures { (result ≡ true) ↔ ArenaSound arena.now order }
{
    let capacity = arena.len() as u64;
    if LIMIT < capacity {
        return false;
    }
    let w = walk(arena, order.first);
    w.at == NONE && w.last == order.last && count_used(arena) + w.steps == capacity
}

// Follows the links from `first`, for at most as many steps as there are slots.
fn walk(arena: &[u64], first: u64) -> Reached
    requires { length arena.now ≤ LIMIT }
    ensures { Walks arena.now first result }
{
    let capacity = arena.len() as u64;
    let mut at = first;
    let mut steps = 0;
    let mut last = NONE;
    // A `while`, since it follows links: no range and no iterator has the places.
    while at < capacity && steps < capacity {
        last = at;
        at = arena[at as usize];
        steps += 1;
    }
    Reached { at, steps, last }
}

// How many slots are in use.
pub fn count_used(arena: &[u64]) -> u64
    ensures { result ≡ used_in arena.now }
{
    let mut used: u64 = 0;
    // No `filter` with `count`: that looks at the words one by one, and this at several at once.
    for link in arena {
        if *link == USED {
            used += 1;
        }
    }
    used
}
