// The calls ask that the two tables are of one size and that the slot is in them. What they do to a list, its `ensures` says of every
// list that the tables hold. Ends that are those of no list may have any count, and it may wrap.
ghost use Rattle.std.specs.Prelude.{◌≤◌, length};
ghost use Rattle.numbers.specs.Marks.{NONE};
ghost use Rattle.links.specs.Linked.{Fits, Put, Pushed, Unlinked, Moved, linked};

// Makes v the link of slot i in t, or the end of the list where i is NONE. Returns the end.
fn put(t: &mut [u64], end: u64, i: u64, v: u64) -> u64
    requires { length t.old ≤ NONE }
    ensures { Put t.old end i v t.new result }
{
    let k = i as usize;
    if k < t.len() {
        t[k] = v;
        return end;
    }
    v
}

// Puts a slot in front of the list.
pub fn push_front(
    prevs: &mut [u64],
    nexts: &mut [u64],
    ends: crate::Ends,
    slot: numbers::Slot,
) -> crate::Ends
    requires { Fits prevs.old nexts.old slot.0 }
    ensures { Pushed (linked
        prevs.old nexts.old ends) slot.0 (linked
        prevs.new nexts.new result) }
{
    let s = slot.0;
    let head = ends.head;
    nexts[s as usize] = head;
    prevs[s as usize] = numbers::NONE;
    let tail = put(prevs, ends.tail, head, s);
    let count = std::num::wrapping_add_u64(ends.count, 1);
    crate::Ends {
        head: s,
        tail: tail,
        count: count,
    }
}

// Takes a slot out of the list. The slot's own links stay as they were.
pub fn unlink(
    prevs: &mut [u64],
    nexts: &mut [u64],
    ends: crate::Ends,
    slot: numbers::Slot,
) -> crate::Ends
    requires { Fits prevs.old nexts.old slot.0 }
    ensures { Unlinked (linked
        prevs.old nexts.old ends) slot.0 (linked
        prevs.new nexts.new result) }
{
    let s = slot.0;
    let p = prevs[s as usize];
    let n = nexts[s as usize];
    let head = put(nexts, ends.head, p, n);
    let tail = put(prevs, ends.tail, n, p);
    let count = std::num::wrapping_sub_u64(ends.count, 1);
    crate::Ends {
        head: head,
        tail: tail,
        count: count,
    }
}

// Moves a slot to the front of the list that it is in.
pub fn to_front(
    prevs: &mut [u64],
    nexts: &mut [u64],
    ends: crate::Ends,
    slot: numbers::Slot,
) -> crate::Ends
    requires { Fits prevs.old nexts.old slot.0 }
    ensures { Moved (linked
        prevs.old nexts.old ends) slot.0 (linked
        prevs.new nexts.new result) }
{
    let without = unlink(prevs, nexts, ends, slot);
    push_front(prevs, nexts, without, slot)
}
