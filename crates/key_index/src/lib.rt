// From a key to its slot, over one lent table of 2 C words beside the C keys: `index[c]` is the first slot of class c, `index[C + s]` the slot after s in
// its class, NONE at the last one, and OUT where slot s is not in the index. Each class is in strictly ascending order of keys.
#![tactic(auto)]

ghost use Rattle.std.specs.Prelude.{◌≡◌, true, ◌↔◌, List, ℕ, ◌+◌, ◌≤◌, ◌<◌, length};
ghost use Rattle.numbers.specs.Marks.{LIMIT};
ghost use Rattle.key_index.specs.Class.{class_of};
ghost use Rattle.key_index.specs.Index.{Has, Clears, IndexSound};
ghost use Rattle.key_index.specs.Cleared.{cleared_cell};
ghost use Rattle.key_index.specs.Check.{Follows, CountsClass, CountsAll, in_index};

use numbers::{Key, LIMIT, NONE, Slot};

pub mod sound;

// The mark of a slot that is not in the index. No link has this number.
pub const OUT: u64 = 4097;

// The class that a key belongs to, of `capacity` many.
fn class_of(key: Key, capacity: u64) -> u64
    requires { 0 < capacity }
    ensures { result ≡ class_of key.0 capacity }
{
    key.0 % capacity
}

// Whether the slot is in the index.
pub fn has(index: &[u64], slot: Slot) -> bool
    ensures { (keys : List ℕ) → length
        index.now ≡ length keys + length keys → (result ≡ true) ↔ Has index.now keys slot.0 }
{
    let capacity = index.len() / 2;
    let s = slot.0 as usize;
    s < capacity && index[capacity + s] != OUT
}

// Puts every slot out of the index. Linear in its length.
pub fn clear(index: &mut [u64])
    ensures { Clears index.old index.new }
{
    let half = index.len() / 2;
    for (i, word) in index.iter_mut().enumerate() {
        *word = cleared_cell(half, i);
    }
}

// What a cleared index has at word i.
fn cleared_cell(half: usize, i: usize) -> u64
    ensures { result ≡ cleared_cell half i }
{
    if i < half { NONE } else { OUT }
}

// Whether index and keys are those of some slots with distinct keys. Walks each class once and counts, with no memory of its own.
pub fn is_sound(index: &[u64], keys: &[u64]) -> bool
    ensures { (result ≡ true) ↔ IndexSound index.now keys.now }
{
    let capacity = keys.len() as u64;
    if LIMIT < capacity {
        return false;
    }
    if index.len() as u64 != capacity + capacity {
        return false;
    }
    match count_classes(index, keys) {
        Some(n) => count_in(index, keys) == n,
        None => false,
    }
}

// How many slots all classes have, None where one of them is wrong.
fn count_classes(index: &[u64], keys: &[u64]) -> Option<u64>
    requires { (length keys.now ≤ LIMIT) × (length index.now ≡ length keys.now + length keys.now) }
    ensures { CountsAll index.now keys.now result }
{
    let mut n: u64 = 0;
    for c in 0..keys.len() {
        n += count_class(index, keys, c)?;
    }
    Some(n)
}

// How many slots one class has: each is of that class, with a larger key than the one before. None where that is not so.
fn count_class(index: &[u64], keys: &[u64], class: usize) -> Option<u64>
    requires { (length keys.now ≤ LIMIT) × (length index.now ≡ length keys.now + length keys.now) × (class < length keys.now) }
    ensures { CountsClass index.now keys.now class result }
{
    let capacity = keys.len();
    let mut last = NONE as usize;
    let mut at = index[class] as usize;
    let mut steps: usize = 0;
    // A `while`, since it follows links: no range and no iterator has the places.
    while at < capacity && steps < capacity {
        if !follows(keys, class, last, at) {
            return None;
        }
        last = at;
        at = index[capacity + at] as usize;
        steps += 1;
    }
    if at as u64 == NONE {
        Some(steps as u64)
    } else {
        None
    }
}

// Whether slot s is of this class, with a larger key than slot `last`, if that is one.
fn follows(keys: &[u64], class: usize, last: usize, s: usize) -> bool
    requires { s < length keys.now }
    ensures { (result ≡ true) ↔ Follows keys.now class last s }
{
    let key = keys[s];
    class_of(Key(key), keys.len() as u64) as usize == class
        && (last >= keys.len() || keys[last] < key)
}

// How many slots are marked as in the index.
fn count_in(index: &[u64], keys: &[u64]) -> u64
    requires { (length keys.now ≤ LIMIT) × (length index.now ≡ length keys.now + length keys.now) }
    ensures { result ≡ in_index index.now keys.now }
{
    let mut n: u64 = 0;
    // No `filter` with `count`: that looks at the words one by one, and this at several at once.
    for link in &index[keys.len()..] {
        if *link != OUT {
            n += 1;
        }
    }
    n
}
