// The calls on an index that is known to be sound: they check nothing, and walk at most one class.
ghost use Rattle.std.specs.Prelude.{◌<◌, length};
ghost use Rattle.key_index.specs.Index.{Finds, Inserts, Removes, IndexSound};
ghost use Rattle.key_index.specs.Places.{Places};

use crate::{OUT, class_of};
use numbers::{Key, Slot};

// The word of `index` after which the key belongs: its class, or the link of the last slot with a smaller key.
fn place(index: &[u64], keys: &[u64], key: Key) -> usize
    requires { IndexSound index.now keys.now × (0 < length keys.now) }
    ensures { Places index.now keys.now key.0 result }
{
    let capacity = keys.len();
    let mut at = class_of(key, capacity as u64) as usize;
    let mut s = index[at] as usize;
    // A `while`, since it follows links: no range and no iterator has the places.
    while s < capacity && keys[s] < key.0 {
        at = capacity + s;
        s = index[at] as usize;
    }
    at
}

// The slot in the index whose key this is.
pub fn find(index: &[u64], keys: &[u64], key: Key) -> Option<Slot>
    requires { IndexSound index.now keys.now }
    ensures { Finds index.now keys.now key.0 result }
{
    if keys.len() == 0 {
        return None;
    }
    let at = place(index, keys, key);
    let s = index[at] as usize;
    if s < keys.len() && keys[s] == key.0 {
        return Some(Slot(s as u64));
    }
    None
}

// Puts a slot in, under the key that `keys` has for it.
pub fn insert(index: &mut [u64], keys: &[u64], slot: Slot)
    requires { IndexSound index.old keys.now × (slot.0 < length keys.now) }
    ensures { Inserts index.old keys.now slot.0 index.new }
{
    let s = slot.0 as usize;
    let key = keys[s];
    let at = place(&index[..], keys, Key(key));
    let link = keys.len() + s;
    index[link] = index[at];
    index[at] = slot.0;
}

// Puts a slot out.
pub fn remove(index: &mut [u64], keys: &[u64], slot: Slot)
    requires { IndexSound index.old keys.now × (slot.0 < length keys.now) }
    ensures { Removes index.old keys.now slot.0 index.new }
{
    let s = slot.0 as usize;
    let key = keys[s];
    let at = place(&index[..], keys, Key(key));
    let link = keys.len() + s;
    index[at] = index[link];
    index[link] = OUT;
}
