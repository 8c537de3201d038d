// Writing the walk of a frequency into a lent buffer, by the reader of a walk: its start checks the tables, and then it takes a step for each
// item.
ghost use Rattle.std.specs.Prelude.{◌+◌, ◌*◌, ◌≤◌, length};
ghost use Rattle.buckets_tables.specs.Slices.{shown};
ghost use Rattle.trace.specs.Lines.{DIGITS};
ghost use Rattle.trace.specs.Written.{Spells};
ghost use Rattle.drive_walk.specs.Walk.{behind, item_text, ITEM, WALK, Listable, Placed, Lists, WalkPrints};

use buckets_tables::{Guests, State};
use drive_lines::Told;
use frequency_buckets_walker::Stand;
use frequency_buckets_walker::sound::onward;
use levels::Levels;
use numbers::{Frequency, Key, Slot};
use trace::sound::{number, put, spaced};

// A number behind a colon.
fn coloned(out: &mut [u8], at: usize, n: u64) -> usize
    requires { at + (1 + DIGITS) ≤ length out.old }
    ensures { Spells out.old at (behind n) (1 + DIGITS) out.new result }
{
    let next = put(out, at, b":");
    number(out, next, n)
}

// One item: its slot, key and epoch.
fn item(out: &mut [u8], at: usize, slot: Slot, key: Key, epoch: u64) -> usize
    requires { at + ITEM ≤ length out.old }
    ensures { Spells out.old at (item_text slot.0 key.0 epoch) ITEM out.new result }
{
    let second = spaced(out, at, slot.0);
    let third = coloned(out, second, key.0);
    coloned(out, third, epoch)
}

// The items from where a reader stands: their keys and epochs are read at the slots that it answers. No list is longer than the table of keys.
fn items(
    keys: &[u64],
    epochs: &[u64],
    nexts: &[u64],
    first: Stand,
    out: &mut [u8],
    at: usize,
) -> usize
    requires { Listable keys.now epochs.now nexts.now × Placed keys.now first × (at + length keys.now * ITEM ≤ length out.old) }
    ensures { Lists
        keys.now epochs.now nexts.now first out.old at
        out.new result }
{
    let mut stand = first;
    let mut end = at;
    for _done in 0..keys.len() {
        let Ok(Some(slot)) = stand.reached() else {
            return end;
        };
        let key = Key(keys[slot.0 as usize]);
        let epoch = epochs[slot.0 as usize];
        end = item(out, end, slot, key, epoch);
        stand = onward(nexts, stand);
    }
    end
}

// The line of a walk: the number of a refusal, or DONE and each item of the frequency's list, head first.
pub fn walk(
    guests: &Guests<&[u64]>,
    epochs: &[u64],
    levels: &Levels<&[u64]>,
    state: State,
    frequency: u64,
    out: &mut [u8],
    at: usize,
) -> usize
    requires { at + WALK ≤ length out.old }
    ensures { WalkPrints frequency
        (shown guests.now epochs.now levels.now) state out.old at
        out.new result }
{
    let of = Frequency(frequency);
    let first = frequency_buckets_walker::first(guests, epochs, levels, state, of);
    if let Err(why) = first.reached() {
        return drive_lines::sound::write(out, at, Told::Refused(why));
    }
    let next = number(out, at, 0);
    let end = items(guests.keys, epochs, levels.nexts, first, out, next);
    put(out, end, b"\n")
}
