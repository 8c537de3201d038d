// The lent tables of the cache: what they hold, what is promised of them, and the steps that calls have in common.
#![tactic(auto)]

ghost use Rattle.std.specs.Prelude.{◌≡◌, set};

use numbers::Slot;

pub mod sound;

// Stores the value of a slot. NONE is no slot: nothing is stored there.
pub fn store(values: &mut [u64], slot: Slot, value: u64)
    ensures { values.new ≡ set values.old slot.0 value }
{
    let s = slot.0 as usize;
    if s < values.len() {
        values[s] = value;
    }
}
