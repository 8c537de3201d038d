// The walk over tables that are known to be sound: nothing is checked, and each call is lent only what it reads. The start takes a step
// for each level below; a step takes a few. A step over the links alone takes any links.
ghost use Rattle.ledger.specs.BucketCalls.{asks, WalkStart, WalkStep};
ghost use Rattle.answers.specs.Replies.{step_reply};
ghost use Rattle.buckets_walk.specs.Walks.{Leads, Startable, OfStart, Walkable, OfStep};

use answers::Guest;
use buckets_tables::State;
use numbers::{Frequency, Key, NONE, Refusal, Slot};

// The head of a frequency's list.
pub fn walk_start(
    keys: &[u64],
    epochs: &[u64],
    buckets: &[u64],
    state: State,
    frequency: Frequency,
) -> Result<Option<Guest>, Refusal>
    requires { Startable keys.now epochs.now buckets.now state }
    ensures { OfStart
        keys.now epochs.now buckets.now state (asks (WalkStart frequency.0)) (step_reply result) }
{
    let Some(slot) = levels::sound::head(buckets, state.buckets, frequency) else {
        return Ok(None);
    };
    let key = Key(keys[slot.0 as usize]);
    let epoch = epochs[slot.0 as usize];
    Ok(Some(Guest {
        slot,
        key,
        frequency,
        epoch,
    }))
}

// The slot after one, by the links. A slot out of range, or one that is marked free, has none.
pub fn next(nexts: &[u64], slot: Slot) -> Result<Option<Slot>, Refusal>
    ensures { Leads nexts.now slot.0 result }
{
    if levels::is_free(nexts, slot) {
        return Err(Refusal::Absent);
    }
    let s = slot.0 as usize;
    if s < nexts.len() {
        let after = levels::sound::next(nexts, slot);
        if after.0 == NONE {
            return Ok(None);
        }
        return Ok(Some(after));
    }
    Err(Refusal::Absent)
}

// The slot after one in its list, and what stands there.
pub fn walk_step(
    keys: &[u64],
    freqs: &[u64],
    epochs: &[u64],
    nexts: &[u64],
    slot: Slot,
) -> Result<Option<Guest>, Refusal>
    requires { Walkable keys.now freqs.now epochs.now nexts.now }
    ensures { OfStep
        keys.now freqs.now epochs.now nexts.now (asks (WalkStep slot.0)) (step_reply result) }
{
    let Some(there) = next(nexts, slot)? else {
        return Ok(None);
    };
    let s = there.0 as usize;
    Ok(Some(Guest {
        slot: there,
        key: Key(keys[s]),
        frequency: Frequency(freqs[s]),
        epoch: epochs[s],
    }))
}
