// The walk of a frequency over any lent tables: each call checks first. Between two calls a walk is only the number of a slot.
ghost use Rattle.ledger.specs.BucketCalls as ledger;
ghost use Rattle.promise.specs.Promise.{Answers};
ghost use Rattle.buckets_tables.specs.Slices.{shown};
ghost use Rattle.buckets_tables.specs.Lent as kind;
ghost use Rattle.answers.specs.Replies.{step_reply};

use answers::Guest;
use buckets_check::check;
use buckets_tables::{Guests, State};
use buckets_walk::sound::{walk_start, walk_step};
use levels::Levels;
use numbers::{Frequency, Refusal, Slot};

// The head of a frequency's list.
pub fn start(
    guests: &Guests<&[u64]>,
    epochs: &[u64],
    levels: &Levels<&[u64]>,
    state: State,
    frequency: Frequency,
) -> Result<Option<Guest>, Refusal>
    ensures { Answers kind.buckets (ledger.Ask (ledger.WalkStart frequency.0)) (shown guests.now epochs.now levels.now) state (step_reply result) }
{
    check(guests, epochs, levels, state)?;
    walk_start(guests.keys, epochs, levels.buckets, state, frequency)
}

// The slot after one in its list; from a free slot, or one out of range, it is ABSENT.
pub fn step(
    guests: &Guests<&[u64]>,
    epochs: &[u64],
    levels: &Levels<&[u64]>,
    state: State,
    slot: Slot,
) -> Result<Option<Guest>, Refusal>
    ensures { Answers kind.buckets (ledger.Ask (ledger.WalkStep slot.0)) (shown guests.now epochs.now levels.now) state (step_reply result) }
{
    check(guests, epochs, levels, state)?;
    walk_step(guests.keys, levels.freqs, epochs, levels.nexts, slot)
}
