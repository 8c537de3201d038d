// The calls of `FrequencyBuckets` on epochs, on any lent tables: each checks first.
#![tactic(auto)]

ghost use Rattle.ledger.specs.BucketCalls as ledger;
ghost use Rattle.promise.specs.Promise.{Makes};
ghost use Rattle.buckets_tables.specs.Slices.{shown};
ghost use Rattle.buckets_tables.specs.Lent as kind;
ghost use Rattle.answers.specs.Replies.{number_reply, plain_reply};

use buckets_check::check;
use buckets_tables::{Guests, State};
use levels::Levels;
use numbers::{Key, Refusal};

pub mod sound;

// Sets the current epoch.
pub fn set_epoch(
    guests: &Guests<&[u64]>,
    epochs: &[u64],
    levels: &Levels<&[u64]>,
    state: &mut State,
    epoch: u64,
) -> Result<(), Refusal>
    ensures { Makes kind.buckets (ledger.SetEpoch epoch)
        (shown guests.now epochs.now levels.now) state.old (plain_reply result)
        (shown guests.now epochs.now levels.now) state.new }
{
    check(guests, epochs, levels, *state)?;
    sound::set_epoch(state, epoch);
    Ok(())
}

// Goes to the next epoch, and answers it; 0 comes after the largest.
pub fn advance_epoch(
    guests: &Guests<&[u64]>,
    epochs: &[u64],
    levels: &Levels<&[u64]>,
    state: &mut State,
) -> Result<u64, Refusal>
    ensures { Makes kind.buckets ledger.AdvanceEpoch
        (shown guests.now epochs.now levels.now) state.old (number_reply result)
        (shown guests.now epochs.now levels.now) state.new }
{
    check(guests, epochs, levels, *state)?;
    Ok(sound::advance_epoch(state))
}

// Sets the epoch of a bound key. The state stays as it is.
pub fn set_entry_epoch(
    guests: &Guests<&[u64]>,
    epochs: &mut [u64],
    levels: &Levels<&[u64]>,
    state: State,
    key: Key,
    epoch: u64,
) -> Result<(), Refusal>
    ensures { Makes kind.buckets (ledger.SetEntryEpoch key.0 epoch)
        (shown guests.now epochs.old levels.now) state (plain_reply result)
        (shown guests.now epochs.new levels.now) state }
{
    check(guests, &epochs[..], levels, state)?;
    sound::set_entry_epoch(guests.keys, epochs, guests.index, key, epoch)
}
