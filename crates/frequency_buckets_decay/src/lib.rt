// The calls of `FrequencyBuckets` that give every key another frequency. Keys, slots, last epochs and free order stay, so the tables that hold
// them are lent for reading only.
#![tactic(auto)]

ghost use Rattle.ledger.specs.BucketCalls as ledger;
ghost use Rattle.promise.specs.Promise.{Makes};
ghost use Rattle.levels.specs.Slices.{SameLevels};
ghost use Rattle.buckets_tables.specs.Slices.{counted};
ghost use Rattle.buckets_tables.specs.Lent as kind;
ghost use Rattle.answers.specs.Replies.{plain_reply};

use buckets_check::check;
use buckets_regroup::sound;
use buckets_tables::{Guests, State};
use levels::Levels;
use numbers::Refusal;

// Halves every frequency, but to no less than 1.
pub fn decay_halve(
    guests: &Guests<&[u64]>,
    epochs: &[u64],
    levels: &mut Levels<&mut [u64]>,
    state: &mut State,
) -> Result<(), Refusal>
    ensures same { SameLevels levels.old levels.new }
    ensures does { Makes kind.buckets ledger.DecayHalve
        (counted guests.now epochs.now levels.old) state.old (plain_reply result)
        (counted guests.now epochs.now levels.new) state.new }
{
    decay_halve_times(guests, epochs, levels, state, 1)
}

// Halves every frequency n times over, but to no less than 1. n is any number.
pub fn decay_halve_times(
    guests: &Guests<&[u64]>,
    epochs: &[u64],
    levels: &mut Levels<&mut [u64]>,
    state: &mut State,
    n: u64,
) -> Result<(), Refusal>
    ensures same { SameLevels levels.old levels.new }
    ensures does { Makes kind.buckets (ledger.DecayHalveTimes n)
        (counted guests.now epochs.now levels.old) state.old (plain_reply result)
        (counted guests.now epochs.now levels.new) state.new }
{
    check(guests, epochs, levels, *state)?;
    sound::decay_halve_times(levels, state, n);
    Ok(())
}

// Lowers every frequency by one number, so that the lowest is 1.
pub fn rebase_min_freq(
    guests: &Guests<&[u64]>,
    epochs: &[u64],
    levels: &mut Levels<&mut [u64]>,
    state: &mut State,
) -> Result<(), Refusal>
    ensures same { SameLevels levels.old levels.new }
    ensures does { Makes kind.buckets ledger.RebaseMinFreq
        (counted guests.now epochs.now levels.old) state.old (plain_reply result)
        (counted guests.now epochs.now levels.new) state.new }
{
    check(guests, epochs, levels, *state)?;
    sound::rebase_min_freq(levels, state);
    Ok(())
}
