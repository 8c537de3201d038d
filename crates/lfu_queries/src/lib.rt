// The calls of `LfuCache` that only answer, on any lent tables: each checks first.
#![tactic(auto)]

ghost use Rattle.ledger.specs.History as ledger;
ghost use Rattle.promise.specs.Promise.{Answers};
ghost use Rattle.answers.specs.Replies.{least_used_reply, number_reply};
ghost use Rattle.cache_tables.specs.Slices.{shown};
ghost use Rattle.cache_tables.specs.Lent.{cache};

use buckets_tables::{Guests, State};
use cache_calls::sound::reads;
use cache_check::check;
use levels::Levels;
use numbers::{Key, Refusal};

// The value of a bound key.
pub fn peek(
    guests: &Guests<&[u64]>,
    epochs: &[u64],
    levels: &Levels<&[u64]>,
    values: &[u64],
    state: State,
    key: Key,
) -> Result<u64, Refusal>
    ensures { Answers cache (ledger.Peek key.0) (shown guests.now epochs.now levels.now values.now) state (number_reply result) }
{
    check(guests, epochs, levels, values, state)?;
    reads::peek(guests.keys, guests.index, values, key)
}

// The key at the tail of the lowest list, and its value.
pub fn peek_lfu(
    guests: &Guests<&[u64]>,
    epochs: &[u64],
    levels: &Levels<&[u64]>,
    values: &[u64],
    state: State,
) -> Result<(Key, u64), Refusal>
    ensures { Answers cache ledger.PeekLfu (shown guests.now epochs.now levels.now values.now) state (least_used_reply result) }
{
    check(guests, epochs, levels, values, state)?;
    reads::peek_lfu(guests.keys, levels.buckets, values, state)
}

// How many keys are bound.
pub fn len(
    guests: &Guests<&[u64]>,
    epochs: &[u64],
    levels: &Levels<&[u64]>,
    values: &[u64],
    state: State,
) -> Result<u64, Refusal>
    ensures { Answers cache ledger.Len (shown guests.now epochs.now levels.now values.now) state (number_reply result) }
{
    check(guests, epochs, levels, values, state)?;
    Ok(buckets_reads::sound::len(state))
}
