// The calls that set an epoch, on tables that are known to be sound: the current one, which stands in the state, or that of one key.
ghost use Rattle.std.specs.Prelude.{◌≡◌, [], length};
ghost use Rattle.ledger.specs.Buckets as ledger;
ghost use Rattle.key_index.specs.Index.{IndexSound};
ghost use Rattle.answers.specs.Replies.{number_reply, plain_reply};
ghost use Rattle.frequency_buckets_epochs.specs.Calls.{OnState, OnEpochs};

use buckets_tables::State;
use numbers::{Key, Refusal};

// Sets the current epoch.
pub fn set_epoch(state: &mut State, epoch: u64)
    ensures { OnState (ledger.set_epoch epoch) state.old (ledger.done []) state.new }
{
    state.date(epoch);
}

// Goes to the next epoch, and answers it; 0 comes after the largest.
pub fn advance_epoch(state: &mut State) -> u64
    ensures { OnState ledger.advance_epoch state.old (number_reply (Ok result)) state.new }
{
    state.advance();
    state.epoch
}

// Sets the epoch of a bound key.
pub fn set_entry_epoch(
    keys: &[u64],
    epochs: &mut [u64],
    index: &[u64],
    key: Key,
    epoch: u64,
) -> Result<(), Refusal>
    requires { IndexSound index.now keys.now × (length epochs.old ≡ length keys.now) }
    ensures { OnEpochs (ledger.set_entry_epoch key.0 epoch)
        keys.now epochs.old index.now (plain_reply result)
        epochs.new }
{
    match key_index::sound::find(index, keys, key) {
        Some(slot) => {
            epochs[slot.0 as usize] = epoch;
            Ok(())
        }
        None => Err(Refusal::Absent),
    }
}
