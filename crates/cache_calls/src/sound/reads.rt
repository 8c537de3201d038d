// The calls that only answer: each is lent only what it reads.
ghost use Rattle.std.specs.Prelude.{◌≡◌, length};
ghost use Rattle.ledger.specs.History.{Peek, PeekLfu};
ghost use Rattle.ledger.specs.CacheCalls.{cache_calls};
ghost use Rattle.key_index.specs.Index.{IndexSound};
ghost use Rattle.answers.specs.Replies.{number_reply, least_used_reply};
ghost use Rattle.cache_calls.specs.Calls.{CachePeekable, CacheOfKeys, CacheOfLeast};

use buckets_tables::State;
use numbers::{Key, Refusal};

// The value of a bound key.
pub fn peek(keys: &[u64], index: &[u64], values: &[u64], key: Key) -> Result<u64, Refusal>
    requires { IndexSound index.now keys.now × (length values.now ≡ length keys.now) }
    ensures { CacheOfKeys
        keys.now index.now values.now (cache_calls (Peek key.0)) (number_reply result) }
{
    match key_index::sound::find(index, keys, key) {
        Some(slot) => Ok(values[slot.0 as usize]),
        None => Err(Refusal::Absent),
    }
}

// The key at the tail of the lowest list, and its value.
pub fn peek_lfu(
    keys: &[u64],
    buckets: &[u64],
    values: &[u64],
    state: State,
) -> Result<(Key, u64), Refusal>
    requires { CachePeekable keys.now buckets.now values.now state }
    ensures { CacheOfLeast
        keys.now buckets.now values.now state (cache_calls PeekLfu) (least_used_reply result) }
{
    let Some(slot) = levels::sound::lowest(buckets, state.buckets) else {
        return Err(Refusal::Empty);
    };
    let key = Key(keys[slot.0 as usize]);
    Ok((key, values[slot.0 as usize]))
}
