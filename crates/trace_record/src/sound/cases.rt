// The eight operations, each a call of the cache and the line that its answer prints. Each that does not change who is bound where is lent only what its call takes.
ghost use Rattle.std.specs.Prelude.{◌≡◌, length};
ghost use Rattle.ledger.specs.History.{Insert, Get, Remove, Reset, Evict, Clear};
ghost use Rattle.promise.specs.Promise.{Sound, SoundBeside};
ghost use Rattle.key_index.specs.Index.{IndexSound};
ghost use Rattle.levels.specs.Slices.{lent as lent_levels, SameLevels};
ghost use Rattle.buckets_tables.specs.Slices.{lent_guests, Same, SameGuests};
ghost use Rattle.buckets_tables.specs.Lent as nine;
ghost use Rattle.buckets_calls.specs.Calls as buckets;
ghost use Rattle.cache_tables.specs.Slices.{lent};
ghost use Rattle.cache_tables.specs.Lent.{cache};
ghost use Rattle.cache_calls.specs.Calls.{with, with_any, CachePeekable};
ghost use Rattle.trace.specs.Lines.{tells};
ghost use Rattle.trace_record.specs.Answers.{insertion_line, value_line, least_line, level_line};
ghost use Rattle.trace_record.specs.Steps.{beside, Lines, LinesBeside, OfPeek, OfPeekLfu};

use crate::Ask;
use answers::Insertion;
use buckets_tables::{Guests, State};
use levels::Levels;
use numbers::{Frequency, Key, Refusal};
use trace::{Line, Word};

// The line of an insert.
fn of_insertion(answer: Result<Insertion, Refusal>) -> Line
    ensures { result ≡ insertion_line answer }
{
    match answer {
        Ok(Insertion::New) => Line::Plain(Word::New),
        Ok(Insertion::NewOut(key)) => Line::One(Word::NewOut, key.0),
        Ok(Insertion::Old(value)) => Line::One(Word::Old, value),
        Err(_) => Line::Plain(Word::Full),
    }
}

// The line of a call that answers a value.
fn of_value(word: Word, answer: Result<u64, Refusal>) -> Line
    ensures { result ≡ value_line word answer }
{
    match answer {
        Ok(value) => Line::One(word, value),
        Err(_) => Line::Plain(Word::Miss),
    }
}

// The line of a call that answers a key and its value.
fn of_least(word: Word, answer: Result<(Key, u64), Refusal>) -> Line
    ensures { result ≡ least_line word answer }
{
    match answer {
        Ok((key, value)) => Line::Two(word, key.0, value),
        Err(_) => Line::Plain(Word::Nothing),
    }
}

// The line of a call that answers a frequency.
fn of_level(answer: Result<Frequency, Refusal>) -> Line
    ensures { result ≡ level_line answer }
{
    of_value(Word::Reset, answer.map(|frequency| frequency.0))
}

// 1: a key and its value.
pub(crate) fn insert(
    guests: &mut Guests<&mut [u64]>,
    epochs: &mut [u64],
    levels: &mut Levels<&mut [u64]>,
    values: &mut [u64],
    state: &mut State,
    ask: Ask,
) -> Line
    requires { Sound cache (lent guests.old epochs.old levels.old values.old) state.old }
    ensures same { Same guests.old guests.new levels.old levels.new }
    ensures does { Lines (tells (Insert ask.key.0 ask.value))
        (lent guests.old epochs.old levels.old values.old) state.old result
        (lent guests.new epochs.new levels.new values.new) state.new }
{
    of_insertion(cache_inserts::sound::insert(
        guests, epochs, levels, values, state, ask.key, ask.value,
    ))
}

// 2: a hit.
pub(crate) fn get(
    keys: &[u64],
    index: &[u64],
    epochs: &mut [u64],
    levels: &mut Levels<&mut [u64]>,
    values: &[u64],
    state: &mut State,
    key: Key,
) -> Line
    requires { SoundBeside cache (with keys.now index.now epochs.old (lent_levels levels.old) values.now) state.old }
    ensures same { SameLevels levels.old levels.new }
    ensures does { LinesBeside (tells (Get key.0))
        (with keys.now index.now epochs.old (lent_levels levels.old) values.now) state.old result
        (with keys.now index.now epochs.new (lent_levels levels.new) values.now) state.new }
{
    of_value(
        Word::Hit,
        cache_calls::sound::get(keys, index, epochs, levels, values, state, key),
    )
}

// 4: a key is let go.
pub(crate) fn remove(
    guests: &mut Guests<&mut [u64]>,
    epochs: &mut [u64],
    levels: &mut Levels<&mut [u64]>,
    values: &mut [u64],
    state: &mut State,
    key: Key,
) -> Line
    requires { Sound cache (lent guests.old epochs.old levels.old values.old) state.old }
    ensures same { Same guests.old guests.new levels.old levels.new }
    ensures does { Lines (tells (Remove key.0))
        (lent guests.old epochs.old levels.old values.old) state.old result
        (lent guests.new epochs.new levels.new values.new) state.new }
{
    of_value(
        Word::Gone,
        cache_calls::sound::remove(guests, epochs, levels, values, state, key),
    )
}

// 8: the key that was used least is let go.
pub(crate) fn evict(
    guests: &mut Guests<&mut [u64]>,
    epochs: &mut [u64],
    levels: &mut Levels<&mut [u64]>,
    values: &mut [u64],
    state: &mut State,
) -> Line
    requires { Sound cache (lent guests.old epochs.old levels.old values.old) state.old }
    ensures same { Same guests.old guests.new levels.old levels.new }
    ensures does { Lines (tells Evict)
        (lent guests.old epochs.old levels.old values.old) state.old result
        (lent guests.new epochs.new levels.new values.new) state.new }
{
    of_least(
        Word::Out,
        cache_calls::sound::evict_min_freq(guests, epochs, levels, values, state),
    )
}

// 6: a key starts again.
pub(crate) fn reset(
    keys: &[u64],
    index: &[u64],
    epochs: &mut [u64],
    levels: &mut Levels<&mut [u64]>,
    state: &mut State,
    key: Key,
) -> Line
    requires { SoundBeside nine.buckets (buckets.with keys.now index.now epochs.old (lent_levels levels.old)) state.old }
    ensures same { SameLevels levels.old levels.new }
    ensures does { LinesBeside (tells (Reset key.0))
        (with_any (buckets.with keys.now index.now epochs.old (lent_levels levels.old))) state.old result
        (with_any (buckets.with keys.now index.now epochs.new (lent_levels levels.new))) state.new }
{
    of_level(cache_calls::sound::reset_frequency(keys, index, epochs, levels, state, key))
}

// 3: a look at a value.
pub(crate) fn peek(keys: &[u64], index: &[u64], values: &[u64], key: Key) -> Line
    requires { IndexSound index.now keys.now × (length values.now ≡ length keys.now) }
    ensures { OfPeek key.0 keys.now index.now values.now result }
{
    of_value(
        Word::See,
        cache_calls::sound::reads::peek(keys, index, values, key),
    )
}

// 5: a look at the key that was used least.
pub(crate) fn least(keys: &[u64], buckets: &[u64], values: &[u64], state: State) -> Line
    requires { CachePeekable keys.now buckets.now values.now state }
    ensures { OfPeekLfu keys.now buckets.now values.now state result }
{
    of_least(
        Word::Least,
        cache_calls::sound::reads::peek_lfu(keys, buckets, values, state),
    )
}

// 7: every key is let go. The bucket records may hold anything then, and are not lent: so no `Levels`.
pub(crate) fn clear(
    guests: &mut Guests<&mut [u64]>,
    epochs: &mut [u64],
    freqs: &mut [u64],
    prevs: &mut [u64],
    nexts: &mut [u64],
    spares: &mut [u64],
    values: &mut [u64],
    state: &mut State,
) -> Line
    requires { SoundBeside cache (beside (lent_guests guests.old) epochs.old freqs.old prevs.old nexts.old spares.old values.old) state.old }
    ensures same { SameGuests guests.old guests.new }
    ensures does { LinesBeside (tells Clear)
        (beside (lent_guests guests.old) epochs.old freqs.old prevs.old nexts.old spares.old values.old) state.old result
        (beside (lent_guests guests.new) epochs.new freqs.new prevs.new nexts.new spares.new values.new) state.new }
{
    *state = lfu_make::sound::make(
        guests,
        epochs,
        freqs,
        prevs,
        nexts,
        spares,
        values,
        state.capacity,
    );
    Line::Plain(Word::Okay)
}
