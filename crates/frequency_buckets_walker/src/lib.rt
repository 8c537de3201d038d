// A walker: it holds the links of the entries and where it stands in the list of a frequency. Its start checks the tables, its step only
// the slot. The fields of a walker and of a stand are this crate's own: whoever holds one got it from a start, which checked the tables that
// the walker holds. These functions are thin: the work is done in `plain`. Other callers take `first`, `nth` and `sound::onward`, which
// know of no walker.
#![tactic(auto)]

ghost use Rattle.std.specs.Prelude.{◌≡◌};
ghost use Rattle.buckets_tables.specs.Slices.{shown};
ghost use Rattle.frequency_buckets_walker.specs.Walks.{Starts, Steps, Nth};

use buckets_tables::{Guests, State};
use levels::Levels;
use numbers::{Frequency, Refusal, Slot};

mod plain;
pub mod sound;

// A place that is out of range of any table.
const NOWHERE: u64 = 0xffff_ffff_ffff_ffff;

// What a walker has answered last, and the slot it stands at. It stands out of range where it has answered no slot.
#[derive(Clone, Copy)]
pub struct Stand {
    slot: Slot,
    answer: Result<Option<Slot>, Refusal>,
}

impl Stand {
    // What was answered. Where that is a refusal, no slot is told beside it.
    pub fn reached(self) -> Result<Option<Slot>, Refusal>
        ensures { result ≡ self.answer }
    {
        self.answer
    }
}

// The links of the entries, and where it stands among them.
#[derive(Drop)]
pub struct Walker<'a> {
    links: &'a [u64],
    at: Stand,
}

// Starts the walk of a frequency.
pub fn start<'a>(
    guests: &Guests<&'a [u64]>,
    epochs: &'a [u64],
    levels: &Levels<&'a [u64]>,
    state: State,
    frequency: Frequency,
) -> Walker<'a>
    ensures { (result.links ≡ levels.now.nexts) × Starts (shown guests.now epochs.now levels.now) state frequency.0 result.at }
{
    Walker {
        links: levels.nexts,
        at: plain::start_at(guests, epochs, levels, state, frequency),
    }
}

// Goes to the slot after the one it stands at. The tables need no check: they are as its start found them, and after a refused start it
// stands out of range.
pub fn step<'a>(w: Walker<'a>) -> Walker<'a>
    ensures { (result.links ≡ w.entry.links) × Steps w.entry.links.now w.entry.at result.at }
{
    Walker {
        links: w.links,
        at: plain::step_at(w.links, w.at),
    }
}

// What it has answered last, and where it stands.
pub fn stands<'a>(w: Walker<'a>) -> Stand
    ensures { result ≡ w.entry.at }
{
    w.at
}

// Where a walker of a frequency starts.
pub fn first(
    guests: &Guests<&[u64]>,
    epochs: &[u64],
    levels: &Levels<&[u64]>,
    state: State,
    frequency: Frequency,
) -> Stand
    ensures { Starts (shown guests.now epochs.now levels.now) state frequency.0 result }
{
    stands(start(guests, epochs, levels, state, frequency))
}

// Where a walker of a frequency stands after n steps. A walker that has answered a refusal answers no other.
pub fn nth(
    guests: &Guests<&[u64]>,
    epochs: &[u64],
    levels: &Levels<&[u64]>,
    state: State,
    frequency: Frequency,
    n: u64,
) -> Stand
    ensures { Nth (shown guests.now epochs.now levels.now) state frequency.0 n result }
{
    let mut at = first(guests, epochs, levels, state, frequency);
    for _ in 0..n {
        if at.answer.is_err() {
            return at;
        }
        at = sound::onward(levels.nexts, at);
    }
    at
}
