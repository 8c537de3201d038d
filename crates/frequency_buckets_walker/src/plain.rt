// The work of a walker: its start checks the tables and looks up the head of a list, its step follows one link.
ghost use Rattle.std.specs.Prelude.{◌≡◌};
ghost use Rattle.ledger.specs.Walk.{start};
ghost use Rattle.buckets_tables.specs.Slices.{shown};
ghost use Rattle.frequency_buckets_walker.specs.Stands.{of_step, place_of, stand_of};
ghost use Rattle.frequency_buckets_walker.specs.Walks.{Reaches, Starts, Steps};

use crate::{NOWHERE, Stand};
use answers::Guest;
use buckets_check::check;
use buckets_tables::{Guests, State};
use buckets_walk::sound::{next, walk_start};
use levels::Levels;
use numbers::{Frequency, Refusal, Slot};

// The slot that the start of a walk shows.
fn of_step(step: Result<Option<Guest>, Refusal>) -> Result<Option<Slot>, Refusal>
    ensures { result ≡ of_step step }
{
    match step {
        Ok(Some(guest)) => Ok(Some(guest.slot)),
        Ok(None) => Ok(None),
        Err(why) => Err(why),
    }
}

// The slot that goes with an answer: out of range where none was answered.
fn place(answer: Result<Option<Slot>, Refusal>) -> Slot
    ensures { result ≡ place_of answer }
{
    match answer {
        Ok(Some(slot)) => slot,
        Ok(None) => Slot(NOWHERE),
        Err(_) => Slot(NOWHERE),
    }
}

// Where a walker stands that has answered this.
fn standing(answer: Result<Option<Slot>, Refusal>) -> Stand
    ensures { result ≡ stand_of answer }
{
    Stand {
        slot: place(answer),
        answer,
    }
}

// The head of a frequency's list, on any tables.
fn head(
    guests: &Guests<&[u64]>,
    epochs: &[u64],
    levels: &Levels<&[u64]>,
    state: State,
    frequency: Frequency,
) -> Result<Option<Slot>, Refusal>
    ensures { Reaches (shown guests.now epochs.now levels.now) state (start frequency.0) result }
{
    check(guests, epochs, levels, state)?;
    of_step(walk_start(guests.keys, epochs, levels.buckets, state, frequency))
}

// The start's work: the tables are checked, and the head of the frequency's list is looked up.
pub fn start_at(
    guests: &Guests<&[u64]>,
    epochs: &[u64],
    levels: &Levels<&[u64]>,
    state: State,
    frequency: Frequency,
) -> Stand
    ensures { Starts (shown guests.now epochs.now levels.now) state frequency.0 result }
{
    standing(head(guests, epochs, levels, state, frequency))
}

// The step's work: the link of the slot is followed. Any links may be lent.
pub fn step_at(links: &[u64], at: Stand) -> Stand
    ensures { Steps links.now at result }
{
    standing(next(links, at.slot))
}
