// Other frequencies for all keys, in place: halving, and lowering to 1. Levels that come together are joined; slots, keys, epochs and the free
// order stay, for their tables are not lent. The calls stand in `sound`.
#![tactic(auto)]

ghost use Rattle.std.specs.Prelude.{◌≡◌};
ghost use Rattle.buckets_regroup.specs.Change.{changed};

use numbers::Frequency;

pub mod sound;

// What becomes of a frequency: it is halved some times over, or lowered by a number, but never below the first level. An enum and not a closure:
// `changed` says of it what a closure's contract would have to say at every step.
#[derive(Clone, Copy)]
enum Change {
    Halved(u64),
    Lowered(u64),
}

impl Change {
    // The new frequency.
    fn of(self, frequency: Frequency) -> Frequency
        ensures { result.0 ≡ changed self frequency.0 }
    {
        match self {
            Change::Halved(n) => frequency.halved_times(n),
            Change::Lowered(n) => {
                if frequency.0 <= n {
                    return Frequency::FIRST;
                }
                Frequency(frequency.0 - n)
            }
        }
    }
}
