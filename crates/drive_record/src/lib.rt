// One record of `drive`: a public call, by its operation, and its line in a lent buffer. It stands in `sound`, which is lent a table for the
// keys and values of a batch and a buffer with room for the longest line.
#![tactic(auto)]

ghost use Rattle.std.specs.Prelude.{◌≡◌, ◌≤◌};
ghost use Rattle.drive_record.specs.Operations.{surplus_of};

pub mod sound;

// How many values more than keys a batch is given: none, but one at 66, so that a batch whose slices differ can be tried.
fn surplus(code: u8) -> u64
    ensures { (result ≡ surplus_of code) × (result ≤ 1) }
{
    if code == 66 {
        return 1;
    }
    0
}
