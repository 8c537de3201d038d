// The walker's step over links that are known to be those of sound tables: nothing is checked, and where the walker stands may come from
// anywhere. So a walk that was put down goes on.
ghost use Rattle.frequency_buckets_walker.specs.Walks.{Linked, Onward};

use crate::{Stand, Walker, stands, step};

// Where a walker goes from where one stands.
pub fn onward(links: &[u64], at: Stand) -> Stand
    requires { Linked links.now }
    ensures { Onward links.now at result }
{
    stands(step(Walker { links, at }))
}
