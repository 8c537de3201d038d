// The batches on the frequency buckets, on sound tables: they stand in `sound`. Here is what a batch counts.
#![tactic(auto)]

ghost use Rattle.std.specs.Prelude.{◌≡◌, ◌≤◌, List, ℕ};
ghost use Rattle.ledger.specs.Buckets.{was_done};
ghost use Rattle.answers.specs.Replies.{reply};

use numbers::Refusal;

pub mod sound;

// 1 for DONE, whatever its values, and 0 for a refusal.
pub fn done_once<T: Drop>(answer: Result<T, Refusal>) -> u64
    ensures counts { (values : T → List ℕ) → result ≡ was_done (reply values answer) }
    ensures once { result ≤ 1 }
{
    answer.is_ok() as u64
}
