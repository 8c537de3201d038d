// The lines of `drive`: document 01's number and the values of an answer, or a word; and the line of each answer of a public call. Writing
// one into a buffer stands in `sound`.
#![tactic(auto)]

ghost use Rattle.std.specs.Prelude.{◌≡◌, [], ◌∷◌, ◌++◌, List, ℕ};
ghost use Rattle.numbers.specs.Answer.{DONE};
ghost use Rattle.ledger.specs.Buckets.{yes_no};
ghost use Rattle.answers.specs.Replies.{reply};
ghost use Rattle.trace.specs.Lines.{decimal};
ghost use Rattle.drive_lines.specs.Lines.{text, ending, reply_text, insertion_text};

use answers::Insertion;
use numbers::{Frequency, Key, Refusal};
use trace::{Line, Word};

pub mod sound;

// What is told of a call: DONE with its values, or with how an insert into the cache went; a refusal; or a word of `drive` itself.
#[derive(Clone, Copy)]
pub enum Told {
    Done,
    One(u64),
    Two(u64, u64),
    Stored(Line),
    Refused(Refusal),
    Just(Word),
}

// What a call answers in numbers.
pub trait Tells {
    // Which.
    ghost values: { Self → List ℕ };

    // DONE, and these.
    fn told(self) -> Told
        ensures { text result ≡ decimal DONE ++ ending (values self) };
}

impl Tells for () {
    ghost values = { λ u. [] };

    fn told(self) -> Told {
        Told::Done
    }
}

impl Tells for u64 {
    ghost values = { λ n. n ∷ [] };

    fn told(self) -> Told {
        Told::One(self)
    }
}

// Yes is 1 and no is 0.
impl Tells for bool {
    ghost values = { λ b. yes_no b ∷ [] };

    fn told(self) -> Told {
        Told::One(self as u64)
    }
}

impl Tells for Frequency {
    ghost values = { λ f. f.0 ∷ [] };

    fn told(self) -> Told {
        Told::One(self.0)
    }
}

// A key and its frequency.
impl Tells for (Key, Frequency) {
    ghost values = { λ p. p.0.0 ∷ p.1.0 ∷ [] };

    fn told(self) -> Told {
        let (key, frequency) = self;
        Told::Two(key.0, frequency.0)
    }
}

// A key and its value.
impl Tells for (Key, u64) {
    ghost values = { λ p. p.0.0 ∷ p.1 ∷ [] };

    fn told(self) -> Told {
        let (key, value) = self;
        Told::Two(key.0, value)
    }
}

// What is told of an answer in numbers, or of a refusal.
pub fn tell<T: Tells>(answer: Result<T, Refusal>) -> Told
    ensures { text result ≡ reply_text (reply T.values answer) }
{
    match answer {
        Ok(values) => values.told(),
        Err(why) => Told::Refused(why),
    }
}

// What is told of an insert into the cache: how it went is a word.
pub fn tell_insertion(answer: Result<Insertion, Refusal>) -> Told
    ensures { text result ≡ insertion_text answer }
{
    match answer {
        Ok(Insertion::New) => Told::Stored(Line::Plain(Word::New)),
        Ok(Insertion::NewOut(key)) => Told::Stored(Line::One(Word::NewOut, key.0)),
        Ok(Insertion::Old(value)) => Told::Stored(Line::One(Word::Old, value)),
        Err(why) => Told::Refused(why),
    }
}
