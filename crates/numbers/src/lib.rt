// The three kinds of number that must not be mixed, the levels of a frequency, and the refusals of document 01's table.
#![tactic(auto)]

ghost use Rattle.std.specs.Prelude.{◌≡◌};
ghost use Rattle.numbers.specs.Frequency.{raised, halved_times, cap_of, CEILING};
ghost use Rattle.numbers.specs.Answer.{number_of};

// The most slots that a table may have.
pub const LIMIT: u64 = 4096;

// The mark that stands where a link leads nowhere. No slot has this number.
pub const NONE: u64 = 4096;

// What a guest is known by.
#[derive(Clone, Copy)]
pub struct Key(pub u64);

// The place of a guest in every table.
#[derive(Clone, Copy)]
pub struct Slot(pub u64);

// How often a guest was hit, counted from 1.
#[derive(Clone, Copy)]
pub struct Frequency(pub u64);

impl Frequency {
    // The level of a guest that has just been bound.
    pub const FIRST: Frequency = Frequency(1);
    // The level above which no guest rises.
    pub const CEILING: Frequency = Frequency(0xffff_ffff_ffff_ffff);

    // One level up, but never past the ceiling.
    pub fn next(self) -> Frequency
        ensures { result.0 ≡ raised CEILING self.0 }
    {
        if self.0 < 0xffff_ffff_ffff_ffff {
            return Frequency(self.0 + 1);
        }
        self
    }

    // One level up while below the cap; a level at or above the cap stays.
    pub fn capped(self, cap: Frequency) -> Frequency
        ensures { result.0 ≡ raised cap.0 self.0 }
    {
        if self.0 < cap.0 {
            return self.next();
        }
        self
    }

    // Half of the level n times over, rounded down, but never below the first.
    pub fn halved_times(self, n: u64) -> Frequency
        ensures { result.0 ≡ halved_times n self.0 }
    {
        if n < 64 {
            let halves = self.0 >> n;
            if halves < 1 {
                return Frequency::FIRST;
            }
            return Frequency(halves);
        }
        Frequency::FIRST
    }

    // The level as a cap: 0 is read as 1.
    pub fn as_cap(self) -> Frequency
        ensures { result.0 ≡ cap_of self.0 }
    {
        if self.0 < 1 {
            return Frequency::FIRST;
        }
        self
    }
}

// Why a call is refused.
#[derive(Clone, Copy)]
pub enum Refusal {
    Absent,
    Present,
    Full,
    Empty,
    Corrupt,
    Short,
    Capacity,
}

// Document 01's number.
impl From<Refusal> for u64 {
    ghost from_gives = { λ why n. n ≡ number_of why };

    fn from(why: Refusal) -> u64 {
        match why {
            Refusal::Absent => 1,
            Refusal::Present => 2,
            Refusal::Full => 3,
            Refusal::Empty => 4,
            Refusal::Corrupt => 5,
            Refusal::Short => 6,
            Refusal::Capacity => 7,
        }
    }
}
