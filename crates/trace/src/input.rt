// How an input begins and ends: its first bytes, its last line, and whether there is more to read.
ghost use Rattle.std.specs.Prelude.{◌≡◌, [], ◌∷◌, ◌<◌};
ghost use Rattle.trace.specs.Output.{little, header_of};
ghost use Rattle.trace.specs.Ends.{last_of, goes_on};

use crate::{Line, Word};

// How many bytes stand before the records.
pub const HEADER: usize = 2;

// How many bytes a record has.
pub const RECORD: usize = 17;

// How many bytes of the input are a full part: whole records, whose lines fit into the kit's large buffer with one line more.
pub const PART: usize = 21828;

// A byte as a number.
fn wide(x: u8) -> usize
    ensures { (result ≡ x) × (result < 256) }
{
    x as usize
}

// A number from two bytes, low byte first, as the capacity has it.
pub fn two_bytes(low: u8, high: u8) -> usize
    ensures { result ≡ little (low ∷ high ∷ []) }
{
    wide(low) + 256 * wide(high)
}

// The first bytes of an input, or all of them: the capacity that the records begin with, or a word that is printed as the only line. Nothing
// about them is decided anywhere else.
pub fn header(first: &[u8]) -> Result<usize, Word>
    ensures { result ≡ header_of first.now }
{
    if first.len() < HEADER {
        return Err(Word::Cut);
    }
    let capacity = two_bytes(first[0], first[1]);
    if capacity > 256 {
        return Err(Word::Capacity);
    }
    Ok(capacity)
}

// The line at the end of the input: inside a record, or at a record's end, where it counts the bound keys.
pub fn last_line(left: usize, count: u64) -> Line
    ensures { result ≡ last_of left count }
{
    if left > 0 {
        return Line::Plain(Word::Cut);
    }
    Line::One(Word::End, count)
}

// A part that is not full is the last. Nothing more is read where nothing can be written.
pub fn goes_on(written: bool, n: usize) -> bool
    ensures { result ≡ goes_on written n }
{
    written && n == PART
}
