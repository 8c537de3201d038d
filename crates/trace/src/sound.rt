// Writing a line into a lent buffer, from a place on: a word, numbers in plain decimal, and a line feed. What stands before the place
// stays; the answer is the place after what was written.
ghost use Rattle.std.specs.Prelude.{◌+◌, ◌≤◌, length};
ghost use Rattle.trace.specs.Words.{letters};
ghost use Rattle.trace.specs.Lines.{decimal, text, spaced as gap, LETTERS, DIGITS, LONGEST};
ghost use Rattle.trace.specs.Written.{Writes, Spells};

use crate::{Line, Word};

// Some bytes as they are.
pub fn put(out: &mut [u8], at: usize, bytes: &[u8]) -> usize
    requires { at + length bytes.now ≤ length out.old }
    ensures { Writes out.old at bytes.now out.new result }
{
    let end = at + bytes.len();
    out[at..end].copy_from_slice(bytes);
    end
}

// A word.
fn spell(out: &mut [u8], at: usize, word: Word) -> usize
    requires { at + LETTERS ≤ length out.old }
    ensures { Spells out.old at (letters word) LETTERS out.new result }
{
    match word {
        Word::New => put(out, at, b"NEW"),
        Word::NewOut => put(out, at, b"NEW OUT"),
        Word::Old => put(out, at, b"OLD"),
        Word::Full => put(out, at, b"FULL"),
        Word::Hit => put(out, at, b"HIT"),
        Word::Miss => put(out, at, b"MISS"),
        Word::See => put(out, at, b"SEE"),
        Word::Gone => put(out, at, b"GONE"),
        Word::Least => put(out, at, b"LEAST"),
        Word::Nothing => put(out, at, b"NONE"),
        Word::Reset => put(out, at, b"RESET"),
        Word::Okay => put(out, at, b"OK"),
        Word::Out => put(out, at, b"OUT"),
        Word::Bad => put(out, at, b"BAD"),
        Word::Cut => put(out, at, b"CUT"),
        Word::Capacity => put(out, at, b"CAPACITY"),
        Word::End => put(out, at, b"END"),
    }
}

// A number in plain decimal.
pub fn number(out: &mut [u8], at: usize, n: u64) -> usize
    requires { at + DIGITS ≤ length out.old }
    ensures { Spells out.old at (decimal n) DIGITS out.new result }
{
    // An array and a length: there is no heap.
    let mut digits = [0u8; 20];
    let k = io::decimal(n, &mut digits);
    put(out, at, &digits[..k])
}

// A number behind a blank.
pub fn spaced(out: &mut [u8], at: usize, n: u64) -> usize
    requires { at + (1 + DIGITS) ≤ length out.old }
    ensures { Spells out.old at (gap n) (1 + DIGITS) out.new result }
{
    let next = put(out, at, b" ");
    number(out, next, n)
}

// A line, with its line feed.
pub fn write(out: &mut [u8], at: usize, line: Line) -> usize
    requires { at + LONGEST ≤ length out.old }
    ensures { Spells out.old at (text line) LONGEST out.new result }
{
    match line {
        Line::Plain(word) => {
            let end = spell(out, at, word);
            put(out, end, b"\n")
        }
        Line::One(word, n) => {
            let first = spell(out, at, word);
            let end = spaced(out, first, n);
            put(out, end, b"\n")
        }
        Line::Two(word, m, n) => {
            let first = spell(out, at, word);
            let second = spaced(out, first, m);
            let end = spaced(out, second, n);
            put(out, end, b"\n")
        }
    }
}
