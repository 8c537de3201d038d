// Writing a line of `drive` into a buffer that is known to have room, from a place on.
ghost use Rattle.std.specs.Prelude.{◌+◌, ◌≤◌, length};
ghost use Rattle.trace.specs.Written.{Spells};
ghost use Rattle.drive_lines.specs.Lines.{text, LONGEST_TOLD};

use crate::Told;
use trace::Line;
use trace::sound::{number, put, spaced};

// Document 01's number for DONE.
const DONE: u64 = 0;

// A line, with its line feed.
pub fn write(out: &mut [u8], at: usize, told: Told) -> usize
    requires { at + LONGEST_TOLD ≤ length out.old }
    ensures { Spells out.old at (text told) LONGEST_TOLD out.new result }
{
    match told {
        Told::Done => {
            let end = number(out, at, DONE);
            put(out, end, b"\n")
        }
        Told::One(n) => {
            let first = number(out, at, DONE);
            let end = spaced(out, first, n);
            put(out, end, b"\n")
        }
        Told::Two(m, n) => {
            let first = number(out, at, DONE);
            let second = spaced(out, first, m);
            let end = spaced(out, second, n);
            put(out, end, b"\n")
        }
        Told::Stored(line) => {
            let first = number(out, at, DONE);
            let next = put(out, first, b" ");
            trace::sound::write(out, next, line)
        }
        Told::Refused(why) => {
            let end = number(out, at, u64::from(why));
            put(out, end, b"\n")
        }
        Told::Just(word) => trace::sound::write(out, at, Line::Plain(word)),
    }
}
