// The inputs of a pack, in buffers that are known to have room.
ghost use Rattle.std.specs.Prelude.{IfSome};
ghost use Rattle.trace_input.specs.Parts.{PartBuffers};
ghost use Rattle.replay_cases.specs.Cases.{Told};

use crate::{Case, next_length};
use trace_input::sound::whole;

// One input of the pack: what it prints is written, and the line behind it. None where there is no input, where it is cut, or where nothing can
// be written.
fn case(input: &mut [u8], out: &mut [u8]) -> Option<Case>
    requires { PartBuffers input.old out.old }
    ensures { IfSome result (Told input.new out.new) }
{
    let read = next_length()?;
    if io::read_full(0, &mut input[..read]) < read {
        return None;
    }
    let at = whole(&input[..read], out);
    if io::write_all(1, &out[..at]) && io::write_all(1, b"--\n") {
        return Some(Case { read, at });
    }
    None
}

// All inputs. What a read gives is not known, so the turns are counted, up to a number that no run comes to.
pub fn run(input: &mut [u8], out: &mut [u8])
    requires { PartBuffers input.old out.old }
{
    for _ in 0..u64::MAX {
        if case(input, out).is_none() {
            break;
        }
    }
}
