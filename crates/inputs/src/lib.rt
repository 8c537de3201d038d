// The inputs of a program: the files that its arguments name, one after another, or standard input where there are no arguments.
#![tactic(auto)]

ghost use Rattle.std.specs.Prelude.{◌≤◌};
ghost use Rattle.inputs.specs.Running.{Runs};

use std::env::{Env, FillError};
use std::fs::File;
use std::os::fd::AsRawFd;

// No descriptor of a file.
const CLOSED: i32 = -1;

// The file of a name, if there is one that can be opened.
fn opened(rt: &HostRuntime, name: &[u8]) -> Option<File> {
    let Ok(path) = std::str::from_utf8(name) else {
        return None;
    };
    File::open(rt, path).ok()
}

// Runs on the input that an argument names, `-` being the descriptor `input`, which a later `-` finds closed. Answers how often it ran: not where
// there is no such file.
fn named<F: FnMut(i32)>(rt: &HostRuntime, name: &[u8], input: &mut i32, run: &mut F) -> usize
    requires { F.IsAlwaysCallable run.old }
    ensures called { F.IsAlwaysCallable run.new }
    ensures once { result ≤ 1 }
    ensures ran { Runs F.step run.old result run.new }
{
    if name == b"-".as_slice() {
        run(*input);
        *input = CLOSED;
        return 1;
    }
    if let Some(file) = opened(rt, name) {
        let source = file.as_raw_fd();
        run(source);
        return 1;
    }
    io::write_all(1, b"NO FILE\n");
    0
}

// Runs on each input, by its descriptor, and prints a line `--` behind those that an argument names; where there is no such file, `NO FILE`.
// Argument 0 is the program's own name. Answers how often it ran.
pub fn each<F: FnMut(i32)>(rt: &HostRuntime, run: &mut F) -> usize
    requires { F.IsAlwaysCallable run.old }
    ensures { Runs F.step run.old result run.new }
{
    // A buffer and a length: there is no heap.
    let mut name = io::buffer();
    let mut input = 0;
    let mut ran = 0;
    for number in 1..usize::MAX {
        let n = match rt.arg(number, &mut name) {
            Ok(n) => n,
            Err(FillError::TooLong) => 0,
            Err(FillError::NotPresent) if number == 1 => {
                run(0);
                return 1;
            }
            Err(FillError::NotPresent) => break,
        };
        ran += named(rt, &name[..n], &mut input, run);
        io::write_all(1, b"--\n");
    }
    ran
}
