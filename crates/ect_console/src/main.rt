// Follows a script with an attendant's screen: option octets, then pins, names and event records from standard input, a
// line for each to standard output.
#![tactic(auto)]

mod failure;
mod following;
mod script;
mod show;

ghost use Rattle.std.specs.Prelude.{◌≤◌, length, IfOk};

use failure::{Failure, USAGE};
use following::follow;
use std::alloc::AllocGlobal;
use std::env;
use std::io::Read;
use std::process::ExitCode;
use std::rt::Env;

// The most octets of a script.
const MOST: usize = 65536;

// One octet more is read, to see that there are more than may be.
const READ: usize = MOST + 1;

// Reads until the input ends or the buffer is full, and says how many octets that are.
fn read_all(rt: &impl Input, buffer: &mut [u8]) -> Result<usize, Failure>
    ensures { IfOk result (λ n. n ≤ length buffer.new) }
{
    let mut count = 0;
    for _ in 0..u64::MAX {
        match rt.reader().read(&mut buffer[count..]) {
            Ok(0) => break,
            Ok(more) => count += more,
            Err(_) => return Err(Failure::CannotRead),
        }
    }
    Ok(count)
}

fn follow_input(rt: &(impl Input + Print)) -> Result<(), Failure> {
    let mut octets = [0u8; READ];
    let count = read_all(rt, &mut octets)?;
    if MOST < count {
        return Err(Failure::TooLarge);
    }
    follow(rt, &octets[..count]).map_err(|_| Failure::CannotWrite)
}

// Does what the words, behind the program's name, ask for.
fn run(rt: &(impl Input + Print), words: &[String]) -> Result<(), Failure> {
    match words {
        [_] => follow_input(rt),
        [_, word] if word.as_str() == "--help" => {
            rt.println(USAGE).map_err(|_| Failure::CannotWrite)
        }
        _ => Err(Failure::Usage),
    }
}

// Words that are no text are none that ask for anything.
fn words(rt: &(impl Env + AllocGlobal)) -> Result<Vec<String>, Failure> {
    let words = env::args(rt).map_err(|_| Failure::Usage)?;
    words.collect(rt.alloc()).map_err(|_| Failure::Usage)
}

fn start(rt: &HostRuntime) -> Result<(), Failure> {
    let words = words(rt)?;
    run(rt, &words)
}

fn main(rt: HostRuntime) -> ExitCode {
    match start(&rt) {
        Ok(()) => ExitCode::SUCCESS,
        Err(failure) => {
            failure.say(&rt);
            ExitCode::from(failure.status())
        }
    }
}
