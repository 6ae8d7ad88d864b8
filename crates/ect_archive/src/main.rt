// Packs a log for the archive or unpacks an archive, as its first word says, from standard input, or from a file named
// after that word.
#![tactic(auto)]

mod failure;
mod regrouping;

use failure::{Failure, USAGE};
use regrouping::{Way, regroup_file, regroup_input};
use std::alloc::AllocGlobal;
use std::env;
use std::process::ExitCode;
use std::rt::{Env, Files};

fn way_named(word: &str) -> Result<Way, Failure> {
    match word {
        "pack" => Ok(Way::Pack),
        "unpack" => Ok(Way::Unpack),
        _ => Err(Failure::Usage),
    }
}

// Does what the words, behind the program's name, ask for.
fn run(rt: &(impl Files + Input + Print), words: &[String]) -> Result<(), Failure> {
    match words {
        [_, word] if word.as_str() == "--help" => {
            rt.println(USAGE).map_err(|_| Failure::CannotWrite)
        }
        [_, word] => regroup_input(rt, way_named(word.as_str())?),
        [_, word, name] => regroup_file(rt, way_named(word.as_str())?, name.as_str()),
        _ => Err(Failure::Usage),
    }
}

// Words that are no text are none that ask for anything.
fn words(rt: &(impl Env + AllocGlobal)) -> Result<Vec<String>, Failure> {
    let words = env::args(rt).map_err(|_| Failure::Usage)?;
    words.collect(rt.alloc()).map_err(|_| Failure::Usage)
}

fn start(rt: &HostRuntime) -> Result<(), Failure> {
    let words = words(rt)?;
    run(rt, &words)
}

fn main(rt: HostRuntime) -> ExitCode {
    match start(&rt) {
        Ok(()) => ExitCode::SUCCESS,
        Err(failure) => {
            failure.say(&rt);
            ExitCode::from(failure.status())
        }
    }
}
