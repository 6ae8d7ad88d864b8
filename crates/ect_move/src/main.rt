// Moves a stored log to the form that its first word names, from standard input, or from a file named after that word.
#![tactic(auto)]

mod failure;
mod moving;

use failure::{Failure, USAGE};
use log_forms::Form;
use moving::{move_file, move_input};
use std::alloc::AllocGlobal;
use std::env;
use std::process::ExitCode;
use std::rt::{Env, Files};

// The form that comes out.
fn form_named(word: &str) -> Result<Form, Failure> {
    match word {
        "new" => Ok(Form::New),
        "old" => Ok(Form::Old),
        _ => Err(Failure::Usage),
    }
}

// Does what the words, behind the program's name, ask for.
fn run(rt: &(impl Files + Input + Print), words: &[String]) -> Result<(), Failure> {
    match words {
        [_, word] if word.as_str() == "--help" => {
            rt.println(USAGE).map_err(|_| Failure::CannotWrite)
        }
        [_, word] => move_input(rt, form_named(word.as_str())?),
        [_, word, name] => move_file(rt, form_named(word.as_str())?, name.as_str()),
        _ => Err(Failure::Usage),
    }
}

// Words that are no text are none that ask for a move.
fn words(rt: &(impl Env + AllocGlobal)) -> Result<Vec<String>, Failure> {
    let words = env::args(rt).map_err(|_| Failure::Usage)?;
    words.collect(rt.alloc()).map_err(|_| Failure::Usage)
}

fn start(rt: &HostRuntime) -> Result<(), Failure> {
    let words = words(rt)?;
    run(rt, &words)
}

fn main(rt: HostRuntime) -> ExitCode {
    match start(&rt) {
        Ok(()) => ExitCode::SUCCESS,
        Err(failure) => {
            failure.say(&rt);
            ExitCode::from(failure.status())
        }
    }
}
