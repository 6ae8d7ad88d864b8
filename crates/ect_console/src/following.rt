// Following a script that is read whole, with a screen that begins empty.
use crate::script::{Item, split_item};
use crate::show::{Lines, Name};
use attendant_console::{Screen, empty_screen, name, pin, play};
use board::{Board, fresh_for_old_log};
use events::Refusal;
use std::io;

#[derive(Clone, Copy)]
struct Console {
    board: Board,
    screen: Screen,
}

// Pins the leg, and returns the number that the answer stands for.
fn number_of_pin(console: &mut Console, leg: u32) -> u8 {
    match pin(&mut console.screen, &console.board, leg) {
        Ok(()) => 0,
        Err(refused) => u8::from(refused),
    }
}

// Plays the event, and returns what the component did.
fn play_event(console: &mut Console, event: &[u8]) -> Result<usize, Refusal> {
    let mut reply = [0u8; 128];
    let stepped = play(&mut console.screen, console.board, event, &mut reply);
    console.board = stepped.board;
    stepped.answer
}

fn number_of(answer: Result<usize, Refusal>) -> u8 {
    match answer {
        Ok(_) => 0,
        Err(refusal) => u8::from(refusal),
    }
}

// Writes the line of an item, and returns whether the reading goes on.
fn write_item(
    rt: &impl Print,
    console: &mut Console,
    number: usize,
    item: Item<'_>,
) -> io::Result<bool> {
    match item {
        Item::Pin(leg) => {
            let returned = number_of_pin(console, leg);
            println!(rt; "{number} pin {returned} {}", Lines(&console.screen))?;
            Ok(true)
        }
        Item::Name { line, digits } => {
            println!(rt; "{number} name {}", Name(name(line, digits)))?;
            Ok(true)
        }
        Item::Event(event) => {
            let answer = play_event(console, event);
            let returned = number_of(answer);
            println!(rt; "{number} event {returned} {}", Lines(&console.screen))?;
            Ok(answer != Err(Refusal::UnknownKind))
        }
        Item::Cut => {
            println!(rt; "{number} cut")?;
            Ok(false)
        }
    }
}

// An item takes at least one octet, so there are no more items than octets.
fn follow_items(rt: &impl Print, board: Board, items: &[u8]) -> io::Result<()> {
    let screen = empty_screen();
    let mut console = Console { board, screen };
    let mut rest = items;
    for number in 1..=items.len() {
        let Some(split) = split_item(rest) else {
            return Ok(());
        };
        if !write_item(rt, &mut console, number, split.item)? {
            return Ok(());
        }
        rest = split.rest;
    }
    Ok(())
}

pub fn follow(rt: &impl Print, script: &[u8]) -> io::Result<()> {
    let [subscribed, alerting, items @ ..] = script else {
        return rt.println("bad options");
    };
    match fresh_for_old_log(*subscribed, *alerting) {
        Ok(board) => follow_items(rt, board, items),
        Err(_) => rt.println("bad options"),
    }
}
