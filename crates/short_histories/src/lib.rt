// Every short history of six events in which none is refused, by its place in a list.
#![tactic(auto)]

ghost use Rattle.std.specs.Prelude.{◌≡◌};
ghost use Rattle.short_histories.specs.Histories.{record_numbered, first_board, past_the_end_number};
ghost use Rattle.short_histories.specs.Histories.{history_at, listed_answer};
ghost use Rattle.short_histories.specs.Code.Finding.{found_in};
ghost use Rattle.short_histories.specs.Code.Walking.{after_accepted, long, beginning, found_of, in_front};

use board::{Board, fresh_for_old_log};
use ect::step;
use thiserror::Error;

// The most events of a short history.
pub const MOST_EVENTS: usize = 4;

// The events have the numbers below this.
const EVENTS: u8 = 6;

// A history: how many events it has, and their numbers; the octets behind are 0.
#[derive(Clone, Copy, Debug, PartialEq, Eq)]
pub struct History {
    pub length: usize,
    pub numbers: [u8; MOST_EVENTS],
}

// The refusal of a place at or past the end of the list. It brings the empty history.
#[derive(Clone, Copy, Debug, PartialEq, Eq, Error)]
#[error("the list of short histories has no such place")]
pub struct PastTheEnd {
    pub history: History,
}

// The number that the refusal is returned as.
impl From<PastTheEnd> for u8 {
    ghost from_gives = { λ refused number. number ≡ past_the_end_number refused };

    fn from(_refused: PastTheEnd) -> u8 {
        15
    }
}

// What a walk along some histories finds: the numbers of the one at the place, those behind them 0; or how many places
// are left where they end. A count of places, so that the walk keeps no list.
#[derive(Clone, Copy)]
enum Found {
    Numbers([u8; MOST_EVENTS]),
    Left(usize),
}

// The event record of a number: Open of two calls, Progress of each to Active, Release of each. No other number has
// one.
pub fn event_record(number: u8) -> &'static [u8]
    ensures { result.now ≡ record_numbered number }
{
    match number {
        0 =>
            b"\x01\x00\x01\x00\x00\x00\x01\x00\x00\x02\x32\x31\x00\x00\x00\x00\x00\x00\x00\x00\x00\x00\x00\x00\x00",
        1 =>
            b"\x01\x00\x02\x00\x00\x00\x02\x01\x00\x02\x32\x31\x00\x00\x00\x00\x00\x00\x00\x00\x00\x00\x00\x00\x00",
        2 => b"\x02\x00\x01\x0a",
        3 => b"\x02\x00\x02\x0a",
        4 => b"\x04\x00\x00\x00\x01",
        5 => b"\x04\x00\x00\x00\x02",
        _ => b"",
    }
}

#[tactic(auto, unfolding(crate::specs::Histories::first_board))]
fn first_board() -> Board
    ensures { result ≡ first_board }
{
    match fresh_for_old_log(1, 1) {
        Ok(board) => board,
        Err(bad) => bad.board,
    }
}

// The board after an event, where it is accepted.
fn after(board: &Board, number: u8) -> Option<Board>
    ensures { result ≡ after_accepted board.now number }
{
    // The least room with which any event is accepted. Nobody reads the replies.
    let mut reply = [0u8; 128];
    let stepped = step(*board, event_record(number), &mut reply);
    stepped.answer.is_ok().then_some(stepped.board)
}

// What is found where each history has one more number, which begins it.
fn in_front(number: u8, found: Found) -> Found
    ensures { result ≡ in_front number found }
{
    match found {
        Found::Numbers(numbers) => {
            let [a, b, c, _] = numbers;
            Found::Numbers([number, a, b, c])
        }
        Found::Left(left) => Found::Left(left),
    }
}

// The history at a place among those of so many events, from a board on.
#[cycle(find_and_find_beginning)]
fn find(board: &Board, length: usize, place: usize) -> Found
    ensures { result ≡ found_of (found_in place (long length board.now)) }
{
    if length == 0 {
        return match place {
            0 => Found::Numbers([0; MOST_EVENTS]),
            _ => Found::Left(place - 1),
        };
    }
    let mut left = place;
    for number in 0..EVENTS {
        match find_beginning(board, number, length - 1, left) {
            Found::Left(behind) => left = behind,
            found @ Found::Numbers(_) => return found,
        }
    }
    Found::Left(left)
}

// The same among those that this event begins, with so many events behind it.
#[cycle(find_and_find_beginning)]
fn find_beginning(board: &Board, number: u8, length: usize, place: usize) -> Found
    ensures { result ≡ found_of (found_in place (beginning length board.now number)) }
{
    match after(board, number) {
        Some(next) => in_front(number, find(&next, length, place)),
        None => Found::Left(place),
    }
}

// The history at a place, counted from 0, in the list of all: the shorter first, then in order of the numbers.
// Each call plays the events anew, so no list stands beside the rules.
pub fn history_at(place: usize) -> Result<History, PastTheEnd>
    ensures { listed_answer result ≡ history_at place }
{
    let board = first_board();
    let mut left = place;
    for length in 0..=MOST_EVENTS {
        match find(&board, length, left) {
            Found::Numbers(numbers) => return Ok(History { length, numbers }),
            Found::Left(behind) => left = behind,
        }
    }
    let numbers = [0; MOST_EVENTS];
    Err(PastTheEnd {
        history: History { length: 0, numbers },
    })
}
