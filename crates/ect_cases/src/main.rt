// Runs cases and prints a line for each: every refusal of `step`, an Inform, transfers on boards for old logs, one with
// a subaddress passed on and one of a number with a type, on live boards one explicit only and one by American rules,
// README's sample, invokes that are written and read back, integers that are padded or not, forms of subaddresses, all
// the short histories, and screens that are lent, with names.
#![tactic(auto)]

use board::{Board, Direction, Options};
use ect::Stepped;
use records::{inform, leg_facility, open};
use show::Returned;
use std::io;

mod histories;
mod invoking;
mod padding;
mod records;
mod sample;
mod screen;
mod show;
mod subaddress;
mod transfer;

// Prints what a step returned, and hands its board on.
fn report(rt: &impl Print, words: &str, stepped: Stepped) -> io::Result<Board> {
    println!(rt; "{words}: {}", Returned(stepped.answer))?;
    Ok(stepped.board)
}

fn run(rt: &impl Print, board: Board, words: &str, event: &[u8]) -> io::Result<Board> {
    let mut reply = [0u8; 128];
    report(rt, words, ect::step(board, event, &mut reply))
}

// Events on a board, where `subaddress` has components: a closure for the line that differs would be no plainer.
fn run_each(rt: &impl Print, board: Board, cases: &[(&str, &[u8])]) -> io::Result<()> {
    for (words, event) in cases {
        run(rt, board, words, event)?;
    }
    Ok(())
}

// An outgoing Open of a reference and a leg.
fn outgoing(reference: u8, leg: u8) -> [u8; 25] {
    open(reference, leg, Direction::Outgoing, *b"21")
}

// A board with 64 legs.
fn full(fresh: Board) -> Board {
    let mut board = fresh;
    let mut reply = [0u8; 128];
    // The number is the leg, and the reference of its call.
    for leg in 1..=64 {
        board = ect::step(board, &outgoing(leg, leg), &mut reply).board;
    }
    board
}

// The refusals that stand before the record is looked at, and those of records.
fn before_the_board(rt: &impl Print, fresh: Board) -> io::Result<()> {
    let event = outgoing(1, 1);
    let mut small = [0u8; 127];
    report(
        rt,
        "buffer of 127 octets",
        ect::step(fresh, &event, &mut small),
    )?;
    let options = Options {
        subscribed: 3,
        alerting: 0,
    };
    let bad = Board { options, ..fresh };
    run(rt, bad, "board that is not sound", &event)?;
    run_each(
        rt,
        fresh,
        &[
            ("empty record", b""),
            ("record one octet short", b"\x02\x00\x01"),
            ("kind 10", b"\x0a"),
            ("Progress to state 7", b"\x02\x00\x01\x07"),
            ("reference 8000", b"\x02\x80\x00\x0a"),
        ],
    )
}

// The refusals that turn on the board, which has one leg or 64.
fn on_the_board(rt: &impl Print, fresh: Board) -> io::Result<()> {
    let one = run(rt, fresh, "Open", &outgoing(1, 1))?;
    run(rt, one, "Open of a leg on the board", &outgoing(2, 1))?;
    run(rt, one, "Open of a reference in use", &outgoing(1, 2))?;
    run(rt, full(fresh), "Open with 64 legs", &outgoing(80, 80))?;
    run_each(
        rt,
        one,
        &[
            ("Progress of no call", b"\x02\x00\x02\x0a"),
            ("Hold of no call", b"\x03\x00\x02\x01"),
            ("Release of no leg", b"\x04\x00\x00\x00\x02"),
            ("Answer of no leg", b"\x06\x00\x00\x00\x02"),
            ("Hold in state 3", b"\x03\x00\x01\x01"),
            ("Answer of a served call", b"\x06\x00\x00\x00\x01"),
            ("Leg facility of no leg", &leg_facility(2, 3)),
            ("Leg facility of a served call", &leg_facility(1, 3)),
            ("Inform of no call", &inform(2, 1)),
            ("Inform in state 3", &inform(1, 1)),
            ("Release", b"\x04\x00\x00\x00\x01"),
        ],
    )
}

// What a private exchange says of a call that is Active.
fn informing(rt: &impl Print, fresh: Board) -> io::Result<()> {
    let one = run(rt, fresh, "Open", &outgoing(1, 1))?;
    let active = run(rt, one, "Progress", b"\x02\x00\x01\x0a")?;
    run_each(
        rt,
        active,
        &[
            ("Inform, active", &inform(1, 1)),
            ("Inform, alerting", &inform(1, 0)),
            ("Inform with indication 02", &inform(1, 2)),
        ],
    )
}

fn main(rt: HostRuntime) -> io::Result<()> {
    let fresh = match board::fresh(2, 1) {
        Ok(fresh) => fresh,
        Err(refused) => return println!(&rt; "{refused}"),
    };
    before_the_board(&rt, fresh)?;
    on_the_board(&rt, fresh)?;
    informing(&rt, fresh)?;
    transfer::of_an_old_log(&rt)?;
    transfer::explicit_transfer(&rt, fresh)?;
    transfer::american_transfer(&rt)?;
    sample::sample(&rt)?;
    invoking::written_and_read(&rt)?;
    invoking::buffers(&rt)?;
    padding::padded_or_not(&rt)?;
    subaddress::forms(&rt)?;
    histories::records(&rt)?;
    histories::all(&rt)?;
    screen::lent_screens(&rt, fresh)?;
    screen::names(&rt)
}
