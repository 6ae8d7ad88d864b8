// How `step` is called. As stored logs have it, on boards for old logs: EctExecute transfers a held call and an
// alerting one to each other, the ward's subaddress is passed on, and the ward answers; a number is told with its type.
// As an exchange has it, on live boards: both calls are named; by American rules the call is not held, and the ward is
// told when it answers.
use crate::records::{execute, execute_explicitly, leg_facility, open, request, typed_open};
use crate::show::Replied;
use board::{Board, Direction};
use std::io;

// One event: what was written is sent, and the next event gets the board that came back.
fn event(rt: &impl Print, board: Board, octets: &[u8]) -> io::Result<Board> {
    let mut reply = [0u8; 128];
    let stepped = ect::step(board, octets, &mut reply);
    println!(rt; "{}", Replied(stepped.answer, &reply))?;
    Ok(stepped.board)
}

fn each(rt: &impl Print, fresh: Board, events: &[&[u8]]) -> io::Result<()> {
    let mut board = fresh;
    for octets in events {
        board = event(rt, board, octets)?;
    }
    Ok(())
}

fn ward_transfer(rt: &impl Print, fresh: Board) -> io::Result<()> {
    // A call is answered and held, the ward alerts, and EctExecute joins the two; of the ward's two Leg facilities the
    // first is passed on and the second refused; the ward answers.
    let events: [&[u8]; 10] = [
        &open(1, 1, Direction::Incoming, *b"21"),
        b"\x02\x00\x01\x0a",
        b"\x03\x00\x01\x01",
        b"\x03\x00\x01\x02",
        &open(2, 2, Direction::Outgoing, *b"22"),
        b"\x02\x00\x02\x04",
        &execute(1),
        &leg_facility(2, 3),
        &leg_facility(2, 4),
        b"\x06\x00\x00\x00\x02",
    ];
    each(rt, fresh, &events)
}

fn international_transfer(rt: &impl Print, fresh: Board) -> io::Result<()> {
    // A type of number that there is not is refused; the ward is told a number with its type, the caller one of type 0.
    let events: [&[u8]; 8] = [
        &typed_open(1, 1, Direction::Incoming, 3, *b"21"),
        &typed_open(1, 1, Direction::Incoming, 1, *b"21"),
        b"\x02\x00\x01\x0a",
        b"\x03\x00\x01\x01",
        b"\x03\x00\x01\x02",
        &typed_open(2, 2, Direction::Outgoing, 0, *b"22"),
        b"\x02\x00\x02\x0a",
        &execute(1),
    ];
    each(rt, fresh, &events)
}

pub fn of_an_old_log(rt: &impl Print) -> io::Result<()> {
    let fresh = match board::fresh_for_old_log(1, 1) {
        Ok(fresh) => fresh,
        Err(refused) => return println!(rt; "{refused}"),
    };
    ward_transfer(rt, fresh)?;
    international_transfer(rt, fresh)
}

pub fn explicit_transfer(rt: &impl Print, fresh: Board) -> io::Result<()> {
    // EctExecute is rejected on a live board; the ward's LinkId, named on the held call, joins the two.
    let events: [&[u8]; 9] = [
        &open(1, 1, Direction::Incoming, *b"21"),
        b"\x02\x00\x01\x0a",
        b"\x03\x00\x01\x01",
        b"\x03\x00\x01\x02",
        &open(2, 2, Direction::Outgoing, *b"22"),
        b"\x02\x00\x02\x04",
        &execute(1),
        &request(2),
        &execute_explicitly(1, 0),
    ];
    each(rt, fresh, &events)
}

pub fn american_transfer(rt: &impl Print) -> io::Result<()> {
    let fresh = match board::fresh(2, 3) {
        Ok(fresh) => fresh,
        Err(refused) => return println!(rt; "{refused}"),
    };
    // EctExecute is rejected; the call's own LinkId is answered with error 7, and the ward's LinkId joins the two.
    let events: [&[u8]; 10] = [
        &open(1, 1, Direction::Incoming, *b"21"),
        b"\x02\x00\x01\x0a",
        &open(2, 2, Direction::Outgoing, *b"22"),
        b"\x02\x00\x02\x04",
        &request(1),
        &request(2),
        &execute(1),
        &execute_explicitly(1, 0),
        &execute_explicitly(1, 1),
        b"\x06\x00\x00\x00\x02",
    ];
    each(rt, fresh, &events)
}
