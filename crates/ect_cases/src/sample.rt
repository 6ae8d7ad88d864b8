// A board made, an event played on it, and the board asked for its counts and for a call. README shows it, so each
// answer is matched here as a caller would.
use crate::records::padded;
use crate::show::{Hex, front};
use board::Counts;
use board::finding::lookup;
use ect::step;
use octets::CallReference;
use soundness::count;
use std::io;

pub fn sample(rt: &impl Print) -> io::Result<()> {
    // Both calls are named, and a party that still alerts may be transferred.
    let fresh = match board::fresh(2, 1) {
        Ok(fresh) => fresh,
        Err(refused) => return println!(rt; "{refused}"),
    };
    // Open: reference 5, leg 7, outgoing, shown, digits 21.
    let open: [u8; 25] = padded(b"\x01\x00\x05\x00\x00\x00\x07\x00\x00\x02\x32\x31");
    let mut reply = [0u8; 128];
    let stepped = step(fresh, &open, &mut reply);
    let board = stepped.board;
    match stepped.answer {
        Ok(n) => println!(rt; "accepted {}", Hex(front(&reply, n)))?,
        Err(refusal) => println!(rt; "refused {}", u8::from(refusal))?,
    }
    match count(board) {
        Ok(Counts { legs, pairs, links }) => {
            println!(rt; "legs {legs}, pairs {pairs}, LinkIds {links}")?;
        }
        Err(_) => println!(rt; "not sound")?,
    }
    match lookup(board, CallReference(5)) {
        Some(place) => println!(rt; "call 5 in row {place}"),
        None => println!(rt; "no call 5"),
    }
}
