// Prints what the two openings make of option octets: the number returned, and the options of the board that comes
// back.
#![tactic(auto)]

use board::{BadOptions, Board, fresh, fresh_for_old_log};
use std::io;

// Each octet that an option may be, the first one beyond, and the last.
const SUBSCRIBED: [u8; 5] = [0, 1, 2, 3, 255];

const ALERTING: [u8; 6] = [0, 1, 2, 3, 4, 255];

fn print_made(rt: &impl Print, made: Result<Board, BadOptions>) -> io::Result<()> {
    let (number, board) = match made {
        Ok(board) => (0, board),
        Err(refused) => (u8::from(refused.fault), refused.board),
    };
    let subscribed = board.options.subscribed;
    let alerting = board.options.alerting;
    println!(rt; "{number}, options {subscribed} {alerting}")
}

fn main(rt: HostRuntime) -> io::Result<()> {
    for subscribed in SUBSCRIBED {
        for alerting in ALERTING {
            print!(&rt; "live {subscribed} {alerting}: ")?;
            print_made(&rt, fresh(subscribed, alerting))?;
        }
    }
    for subscribed in SUBSCRIBED {
        for alerting in ALERTING {
            print!(&rt; "old log {subscribed} {alerting}: ")?;
            print_made(&rt, fresh_for_old_log(subscribed, alerting))?;
        }
    }
    Ok(())
}
