// Why no log was moved, and how that is said.
use crate::moving::PIECE;
use log_forms::NotMoved;

pub const USAGE: &str = "usage: ect_move new|old [FILE]";

#[derive(Clone, Copy)]
pub enum Failure {
    // The words ask for no move.
    Usage,
    CannotRead,
    CannotWrite,
    // Standard input has more octets than a piece.
    TooLarge,
    // Refused, with so many records before those that were judged.
    Refused(NotMoved, u64),
}

// The number of the first bad record, 0 where the option octets are bad or missing.
fn bad_record(refused: NotMoved, before: u64) -> u64 {
    match refused {
        NotMoved::Bad(bad) => before.saturating_add(bad.number as u64),
        _ => 0,
    }
}

impl Failure {
    // Where standard error cannot be written, nothing is said.
    pub fn say(self, rt: &impl Eprint) {
        let _ = match self {
            Failure::Usage => rt.eprintln(USAGE),
            Failure::CannotRead => rt.eprintln("ect_move: cannot read"),
            Failure::CannotWrite => rt.eprintln("ect_move: cannot write"),
            Failure::TooLarge => {
                eprintln!(rt; "ect_move: the log is larger than {PIECE} octets: name its file")
            }
            Failure::Refused(refused, before) => {
                let number = bad_record(refused, before);
                eprintln!(rt; "refused {number}")
            }
        };
    }

    // The exit status: the number that a refusal is returned as.
    pub fn status(self) -> u8 {
        match self {
            Failure::Usage => 2,
            Failure::CannotRead | Failure::CannotWrite | Failure::TooLarge => 1,
            Failure::Refused(refused, _) => u8::from(refused),
        }
    }
}
