// Why nothing was packed or unpacked, and how that is said.
use log_archives::NotRegrouped;

pub const USAGE: &str = "usage: ect_archive pack|unpack [FILE]";

#[derive(Clone, Copy)]
pub enum Failure {
    // The words ask for nothing that there is.
    Usage,
    CannotRead,
    CannotWrite,
    Refused(NotRegrouped),
}

// The number of the record that is refused, 0 where none is.
fn refused_record(refused: NotRegrouped) -> usize {
    match refused {
        NotRegrouped::Bad(bad) => bad.number,
        NotRegrouped::UnknownKind(number) => number,
        _ => 0,
    }
}

impl Failure {
    // Where standard error cannot be written, nothing is said.
    pub fn say(self, rt: &impl Eprint) {
        let _ = match self {
            Failure::Usage => rt.eprintln(USAGE),
            Failure::CannotRead => rt.eprintln("ect_archive: cannot read"),
            Failure::CannotWrite => rt.eprintln("ect_archive: cannot write"),
            Failure::Refused(refused) => {
                let number = refused_record(refused);
                eprintln!(rt; "refused {number}")
            }
        };
    }

    // The exit status: the number that a refusal is returned as.
    pub fn status(self) -> u8 {
        match self {
            Failure::Usage => 2,
            Failure::CannotRead | Failure::CannotWrite => 1,
            Failure::Refused(refused) => u8::from(refused),
        }
    }
}
