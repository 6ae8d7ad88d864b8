// Why a script is not followed, and how that is said.
pub const USAGE: &str = "usage: ect_console < SCRIPT";

#[derive(Clone, Copy)]
pub enum Failure {
    // There are words, and they ask for nothing that there is.
    Usage,
    TooLarge,
    CannotRead,
    CannotWrite,
}

impl Failure {
    // Where standard error cannot be written, nothing is said.
    pub fn say(self, rt: &impl Eprint) {
        let words = match self {
            Failure::Usage => USAGE,
            Failure::TooLarge => "ect_console: the script is larger than 65536 octets",
            Failure::CannotRead => "ect_console: cannot read",
            Failure::CannotWrite => "ect_console: cannot write",
        };
        let _ = rt.eprintln(words);
    }

    pub fn status(self) -> u8 {
        match self {
            Failure::Usage => 2,
            Failure::TooLarge | Failure::CannotRead | Failure::CannotWrite => 1,
        }
    }
}
