// The log as it comes in.
ghost use Rattle.std.specs.Prelude.{◌≡◌, ◌-◌, ◌≤◌, length};

use std::io::{self, Read};

// How many octets are read or written at once.
pub const PIECE: usize = 65536;

// The octets of the log that are read and not yet played: they lie between two places of the buffer. Its size is fixed,
// so that a log of any length takes the same memory.
#[derive(Drop)]
pub struct Log {
    octets: [u8; PIECE],
    from: usize,
    to: usize,
    ghost held: { from ≤ to },
    ghost within: { to ≤ 65536 },
}

impl Log {
    pub fn new() -> Log {
        Log {
            octets: [0; PIECE],
            from: 0,
            to: 0,
        }
    }

    pub fn unplayed(&self) -> &[u8]
        ensures { length result.now ≡ self.now.to - self.now.from }
    {
        &self.octets[self.from..self.to]
    }

    pub fn played(&mut self, count: usize)
        requires { count ≤ self.old.to - self.old.from }
    {
        self.from += count;
    }

    // Moves what is not yet played to the front of the buffer, and reads once behind it. Returns whether there is more:
    // false where the log has ended.
    pub fn read_more(&mut self, rt: &impl Input) -> io::Result<bool> {
        self.octets.copy_within(self.from..self.to, 0);
        let held = self.to - self.from;
        self.from = 0;
        self.to = held;
        let more = rt.reader().read(&mut self.octets[held..])?;
        self.to += more;
        Ok(more != 0)
    }
}
