// One coding: what the list says, read, and written again as the component has it.
use crate::text::{Hex, Shown};
use crate::words;
use component::{Answer, Operation};
use invokes::write_invoke;
use octets::InvokeIdentifier;
use std::fmt;

// A component that is read, of so many octets, or an answer or an invoke that is written.
#[derive(Clone, Copy)]
pub enum Coding {
    Read([u8; 32], usize),
    Answered(Answer),
    Written(InvokeIdentifier, Operation),
}

// What a coding says is written, which nothing is.
#[derive(Clone, Copy)]
pub enum Unknown {
    Answer,
    Invoke,
}

impl Unknown {
    pub fn words(self) -> &'static str {
        match self {
            Unknown::Answer => "no such answer: ",
            Unknown::Invoke => "no such invoke: ",
        }
    }
}

impl Coding {
    // What the list's second field says. The octets count where they are read; those of what is written are held to
    // the list when it is shown.
    pub fn parse(octets: &[u8], what: &[u8]) -> Result<Coding, Unknown> {
        if let Some(named) = what.strip_prefix(b"answer ") {
            let answer = words::answer(named).ok_or(Unknown::Answer)?;
            return Ok(Coding::Answered(answer));
        }
        if let Some(named) = what.strip_prefix(b"written ") {
            let (identifier, asked) = words::invoke(named).ok_or(Unknown::Invoke)?;
            return Ok(Coding::Written(identifier, asked));
        }
        let mut read = [0u8; 32];
        let count = words::octets(octets, &mut read);
        Ok(Coding::Read(read, count))
    }
}

// The first n octets, which are those that were written; as in `ect_cases`.
fn front(octets: &[u8], n: usize) -> &[u8] {
    octets.get(..n).unwrap_or(octets)
}

impl fmt::Display for Coding {
    fn fmt<W: fmt::Write>(&self, f: &mut fmt::Formatter<W>) -> fmt::Result {
        match self {
            Coding::Read(octets, count) => {
                let octets = front(octets, *count);
                write!(f, "{} ; {}", Hex(octets), Shown(component::read(octets)))
            }
            Coding::Answered(answer) => {
                let component = component::encode(*answer);
                let octets = front(&component.octets, usize::from(component.count));
                write!(f, "{} ; answer {}", Hex(octets), Shown(*answer))
            }
            Coding::Written(identifier, asked) => {
                let mut buffer = [0u8; 32];
                let count = write_invoke(*asked, *identifier, &mut buffer).unwrap_or(0);
                let octets = front(&buffer, count);
                write!(
                    f,
                    "{} ; written {} {}",
                    Hex(octets),
                    identifier.0,
                    Shown(*asked)
                )
            }
        }
    }
}
