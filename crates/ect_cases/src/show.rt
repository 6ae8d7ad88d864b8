// Octets in hex, and what the component's functions return, in the words of the cases.
use component::{Answer, Operation, Reading};
use events::Refusal;
use octets::{Integer, InvokeIdentifier};
use std::fmt;

// The first n octets, which are those that were written.
pub fn front(octets: &[u8], n: usize) -> &[u8] {
    octets.get(..n).unwrap_or(octets)
}

// `codings` has `Hex` and `front` of its own. No contract says what a Display that is written by hand prints, and no
// function of a library is silent here: so they stay with the programs.
#[derive(Clone, Copy)]
pub struct Hex<'a>(pub &'a [u8]);

impl fmt::Display for Hex<'_> {
    fn fmt<W: fmt::Write>(&self, f: &mut fmt::Formatter<W>) -> fmt::Result {
        for octet in self.0 {
            write!(f, "{octet:02x}")?;
        }
        Ok(())
    }
}

// The number that a step's answer stands for, and how many octets were written.
#[derive(Clone, Copy)]
pub struct Returned(pub Result<usize, Refusal>);

impl fmt::Display for Returned {
    fn fmt<W: fmt::Write>(&self, f: &mut fmt::Formatter<W>) -> fmt::Result {
        match self.0 {
            Ok(n) => write!(f, "0, octets {n}"),
            Err(refusal) => write!(f, "{}", u8::from(refusal)),
        }
    }
}

// A step's answer, with the replies that were written to a buffer.
#[derive(Clone, Copy)]
pub struct Replied<'a>(pub Result<usize, Refusal>, pub &'a [u8]);

impl fmt::Display for Replied<'_> {
    fn fmt<W: fmt::Write>(&self, f: &mut fmt::Formatter<W>) -> fmt::Result {
        match self.0 {
            Ok(n) => write!(f, "accepted {}", Hex(front(self.1, n))),
            Err(refusal) => write!(f, "refused {}", u8::from(refusal)),
        }
    }
}

// An operation, its identifier, and its LinkId where it has one.
#[derive(Clone, Copy)]
pub struct Invoke(pub Operation, pub InvokeIdentifier);

impl fmt::Display for Invoke {
    fn fmt<W: fmt::Write>(&self, f: &mut fmt::Formatter<W>) -> fmt::Result {
        let identifier = self.1.0;
        match self.0 {
            Operation::EctExecute => write!(f, "EctExecute {identifier}"),
            Operation::ExplicitEctExecute(link) => {
                write!(f, "ExplicitEctExecute {identifier}, LinkId {}", link.0)
            }
            Operation::EctLinkIdRequest => write!(f, "EctLinkIdRequest {identifier}"),
        }
    }
}

// The invoke that a component is read as, or the octets of the Reject that answers.
#[derive(Clone, Copy)]
pub struct Read(pub Reading);

impl fmt::Display for Read {
    fn fmt<W: fmt::Write>(&self, f: &mut fmt::Formatter<W>) -> fmt::Result {
        match self.0 {
            Reading::Ignored => write!(f, "nothing"),
            Reading::Rejected(reject) => {
                let answer = component::encode(Answer::Rejected(reject));
                let octets = front(&answer.octets, usize::from(answer.count));
                write!(f, "Reject {}", Hex(octets))
            }
            Reading::Invoked(received, operation) => {
                let identifier = InvokeIdentifier::from(Integer::from(received));
                write!(f, "{}", Invoke(operation, identifier))
            }
        }
    }
}
