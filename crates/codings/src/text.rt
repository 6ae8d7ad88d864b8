// Octets in hex, and the component's values in the list's words.
use component::{Answer, Operation, Reading, Reject};
use octets::IntegerOctets;
use std::fmt::{self, Write};

// `ect_cases` has its own, with the reason.
#[derive(Clone, Copy)]
pub struct Hex<'a>(pub &'a [u8]);

impl fmt::Display for Hex<'_> {
    fn fmt<W: fmt::Write>(&self, f: &mut fmt::Formatter<W>) -> fmt::Result {
        for octet in self.0 {
            write!(f, "{octet:02x}")?;
        }
        Ok(())
    }
}

// A value of another crate, which is shown here.
#[derive(Clone, Copy)]
pub struct Shown<T>(pub T);

impl fmt::Display for Shown<IntegerOctets> {
    fn fmt<W: fmt::Write>(&self, f: &mut fmt::Formatter<W>) -> fmt::Result {
        match self.0 {
            IntegerOctets::One(a) => write!(f, "{a:02x}"),
            IntegerOctets::Two(a, b) => write!(f, "{a:02x}{b:02x}"),
        }
    }
}

impl fmt::Display for Shown<Operation> {
    fn fmt<W: fmt::Write>(&self, f: &mut fmt::Formatter<W>) -> fmt::Result {
        match self.0 {
            Operation::EctExecute => write!(f, "EctExecute"),
            Operation::ExplicitEctExecute(link) => write!(f, "ExplicitEctExecute {}", link.0),
            Operation::EctLinkIdRequest => write!(f, "EctLinkIdRequest"),
        }
    }
}

impl fmt::Display for Shown<Reject> {
    fn fmt<W: fmt::Write>(&self, f: &mut fmt::Formatter<W>) -> fmt::Result {
        match self.0 {
            Reject::Null(problem) => write!(f, "reject null {problem}"),
            Reject::General(id, problem) => write!(f, "reject general {} {problem}", Shown(id)),
            Reject::Invoke(id, problem) => write!(f, "reject invoke {} {problem}", Shown(id)),
        }
    }
}

impl fmt::Display for Shown<Reading> {
    fn fmt<W: fmt::Write>(&self, f: &mut fmt::Formatter<W>) -> fmt::Result {
        match self.0 {
            Reading::Ignored => write!(f, "ignored"),
            Reading::Rejected(reject) => write!(f, "{}", Shown(reject)),
            Reading::Invoked(id, asked) => write!(f, "invoke {} {}", Shown(id), Shown(asked)),
        }
    }
}

impl fmt::Display for Shown<Answer> {
    fn fmt<W: fmt::Write>(&self, f: &mut fmt::Formatter<W>) -> fmt::Result {
        match self.0 {
            Answer::Rejected(reject) => write!(f, "{}", Shown(reject)),
            Answer::Error(id, error) => write!(f, "error {} {error}", Shown(id)),
            Answer::LinkIdNotAssigned(id) => write!(f, "notassigned {}", Shown(id)),
            Answer::Result(id) => write!(f, "result {}", Shown(id)),
            Answer::LinkIdResult(id, link) => write!(f, "linkid {} {}", Shown(id), link.0),
        }
    }
}

// What a text has still to be, while it is written.
#[derive(Drop)]
struct Held<'a> {
    rest: Option<&'a [u8]>,
}

impl fmt::Write for Held<'_> {
    fn write_str(&mut self, s: &str) -> fmt::Result {
        self.rest = self.rest.and_then(|rest| rest.strip_prefix(s.as_bytes()));
        Ok(())
    }
}

// Whether a value is shown as these octets. Nothing is kept of its text.
pub fn is_shown_as(value: &impl fmt::Display, octets: &[u8]) -> bool {
    let mut held = Held { rest: Some(octets) };
    write!(held, "{value}").is_ok() && held.rest == Some(&[])
}
