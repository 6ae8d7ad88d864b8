// The screen, and a name, as the lines of the program have them.
use attendant_console::{Screen, ShownAs};
use std::fmt;

#[derive(Clone, Copy)]
pub struct Lines<'a>(pub &'a Screen);

fn word(shown_as: ShownAs) -> &'static str {
    match shown_as {
        ShownAs::WithUser => "user",
        ShownAs::Joined => "joined",
        ShownAs::JoinedAlerting => "alerting",
    }
}

impl fmt::Display for Lines<'_> {
    fn fmt<W: fmt::Write>(&self, f: &mut fmt::Formatter<W>) -> fmt::Result {
        let mut space = "";
        for (place, line) in self.0.lines.iter().enumerate() {
            if let Some(shown) = line {
                let number = place + 1;
                write!(f, "{space}{number}:{}:{}", shown.leg, word(shown.shown_as))?;
                space = " ";
            }
        }
        if space.is_empty() {
            write!(f, "-")?;
        }
        Ok(())
    }
}

// Octets in hex, `-` for none.
#[derive(Clone, Copy)]
pub struct Name<'a>(pub &'a [u8]);

impl fmt::Display for Name<'_> {
    fn fmt<W: fmt::Write>(&self, f: &mut fmt::Formatter<W>) -> fmt::Result {
        if self.0.is_empty() {
            return write!(f, "-");
        }
        for octet in self.0 {
            write!(f, "{octet:02x}")?;
        }
        Ok(())
    }
}
