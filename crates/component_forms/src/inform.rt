// Components as a private exchange sends them: what they say as EctInform invokes.
use private_transfers::{EctInform, Indication, RedirectionNumber, read_inform};
use std::{fmt, io};

// What a component says, where it is such an invoke.
#[derive(Clone, Copy)]
struct Said<'a>(Option<EctInform<'a>>);

impl fmt::Display for Said<'_> {
    fn fmt<W: fmt::Write>(&self, f: &mut fmt::Formatter<W>) -> fmt::Result {
        let Some(inform) = self.0 else {
            return f.write_str("no such invoke");
        };
        f.write_str(match inform.indication {
            Indication::Alerting => "alerting",
            Indication::Active => "active",
        })?;
        match inform.number {
            RedirectionNumber::NotSent => Ok(()),
            RedirectionNumber::Restricted => f.write_str(", restricted"),
            RedirectionNumber::Given(digits) => write!(f, ", {} digits", digits.len()),
        }
    }
}

fn case(rt: &impl Print, words: &str, component: &[u8]) -> io::Result<()> {
    println!(rt; "{words}: {}", Said(read_inform(component)))
}

// As in `ect_cases`, with the reason.
fn cases(rt: &impl Print, cases: &[(&str, &[u8])]) -> io::Result<()> {
    for (words, component) in cases {
        case(rt, words, component)?;
    }
    Ok(())
}

// Every form, and the longest number.
fn right(rt: &impl Print) -> io::Result<()> {
    let forms: [(&str, &[u8]); 5] = [
        (
            "active, 21",
            b"\xa1\x16\x02\x01\x05\x06\x06\x04\x00\x82\x71\x01\x05\x30\x09\x0a\x01\x01\xa0\x04\x80\x0221",
        ),
        (
            "active, restricted",
            b"\xa1\x12\x02\x01\x05\x06\x06\x04\x00\x82\x71\x01\x05\x30\x05\x0a\x01\x01\x81\x00",
        ),
        (
            "active, no number",
            b"\xa1\x10\x02\x01\x05\x06\x06\x04\x00\x82\x71\x01\x05\x30\x03\x0a\x01\x01",
        ),
        (
            "alerting, 21",
            b"\xa1\x16\x02\x01\x05\x06\x06\x04\x00\x82\x71\x01\x05\x30\x09\x0a\x01\x00\xa0\x04\x80\x0221",
        ),
        (
            "fifteen digits",
            b"\xa1\x23\x02\x01\x05\x06\x06\x04\x00\x82\x71\x01\x05\x30\x16\x0a\x01\x01\xa0\x11\x80\x0f123456789012345",
        ),
    ];
    cases(rt, &forms)
}

// Numbers that have neither form.
fn wrong_numbers(rt: &impl Print) -> io::Result<()> {
    let forms: [(&str, &[u8]); 7] = [
        (
            "sixteen digits",
            b"\xa1\x24\x02\x01\x05\x06\x06\x04\x00\x82\x71\x01\x05\x30\x17\x0a\x01\x01\xa0\x12\x80\x101234567890123456",
        ),
        (
            "no digits",
            b"\xa1\x14\x02\x01\x05\x06\x06\x04\x00\x82\x71\x01\x05\x30\x07\x0a\x01\x01\xa0\x02\x80\x00",
        ),
        (
            "a letter",
            b"\xa1\x16\x02\x01\x05\x06\x06\x04\x00\x82\x71\x01\x05\x30\x09\x0a\x01\x01\xa0\x04\x80\x022A",
        ),
        (
            "81 with an octet",
            b"\xa1\x13\x02\x01\x05\x06\x06\x04\x00\x82\x71\x01\x05\x30\x06\x0a\x01\x01\x81\x01\x00",
        ),
        (
            "digits without their A0",
            b"\xa1\x14\x02\x01\x05\x06\x06\x04\x00\x82\x71\x01\x05\x30\x07\x0a\x01\x01\x80\x0221",
        ),
        (
            "an element behind the number",
            b"\xa1\x14\x02\x01\x05\x06\x06\x04\x00\x82\x71\x01\x05\x30\x07\x0a\x01\x01\x81\x00\x05\x00",
        ),
        (
            "alerting, a letter",
            b"\xa1\x16\x02\x01\x05\x06\x06\x04\x00\x82\x71\x01\x05\x30\x09\x0a\x01\x00\xa0\x04\x80\x022A",
        ),
    ];
    cases(rt, &forms)
}

// What is no such invoke whatever its number.
fn no_inform(rt: &impl Print) -> io::Result<()> {
    let forms: [(&str, &[u8]); 5] = [
        (
            "an element behind the argument",
            b"\xa1\x12\x02\x01\x05\x06\x06\x04\x00\x82\x71\x01\x05\x30\x03\x0a\x01\x01\x05\x00",
        ),
        (
            "indication 02",
            b"\xa1\x10\x02\x01\x05\x06\x06\x04\x00\x82\x71\x01\x05\x30\x03\x0a\x01\x02",
        ),
        (
            "padded identifier",
            b"\xa1\x11\x02\x02\x00\x05\x06\x06\x04\x00\x82\x71\x01\x05\x30\x03\x0a\x01\x01",
        ),
        (
            "object identifier ending 04",
            b"\xa1\x10\x02\x01\x05\x06\x06\x04\x00\x82\x71\x01\x04\x30\x03\x0a\x01\x01",
        ),
        ("no octets", b""),
    ];
    cases(rt, &forms)
}

pub fn forms(rt: &impl Print) -> io::Result<()> {
    right(rt)?;
    wrong_numbers(rt)?;
    no_inform(rt)
}
