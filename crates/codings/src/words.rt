// Reads the list's words. Reading is lenient: what was read is written again and held to the list, so that a digit that
// is none, or a word too many, shows there.
ghost use Rattle.std.specs.Prelude.{◌≤◌};

use component::{Answer, Operation, Reject};
use octets::{IntegerOctets, InvokeIdentifier, LinkId};

// The octet at a place, or a space beyond the end.
fn at(s: &[u8], i: usize) -> u8 {
    s.get(i).copied().unwrap_or(b' ')
}

fn behind(s: &[u8], n: usize) -> &[u8] {
    s.get(n..).unwrap_or(&[])
}

pub fn is_hex(c: u8) -> bool {
    matches!(c, b'0'..=b'9' | b'a'..=b'f')
}

// What a digit says. An octet that is none says something too.
fn hex_digit(c: u8) -> u8
    ensures { result ≤ 15 }
{
    if c <= b'9' { c % 16 } else { (c % 16 + 9) % 16 }
}

// The octet that the first two digits say.
fn octet(s: &[u8]) -> u8 {
    hex_digit(at(s, 0)) * 16 + hex_digit(at(s, 1))
}

// The octets of a component, up to 32, in the front of the buffer; and how many they are.
pub fn octets(s: &[u8], octets: &mut [u8; 32]) -> usize
    ensures { result ≤ 32 }
{
    for i in 0..32 {
        let digits = behind(s, 2 * i);
        if !is_hex(at(digits, 0)) {
            return i;
        }
        octets[i] = octet(digits);
    }
    32
}

// An invoke identifier of one or two octets, and the words behind it and a space.
fn identifier(s: &[u8]) -> (IntegerOctets, &[u8]) {
    if is_hex(at(s, 2)) {
        return (
            IntegerOctets::Two(octet(s), octet(behind(s, 2))),
            behind(s, 5),
        );
    }
    (IntegerOctets::One(octet(s)), behind(s, 3))
}

// A decimal number of up to five digits. A digit by which it would not fit is left out.
fn number(s: &[u8]) -> u16 {
    let mut n = 0u16;
    for c in s.iter().take(5) {
        if *c < b'0' {
            return n;
        }
        if n < 6553 {
            n = n * 10 + u16::from((*c - b'0') % 10);
        }
    }
    n
}

// A problem's or an error's number.
fn small_number(s: &[u8]) -> u8 {
    (number(s) % 256) as u8
}

// A number that may be negative, as sixteen bits of two's complement.
fn integer(s: &[u8]) -> i16 {
    if at(s, 0) == b'-' {
        return number(behind(s, 1)).wrapping_neg().cast_signed();
    }
    number(s).cast_signed()
}

fn reject(words: &[u8]) -> Option<Reject> {
    if let Some(rest) = words.strip_prefix(b"null ") {
        return Some(Reject::Null(small_number(rest)));
    }
    if let Some(rest) = words.strip_prefix(b"general ") {
        let (id, problem) = identifier(rest);
        return Some(Reject::General(id, small_number(problem)));
    }
    let (id, problem) = identifier(words.strip_prefix(b"invoke ")?);
    Some(Reject::Invoke(id, small_number(problem)))
}

// The answer that these words name.
pub fn answer(words: &[u8]) -> Option<Answer> {
    if let Some(rest) = words.strip_prefix(b"result ") {
        return Some(Answer::Result(identifier(rest).0));
    }
    if let Some(rest) = words.strip_prefix(b"linkid ") {
        let (id, link) = identifier(rest);
        return Some(Answer::LinkIdResult(id, LinkId(integer(link))));
    }
    if let Some(rest) = words.strip_prefix(b"error ") {
        let (id, error) = identifier(rest);
        return Some(Answer::Error(id, small_number(error)));
    }
    if let Some(rest) = words.strip_prefix(b"notassigned ") {
        return Some(Answer::LinkIdNotAssigned(identifier(rest).0));
    }
    Some(Answer::Rejected(reject(words.strip_prefix(b"reject ")?)?))
}

fn operation(words: &[u8]) -> Option<Operation> {
    if words.starts_with(b"EctExecute ") {
        return Some(Operation::EctExecute);
    }
    if words.starts_with(b"EctLinkIdRequest ") {
        return Some(Operation::EctLinkIdRequest);
    }
    let link = words.strip_prefix(b"ExplicitEctExecute ")?;
    Some(Operation::ExplicitEctExecute(LinkId(integer(link))))
}

// The words after a number, which is at most six octets long: behind the first space.
fn after_number(s: &[u8]) -> Option<&[u8]> {
    let place = s.iter().take(6).position(|octet| *octet == b' ');
    s.get(place.unwrap_or(6) + 1..)
}

// The invoke that these words name.
pub fn invoke(words: &[u8]) -> Option<(InvokeIdentifier, Operation)> {
    let asked = operation(after_number(words)?)?;
    Some((InvokeIdentifier(integer(words)), asked))
}
