// Holds the component to the published codings of a list on standard input: each is read, or written, and printed as
// the component has it. The list says how its lines are written. It is octets, which need be no text.
#![tactic(auto)]

ghost use Rattle.std.specs.Prelude.{◌≤◌, length, IfOk};

use coding::Coding;
use std::io::{self, Read};
use text::is_shown_as;

mod coding;
mod text;
mod words;

// What a list has room in; one that fills it is refused. Its size is fixed, so that any input takes the same memory.
const LONGEST_LIST: usize = 65536;

// What is wrong with a line, and the line.
fn complain(rt: &impl Print, words: &str, line: &[u8]) -> io::Result<()> {
    rt.print(words)?;
    rt.write_all(line)?;
    rt.write_all(b"\n")
}

// The first two fields of a line as they stand there, and each by itself: octets, and what they are. The third, where
// the coding comes from, is passed over.
#[derive(Clone, Copy)]
struct Parts<'a> {
    listed: &'a [u8],
    octets: &'a [u8],
    what: &'a [u8],
}

// A semicolon parts the fields. What stands behind the first one is a space, and is passed over; one stands before the
// second.
fn fields(line: &[u8]) -> Option<Parts<'_>> {
    let (octets, rest) = line.split_at_checked(place_of(b';', line)?)?;
    let behind = rest.get(2..)?;
    let (what, _) = behind.split_at_checked(place_of(b';', behind)?)?;
    let [listed @ .., b' '] = line.get(..octets.len() + 2 + what.len())? else {
        return None;
    };
    Some(Parts {
        listed,
        octets,
        what,
    })
}

fn place_of(octet: u8, text: &[u8]) -> Option<usize> {
    text.iter().position(|other| *other == octet)
}

// Prints a coding as the component has it, after the list's where they differ.
fn compare(rt: &impl Print, coding: Coding, listed: &[u8]) -> io::Result<()> {
    if !is_shown_as(&coding, listed) {
        complain(rt, "the list has ", listed)?;
    }
    println!(rt; "{coding}")
}

// Prints what becomes of a line that is no comment.
fn line(rt: &impl Print, line: &[u8]) -> io::Result<()> {
    let Some(fields) = fields(line) else {
        return complain(rt, "not three fields: ", line);
    };
    match Coding::parse(fields.octets, fields.what) {
        Ok(coding) => compare(rt, coding, fields.listed),
        Err(unknown) => complain(rt, unknown.words(), fields.listed),
    }
}

// Reads the list until it ends or the buffer is full, and returns how many octets it has.
fn read_list(rt: &impl Input, list: &mut [u8]) -> io::Result<usize>
    ensures { IfOk result (λ n. n ≤ length list.new) }
{
    let mut reader = rt.reader();
    let mut held = 0;
    while held < list.len() {
        let got = reader.read(&mut list[held..])?;
        if got == 0 {
            break;
        }
        held += got;
    }
    Ok(held)
}

fn main(rt: HostRuntime) -> io::Result<()> {
    let mut list = [0u8; LONGEST_LIST];
    let n = read_list(&rt, &mut list)?;
    if n == list.len() {
        return rt.write_all(b"the list does not fit\n");
    }
    let mut codings = 0u64;
    for octets in list[..n].split(|octet| *octet == b'\n') {
        if !octets.is_empty() && !octets.starts_with(b"#") {
            line(&rt, octets)?;
            // A list has no more lines than octets, so that nothing is cut off.
            codings = codings.saturating_add(1);
        }
    }
    println!(rt; "{codings} codings")
}
