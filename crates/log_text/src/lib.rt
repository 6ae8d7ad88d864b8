// The text of a log: a line for each record, the last line, and the two lines that are always the same.
// Each call writes its line at the front of the buffer lent and returns how many octets that is, as the buffer is the
// caller's. Where the line does not fit it returns `None` and leaves the buffer untouched.
//
// A `write!` may fail by its contract whatever room there is, and these lines are written wherever they fit: so the
// digits are put into the buffer, which cannot fail.
#![tactic(auto)]

ghost use Rattle.std.specs.Prelude.{◌≡◌, [], ◌∷◌, ◌++◌, ◌≤◌, ◌<◌, leb, length};
ghost use Rattle.log_text.specs.Lines.{decimal, hex_digit, hex_octet, octets_text};
ghost use Rattle.log_text.specs.Lines.{record_line, end_line, first_line, bad_options_line};
ghost use Rattle.filling.specs.Code.Putting.{PutGivenRoom};
ghost use Rattle.log_text.specs.Writing.{Fitted};

use filling::Filling;

const SPACE: u8 = b' ';

const LINE_FEED: u8 = b'\n';

const DASH: u8 = b'-';

// How many digits a number has in decimal.
#[tactic(auto, using(crate::proofs::TextLaws::digits_by_log))]
fn decimal_length(n: u64) -> usize
    ensures { (result ≡ length (decimal n)) × (result ≤ 20) }
{
    n.checked_ilog10().unwrap_or(0) as usize + 1
}

// The private writers promise where there is room: the length of the line that they fill was tested once.
#[tactic(auto, using(crate::proofs::TextLaws::decimal_written))]
fn put_decimal(n: u64, line: &mut Filling)
    ensures { PutGivenRoom (decimal n) line.old line.new }
{
    line.put(itoa::Buffer::new().format(n).as_bytes());
}

// A number in decimal, and the octet behind it.
fn put_number(n: u64, behind: u8, line: &mut Filling)
    ensures { PutGivenRoom (decimal n ++ (behind ∷ [])) line.old line.new }
{
    put_decimal(n, line);
    line.put(&[behind]);
}

// The `hex` crate's writer returns a Result and wants a slice of its own length, no plainer than two digits.
fn hex_digit(d: u8) -> u8
    requires { d < 16 }
    ensures { result ≡ hex_digit d }
{
    if d < 10 { b'0' + d } else { b'a' - 10 + d }
}

fn put_octet(octet: u8, line: &mut Filling)
    ensures { PutGivenRoom (hex_octet octet) line.old line.new }
{
    line.put(&[hex_digit(octet / 16), hex_digit(octet % 16)]);
}

#[tactic(auto, using(crate::proofs::TextLaws::text_none, crate::proofs::TextLaws::text_all))]
fn put_octets(octets: &[u8], line: &mut Filling)
    ensures { PutGivenRoom (octets_text octets.now) line.old line.new }
{
    if octets.is_empty() {
        line.put(&[DASH]);
        return;
    }
    for octet in octets {
        put_octet(*octet, line);
    }
}

#[tactic(auto, using(crate::proofs::TextLaws::none_fits, crate::proofs::TextLaws::some_fit))]
fn octets_fit(octets: &[u8], room: usize) -> bool
    ensures { result ≡ leb (length (octets_text octets.now)) room }
{
    if octets.is_empty() {
        1 <= room
    } else {
        octets.len() <= room / 2
    }
}

// Whether a record's line has room. Its length is not computed where the octets are more than the room holds.
fn record_fits(number: u64, kind: u8, returned: u8, octets: &[u8], room: usize) -> bool
    ensures { result ≡ leb (length (record_line number kind returned octets.now)) room }
{
    let fields = decimal_length(number)
        + decimal_length(u64::from(kind))
        + decimal_length(u64::from(returned))
        + 4;
    room.checked_sub(fields)
        .is_some_and(|left| octets_fit(octets, left))
}

// The line of a record: its number, its kind, what was returned, and the octets written. Kind and what was returned are
// numbers, as the format has them: a text knows no events.
#[tactic(auto, using(crate::proofs::TextLaws::line_length, crate::proofs::TextLaws::spaced_length))]
pub fn record_line(
    number: u64,
    kind: u8,
    returned: u8,
    octets: &[u8],
    out: &mut [u8],
) -> Option<usize>
    ensures { Fitted (record_line number kind returned octets.now)
        out.old out.new result }
{
    if !record_fits(number, kind, returned, octets, out.len()) {
        return None;
    }
    let mut line = Filling::new(out, 0);
    put_number(number, SPACE, &mut line);
    put_number(u64::from(kind), SPACE, &mut line);
    put_number(u64::from(returned), SPACE, &mut line);
    put_octets(octets, &mut line);
    line.put(&[LINE_FEED]);
    Some(line.end())
}

// The last line: how many legs, pairs and live LinkIds the board has. Three numbers, as a text knows no board.
pub fn end_line(legs: u64, pairs: u64, links: u64, out: &mut [u8]) -> Option<usize>
    ensures { Fitted (end_line legs pairs links) out.old out.new result }
{
    let length = decimal_length(legs) + decimal_length(pairs) + decimal_length(links) + 7;
    if out.len() < length {
        return None;
    }
    let mut line = Filling::new(out, 0);
    line.put(b"end ");
    put_number(legs, SPACE, &mut line);
    put_number(pairs, SPACE, &mut line);
    put_number(links, LINE_FEED, &mut line);
    Some(line.end())
}

fn place(text: &[u8], out: &mut [u8]) -> Option<usize>
    ensures { Fitted text.now out.old out.new result }
{
    if out.len() < text.len() {
        return None;
    }
    let mut line = Filling::new(out, 0);
    line.put(text);
    Some(line.end())
}

// The first line; it and the one below are two lines of the format, each one call of `place`.
pub fn first_line(out: &mut [u8]) -> Option<usize>
    ensures { Fitted first_line out.old out.new result }
{
    place(b"ect 1\n", out)
}

// The only line, where the options are bad or missing.
pub fn bad_options_line(out: &mut [u8]) -> Option<usize>
    ensures { Fitted bad_options_line out.old out.new result }
{
    place(b"bad options\n", out)
}
