// A script: pins, names and event records, one behind the other.
use events::records::record_length;

// The first octet of a pin and of a name: no kinds of an event.
const PIN: u8 = 0;

const NAME: u8 = 0xff;

#[derive(Clone, Copy)]
pub enum Item<'a> {
    Pin(u32),
    Name { line: &'a [u8], digits: &'a [u8] },
    // The record as far as it goes, or the octet of a kind that is not listed: the component refuses both.
    Event(&'a [u8]),
    // A pin or a name that the end of the script cuts.
    Cut,
}

// An item, and what lies behind it.
#[derive(Clone, Copy)]
pub struct Split<'a> {
    pub item: Item<'a>,
    pub rest: &'a [u8],
}

// Nothing lies behind an item that is cut.
const CUT: Split<'static> = Split {
    item: Item::Cut,
    rest: &[],
};

fn split_pin(body: &[u8]) -> Split<'_> {
    match body {
        [a, b, c, d, rest @ ..] => Split {
            item: Item::Pin(u32::from_be_bytes([*a, *b, *c, *d])),
            rest,
        },
        _ => CUT,
    }
}

// A count of octets, so many octets, and what lies behind them.
fn split_counted(octets: &[u8]) -> Option<(&[u8], &[u8])> {
    let (count, rest) = octets.split_first()?;
    rest.split_at_checked(usize::from(*count))
}

fn split_name(body: &[u8]) -> Split<'_> {
    let Some((line, behind)) = split_counted(body) else {
        return CUT;
    };
    let Some((digits, rest)) = split_counted(behind) else {
        return CUT;
    };
    Split {
        item: Item::Name { line, digits },
        rest,
    }
}

fn split_event(kind: u8, script: &[u8]) -> Split<'_> {
    match script.split_at_checked(record_length(kind)) {
        Some((event, rest)) => Split {
            item: Item::Event(event),
            rest,
        },
        None => Split {
            item: Item::Event(script),
            rest: &[],
        },
    }
}

// The first item; `None` where the script has ended.
pub fn split_item(script: &[u8]) -> Option<Split<'_>> {
    match script {
        [] => None,
        [PIN, body @ ..] => Some(split_pin(body)),
        [NAME, body @ ..] => Some(split_name(body)),
        [kind, ..] => Some(split_event(*kind, script)),
    }
}
