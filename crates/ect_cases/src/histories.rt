// The short histories: the records that they are of, and all of them by their places.
use crate::show::Hex;
use short_histories::{event_record, history_at};
use std::io;

// One record more than there are, which is empty.
const RECORDS: u8 = 7;

// One place more than there are histories.
const PLACES: usize = 72;

pub fn records(rt: &impl Print) -> io::Result<()> {
    for number in 0..RECORDS {
        println!(rt; "event {number}: {}", Hex(event_record(number)))?;
    }
    Ok(())
}

fn print_history(rt: &impl Print, place: usize) -> io::Result<()> {
    print!(rt; "history {place}:")?;
    match history_at(place) {
        Ok(history) => {
            for number in history.numbers.iter().take(history.length) {
                print!(rt; " {number}")?;
            }
        }
        Err(refused) => print!(rt; " {}", u8::from(refused))?,
    }
    println!(rt; "")
}

pub fn all(rt: &impl Print) -> io::Result<()> {
    for place in 0..PLACES {
        print_history(rt, place)?;
    }
    print_history(rt, usize::MAX)
}
