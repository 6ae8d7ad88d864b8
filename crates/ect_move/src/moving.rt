// Moving a log from standard input, at once, and one from a file, by pieces.
ghost use Rattle.std.specs.Prelude.{◌≤◌, length, IfOk};

use crate::failure::Failure;
use events::logs::{WholeRecords, whole_records};
use log_forms::{Form, NotMoved, move_records, to_new_form, to_old_form};
use std::fs;
use std::io::Read;
use std::rt::Files;

// How many octets are moved at once.
pub const PIECE: usize = 65536;

// A moved record is at most twice as long.
const ROOM: usize = 131072;

// A whole log.
#[tactic(auto, using(crate::proofs::Bounds::within))]
fn move_log(form: Form, log: &[u8], target: &mut [u8]) -> Result<usize, NotMoved>
    ensures { IfOk result (λ n. n ≤ length target.new) }
{
    match form {
        Form::New => to_new_form(log, target),
        Form::Old => to_old_form(log, target),
    }
}

// A log, or records alone.
#[tactic(auto, using(crate::proofs::Bounds::within))]
fn move_part(form: Form, is_first: bool, part: &[u8], target: &mut [u8]) -> Result<usize, NotMoved>
    ensures { IfOk result (λ n. n ≤ length target.new) }
{
    if is_first {
        return move_log(form, part, target);
    }
    move_records(form, part, target)
}

// The whole records in front of a piece.
#[tactic(auto, using(crate::proofs::Bounds::whole_within))]
fn whole_in_front(piece: &[u8]) -> WholeRecords
    ensures { result.octets ≤ length piece.now }
{
    whole_records(piece)
}

// Reads until the input ends or the buffer is full, and says how many octets that are.
fn read_all(rt: &impl Input, buffer: &mut [u8]) -> Result<usize, Failure> {
    let mut count = 0;
    for _ in 0..u64::MAX {
        match rt.reader().read(&mut buffer[count..]) {
            Ok(0) => break,
            Ok(more) => count += more,
            Err(_) => return Err(Failure::CannotRead),
        }
    }
    Ok(count)
}

pub fn move_input(rt: &(impl Input + Print), form: Form) -> Result<(), Failure> {
    // One octet more, to see that a log is larger.
    let mut log = [0u8; PIECE + 1];
    let mut target = [0u8; ROOM];
    let count = read_all(rt, &mut log)?;
    if PIECE < count {
        return Err(Failure::TooLarge);
    }
    match move_log(form, &log[..count], &mut target) {
        Ok(n) => rt.write_all(&target[..n]).map_err(|_| Failure::CannotWrite),
        Err(refused) => Err(Failure::Refused(refused, 0)),
    }
}

// What is read of a file and not yet moved, how many octets are left to read, and how many records went before.
#[derive(Drop)]
struct Pieces {
    octets: [u8; PIECE],
    held: usize,
    left: u64,
    before: u64,
    // The option octets are still in front.
    is_first: bool,
    ghost within: { held ≤ 65536 },
}

impl Pieces {
    // Of a file of which no more octets are read.
    fn new(most: u64) -> Pieces {
        Pieces {
            octets: [0u8; PIECE],
            held: 0,
            left: most,
            before: 0,
            is_first: true,
        }
    }

    // Reads once behind what is held. Returns false where the file has ended, or what is to be read of it.
    fn read_more(&mut self, file: &mut impl Read) -> Result<bool, Failure> {
        let held = self.held;
        let room = self.left.min((PIECE - held) as u64) as usize;
        let more = file
            .read(&mut self.octets[held..held + room])
            .map_err(|_| Failure::CannotRead)?;
        self.held += more;
        self.left -= more as u64;
        Ok(more != 0)
    }

    // Moves the records that are whole, with the option octets that may be in front of them, and of a file that has
    // ended all that is left. Keeps the rest.
    fn move_whole(
        &mut self,
        form: Form,
        has_ended: bool,
        target: &mut [u8],
    ) -> Result<usize, Failure>
        ensures { IfOk result (λ n. n ≤ length target.new) }
    {
        let options = if self.is_first { 2 } else { 0 };
        if self.held < options && !has_ended {
            return Ok(0);
        }
        let held = &self.octets[..self.held];
        let records = &held[options.min(held.len())..];
        let whole = whole_in_front(records);
        let end = if has_ended {
            self.held
        } else {
            options + whole.octets
        };
        let n = move_part(form, self.is_first, &held[..end], target).map_err(
            |refused| Failure::Refused(refused, self.before),
        )?;
        self.octets.copy_within(end..self.held, 0);
        self.held -= end;
        self.before = self.before.saturating_add(whole.count as u64);
        self.is_first = false;
        Ok(n)
    }
}

// One pass over a file, to judge it, or to write as many octets as were judged, moved. Returns how many it read.
fn pass(
    rt: &(impl Files + Print),
    form: Form,
    name: &str,
    judged: Option<u64>,
) -> Result<u64, Failure> {
    let mut file = fs::open(rt, name).map_err(|_| Failure::CannotRead)?;
    let most = judged.unwrap_or(u64::MAX);
    let mut pieces = Pieces::new(most);
    let mut target = [0u8; ROOM];
    for _ in 0..u64::MAX {
        let has_ended = !pieces.read_more(&mut file)?;
        // The file has become shorter.
        if has_ended && judged.is_some() && pieces.left != 0 {
            return Err(Failure::CannotRead);
        }
        let n = pieces.move_whole(form, has_ended, &mut target)?;
        if judged.is_some() {
            rt.write_all(&target[..n])
                .map_err(|_| Failure::CannotWrite)?;
        }
        if has_ended {
            break;
        }
    }
    Ok(most.saturating_sub(pieces.left))
}

// A log that is refused writes nothing, so it is judged as a whole before anything is written; by pieces, so that a log
// of any length takes the same memory.
pub fn move_file(rt: &(impl Files + Print), form: Form, name: &str) -> Result<(), Failure> {
    let length = pass(rt, form, name, None)?;
    pass(rt, form, name, Some(length))?;
    Ok(())
}
