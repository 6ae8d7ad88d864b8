// The two forms of a stored log, and moving a log from one to the other.
#![tactic(auto)]

ghost use Rattle.std.specs.Prelude.{◌≡◌, None, [], length};
ghost use Rattle.events.specs.Records.{records};
ghost use Rattle.filling.specs.Code.Putting.{PutGivenRoom};
ghost use Rattle.log_forms.specs.declared.Form.TheVariants.{Old, New};
ghost use Rattle.log_forms.specs.Moving.{fault, first_bad, moved_record, moved_records, moved_behind, moved_log};
ghost use Rattle.log_forms.specs.Code.Judging.{judged};
ghost use Rattle.log_forms.specs.Contract.{not_moved_number, Moves};

use board::{Options, valid_options};
use events::Refusal;
use events::logs::split_record;
use events::records::{Request, read_request};
use filling::Filling;
use thiserror::Error;

// The form that comes out: the old one has event 1, the new one event 9 with the type of number.
#[derive(Clone, Copy, Debug, PartialEq, Eq)]
pub enum Form {
    Old,
    New,
}

// What is wrong with a record of a log.
#[derive(Clone, Copy, Debug, PartialEq, Eq, Error)]
pub enum Fault {
    #[error("{0}")]
    Unreadable(Refusal),
    #[error("the old form has no type of number")]
    NoOldForm,
}

// A bad record: its number in the log, from 1, and what is wrong with it.
#[derive(Clone, Copy, Debug, PartialEq, Eq, Error)]
#[error("record {number}: {fault}")]
pub struct BadRecord {
    pub number: usize,
    pub fault: Fault,
}

// Why a log is not moved, in the order of the checks: the first bad record decides.
#[derive(Clone, Copy, Debug, PartialEq, Eq, Error)]
pub enum NotMoved {
    #[error("the option octets are missing or bad")]
    BadOptions,
    #[error("{0}")]
    Bad(BadRecord),
    #[error("the target is too small")]
    TargetTooSmall,
}

// The number that a refusal is returned as.
impl From<NotMoved> for u8 {
    ghost from_gives = { λ refused number. number ≡ not_moved_number refused };

    fn from(refused: NotMoved) -> u8 {
        match refused {
            NotMoved::BadOptions => u8::from(Refusal::FieldOutOfRange),
            NotMoved::Bad(bad) => match bad.fault {
                Fault::Unreadable(refusal) => u8::from(refusal),
                Fault::NoOldForm => 13,
            },
            NotMoved::TargetTooSmall => u8::from(Refusal::BufferTooSmall),
        }
    }
}

// What is wrong with an event record.
fn fault_of(form: Form, event: &[u8]) -> Option<Fault>
    ensures { result ≡ fault form event.now }
{
    match read_request(event) {
        Err(refusal) => Some(Fault::Unreadable(refusal)),
        Ok(Request::Open { number, .. }) if form == Form::Old && number.type_of_number != 0 => {
            Some(Fault::NoOldForm)
        }
        Ok(_) => None,
    }
}

// How many octets a record has once it is moved.
fn moved_length(form: Form, event: &[u8]) -> usize
    requires { fault form event.now ≡ None }
    ensures { result ≡ length (moved_record form event.now) }
{
    match (form, event[0]) {
        (Form::New, 1) => event.len() + 1,
        (Form::Old, 9) => event.len() - 1,
        _ => event.len(),
    }
}

// Refuses a log for its first bad record, else says how many octets its records come to. That count does not wrap: a
// record is at most doubled, and a slice has fewer than 2^63 octets.
fn judge(form: Form, log: &[u8]) -> Result<usize, NotMoved>
    ensures { result ≡ judged form 0 0 (records log.now) }
{
    let mut number = 0;
    let mut octets = 0;
    let mut rest = log;
    while let Some((record, later)) = split_record(rest) {
        number += 1;
        if let Some(fault) = fault_of(form, record) {
            return Err(NotMoved::Bad(BadRecord { number, fault }));
        }
        octets += moved_length(form, record);
        rest = later;
    }
    Ok(octets)
}

// Puts a record as the form that comes out has it. The type of number stands behind the kind, the reference, the leg,
// the direction and the presentation.
fn put_record(form: Form, event: &[u8], out: &mut Filling)
    requires { fault form event.now ≡ None }
    ensures { PutGivenRoom (moved_record form event.now) out.old out.new }
{
    match (form, event[0]) {
        (Form::New, 1) => {
            out.put(&[9]);
            out.put(&event[1..9]);
            out.put(&[0]);
            out.put(&event[9..]);
        }
        (Form::Old, 9) => {
            out.put(&[1]);
            out.put(&event[1..9]);
            out.put(&event[10..]);
        }
        _ => out.put(event),
    }
}

fn put_records(form: Form, log: &[u8], out: &mut Filling)
    requires { first_bad form 0 (records log.now) ≡ None }
    ensures { PutGivenRoom (moved_records form (records log.now)) out.old out.new }
{
    let mut rest = log;
    while let Some((record, later)) = split_record(rest) {
        put_record(form, record, out);
        rest = later;
    }
}

// Octets that stay, and moved records behind them. Nothing is written before all is judged.
fn move_behind(form: Form, front: &[u8], log: &[u8], target: &mut [u8]) -> Result<usize, NotMoved>
    ensures { Moves (moved_behind form front.now (records log.now) (length target.old)) target.old result target.new }
{
    let octets = judge(form, log)?;
    if target.len() < octets || target.len() - octets < front.len() {
        return Err(NotMoved::TargetTooSmall);
    }
    let mut out = Filling::new(target, 0);
    out.put(front);
    put_records(form, log, &mut out);
    Ok(out.end())
}

// A whole log: its two option octets, which stay, and its records.
fn moved(form: Form, log: &[u8], target: &mut [u8]) -> Result<usize, NotMoved>
    ensures { Moves (moved_log form log.now (length target.old)) target.old result target.new }
{
    let Some((front, records)) = log.split_first_chunk::<2>() else {
        return Err(NotMoved::BadOptions);
    };
    let [subscribed, alerting] = *front;
    let options = Options {
        subscribed,
        alerting,
    };
    if !valid_options(options) {
        return Err(NotMoved::BadOptions);
    }
    move_behind(form, front, records, target)
}

// Moves a log of the old form to the new one, into the front of the target, and says how many octets that are; or a
// refusal that leaves the target.
pub fn to_new_form(log: &[u8], target: &mut [u8]) -> Result<usize, NotMoved>
    ensures { Moves (moved_log New log.now (length target.old)) target.old result target.new }
{
    moved(Form::New, log, target)
}

// Moves a log of the new form to the old one, likewise.
pub fn to_old_form(log: &[u8], target: &mut [u8]) -> Result<usize, NotMoved>
    ensures { Moves (moved_log Old log.now (length target.old)) target.old result target.new }
{
    moved(Form::Old, log, target)
}

// Moves records alone, for a program that moves a long log by pieces: a bad one has its number in the piece.
pub fn move_records(form: Form, log: &[u8], target: &mut [u8]) -> Result<usize, NotMoved>
    ensures { Moves (moved_behind form [] (records log.now) (length target.old)) target.old result target.new }
{
    move_behind(form, &[], log, target)
}
