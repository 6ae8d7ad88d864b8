// Playing the records of a piece of a log.
#![tactic(auto)]

mod records;

ghost use Rattle.std.specs.Prelude.{◌≡◌, ◌≤◌, ◌<◌, length, get_or, IfSome};
ghost use Rattle.ect.specs.Contract.{answer_number};
ghost use Rattle.playing.specs.Log.{stops_reading};
ghost use Rattle.playing.specs.Playing.{PlaysRecord, front, longest_line, pause_at_end, paused_at, Plays};

use board::Board;
use ect::step_tested;
use events::Refusal;
use events::records::record_length;
use records::{returned, written};
use soundness::sound;

// More than the longest line of a record: 20 digits, kind, number returned, twice 128 octets, spaces and the end.
const LONGEST_LINE: usize = 512;

// Why playing pauses: a record goes on behind the piece, the text has no room for another line, or nothing more is
// read.
#[derive(Clone, Copy)]
pub enum Pause {
    MoreInput,
    FullOutput,
    End,
}

// The board and the number of the last record after a piece, how many of its octets were played, and how many octets
// of text were written.
#[derive(Clone, Copy)]
pub struct Played {
    pub board: Board,
    pub number: u64,
    pub read: usize,
    pub written: usize,
    pub pause: Pause,
}

// What one record led to, and how many octets its line has.
#[derive(Clone, Copy)]
pub struct PlayedRecord {
    pub board: Board,
    pub answer: Result<usize, Refusal>,
    pub written: usize,
}

// Has the component judge a record, and writes its line, for which there is room.
fn play_record(
    board: Board,
    is_sound: bool,
    number: u64,
    event: &[u8],
    out: &mut [u8],
) -> PlayedRecord
    requires { (0 < length event.now) × (longest_line ≤ length out.old) }
    ensures { PlaysRecord is_sound board number event.now out.old out.new result }
{
    let mut reply = [0u8; 128];
    let stepped = step_tested(board, is_sound, event, &mut reply);
    let answer = stepped.answer;
    let number_returned = returned(answer);
    let count = written(answer);
    let n = log_text::record_line(number, event[0], number_returned, &reply[..count], out).unwrap();
    PlayedRecord {
        board: stepped.board,
        answer,
        written: n,
    }
}

// How many octets the record at the front of a piece takes: as many as its kind has, or all there are of one that is
// cut at the log's end; `None` where the record goes on behind the piece.
fn front_length(piece: &[u8], is_last: bool) -> Option<usize>
    requires { 0 < length piece.now }
    ensures is { result ≡ front is_last piece.now }
    ensures within { IfSome result (λ n. n ≤ length piece.now) }
{
    let whole = record_length(piece[0]);
    if whole <= piece.len() {
        return Some(whole);
    }
    if is_last {
        return Some(piece.len());
    }
    None
}

// A record that is cut, and one of a kind that is not listed, stop the reading.
fn stops(answer: Result<usize, Refusal>) -> bool
    ensures { result ≡ stops_reading (answer_number answer) }
{
    matches!(answer, Err(Refusal::WrongLength | Refusal::UnknownKind))
}

// Plays the records of a piece. A number that 64 bits do not hold is not given: the reading ends at the one before.
// `is_last` stays beside the piece: the caller alone knows whether the log has ended. Board and number stay apart, as
// `Plays` names them. The board is tested once, since a step keeps soundness. The loop goes by places: the length of a
// record says where the next one begins, and the place is part of what it returns.
pub fn play(start: Board, before: u64, piece: &[u8], is_last: bool, out: &mut [u8]) -> Played
    ensures { Plays start before piece.now is_last out.old out.new result }
{
    let is_sound = sound(start);
    let mut so_far = Played {
        board: start,
        number: before,
        read: 0,
        written: 0,
        pause: at_end(is_last),
    };
    while so_far.read < piece.len() {
        if out.len() - so_far.written < LONGEST_LINE {
            return paused(so_far, Pause::FullOutput);
        }
        let Some(taken) = front_length(&piece[so_far.read..], is_last) else {
            return paused(so_far, Pause::MoreInput);
        };
        if u64::MAX <= so_far.number {
            return paused(so_far, Pause::End);
        }
        so_far.number += 1;
        let played = play_record(
            so_far.board,
            is_sound,
            so_far.number,
            &piece[so_far.read..so_far.read + taken],
            &mut out[so_far.written..],
        );
        so_far.board = played.board;
        so_far.read += taken;
        so_far.written += played.written;
        // Nothing behind it is read.
        if stops(played.answer) {
            return paused(so_far, Pause::End);
        }
    }
    so_far
}

fn paused(so_far: Played, pause: Pause) -> Played
    ensures { result ≡ paused_at so_far.board so_far.number so_far.read so_far.written pause }
{
    Played { pause, ..so_far }
}

// Behind the last piece nothing is read.
fn at_end(is_last: bool) -> Pause
    ensures { result ≡ pause_at_end is_last }
{
    if is_last {
        return Pause::End;
    }
    Pause::MoreInput
}
