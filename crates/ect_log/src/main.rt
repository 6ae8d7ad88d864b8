// Plays a log: two option octets and event records from standard input, a line for each record to standard output.
//
// The log is read and the text written in large pieces, so that a log of any length takes the same memory. What is
// known is written before more of the log is waited for.
#![tactic(auto)]

mod log;

ghost use Rattle.std.specs.Prelude.{◌≤◌, length, IfSome};

use board::{Board, fresh_for_old_log};
use log::{Log, PIECE};
use playing::{Pause, Played, play};
use soundness::count;
use std::io;

// What fails is said on standard error. Where that cannot be written either, nothing is said.
fn complain(rt: &impl Eprint, words: &str) {
    let _ = rt.eprintln(words);
}

// Whether there is more of the log. One that cannot be read ends there.
fn read_more(rt: &(impl Input + Eprint), log: &mut Log) -> bool {
    match log.read_more(rt) {
        Ok(more) => more,
        Err(_) => {
            complain(rt, "ect_log: cannot read");
            false
        }
    }
}

// The first board, by the two option octets, which may come one by one, and the opening for old logs; `None` where they
// are bad or missing.
fn read_options(rt: &(impl Input + Eprint), log: &mut Log) -> Option<Board> {
    if read_more(rt, log) && log.unplayed().len() == 1 {
        read_more(rt, log);
    }
    let [subscribed, alerting, ..] = *log.unplayed() else {
        return None;
    };
    log.played(2);
    fresh_for_old_log(subscribed, alerting).ok()
}

// Writes the line in front of a text.
fn write_line(rt: &impl Print, line: Option<usize>, text: &[u8]) -> io::Result<()>
    requires { IfSome line (λ n. n ≤ length text.now) }
{
    match line {
        Some(n) => rt.write_all(&text[..n]),
        None => Ok(()),
    }
}

// Plays a piece of the log. What is read lies in the piece, and what is written in the buffer. Board and number stay
// apart, as in `play`.
fn play_piece(board: Board, number: u64, piece: &[u8], is_last: bool, output: &mut [u8]) -> Played
    ensures { (result.read ≤ length piece.now) × (result.written ≤ length output.new) }
{
    play(board, number, piece, is_last, output)
}

// Plays the log to its end, and returns the board there. A proved loop has to end and nothing says that a log does, so
// the loop counts its turns up to a number that no run reaches.
fn play_log(
    rt: &(impl Input + Print + Eprint),
    start: Board,
    log: &mut Log,
    output: &mut [u8],
) -> io::Result<Board> {
    let mut board = start;
    let mut number = 0;
    let mut has_ended = false;
    for _ in 0..u64::MAX {
        let played = play_piece(board, number, log.unplayed(), has_ended, output);
        rt.write_all(&output[..played.written])?;
        log.played(played.read);
        board = played.board;
        number = played.number;
        match played.pause {
            Pause::MoreInput => has_ended = !read_more(rt, log),
            Pause::FullOutput => {}
            Pause::End => return Ok(board),
        }
    }
    Ok(board)
}

// The counts of a board that the component returned. Such a board is sound. They go one by one, as log_text knows no
// board.
fn write_end(rt: &impl Print, board: Board, output: &mut [u8]) -> io::Result<()> {
    let counts = count(board).unwrap_or_default();
    let line = log_text::end_line(
        counts.legs as u64,
        counts.pairs as u64,
        counts.links as u64,
        output,
    );
    write_line(rt, line, output)
}

// The text of the log. Where that cannot be written, nothing more is read, played or written.
fn write_text(rt: &(impl Input + Print + Eprint)) -> io::Result<()> {
    let mut log = Log::new();
    let mut output = [0u8; PIECE];
    let Some(start) = read_options(rt, &mut log) else {
        let line = log_text::bad_options_line(&mut output);
        return write_line(rt, line, &output);
    };
    let line = log_text::first_line(&mut output);
    write_line(rt, line, &output)?;
    let last = play_log(rt, start, &mut log, &mut output)?;
    write_end(rt, last, &mut output)
}

fn main(rt: HostRuntime) {
    if write_text(&rt).is_err() {
        complain(&rt, "ect_log: cannot write");
    }
}
