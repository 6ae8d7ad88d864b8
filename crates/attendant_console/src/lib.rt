// The screen of an attendant's console: the legs that the attendant follows, as the board has them.
// It knows of the component what the component states: events are played by `ect::step`, and what a leg is shown as is
// read off the board.
#![tactic(auto)]

ghost use Rattle.std.specs.Prelude.{◌≡◌, map, option_map};
ghost use Rattle.octets.specs.Lists.{any, place_from};
ghost use Rattle.board.specs.Entries.{row_entry};
ghost use Rattle.attendant_console.specs.Screen.{empty_lines, shown_entry, shown_on, shows, is_empty};
ghost use Rattle.attendant_console.specs.Screen.{not_pinned_number, pin, pinned_answer};
ghost use Rattle.attendant_console.specs.Contract.{PlaysOnScreen};
ghost use Rattle.attendant_console.specs.Name.{name as name_of};
ghost use Rattle.attendant_console.specs.Code.Redrawing.{sought_by, redrawn_lines};

use board::finding::{Key, find_row};
use board::{Board, Row, Standing};
use ect::{Stepped, step};
use events::Refusal;
use soundness::sound;
use thiserror::Error;

// "16 screen lines".
pub const LINES: usize = 16;

// How a leg is shown: with the served user, joined, or joined and alerting.
#[derive(Clone, Copy, Debug, PartialEq, Eq)]
pub enum ShownAs {
    WithUser,
    Joined,
    JoinedAlerting,
}

// What a line shows.
#[derive(Clone, Copy, Debug, PartialEq, Eq)]
pub struct ShownLeg {
    pub leg: u32,
    pub shown_as: ShownAs,
}

// The screen: its lines from the lowest on, `None` where a line is empty. Its fields are open, as those of a board: a
// screen that is lent may hold anything.
#[derive(Clone, Copy, Debug)]
pub struct Screen {
    pub lines: [Option<ShownLeg>; LINES],
}

// Why a leg is not pinned, in the order of the checks.
#[derive(Clone, Copy, Debug, PartialEq, Eq, Error)]
pub enum NotPinned {
    #[error("the board is not sound")]
    UnsoundBoard,
    #[error("the leg is not on the board")]
    NotOnBoard,
    #[error("a line shows the leg already")]
    AlreadyPinned,
    #[error("no line is empty")]
    NoEmptyLine,
}

// The number that a refusal is returned as.
impl From<NotPinned> for u8 {
    ghost from_gives = { λ refused number. number ≡ not_pinned_number refused };

    fn from(refused: NotPinned) -> u8 {
        match refused {
            NotPinned::UnsoundBoard => u8::from(Refusal::UnsoundBoard),
            NotPinned::NotOnBoard => 16,
            NotPinned::AlreadyPinned => 17,
            NotPinned::NoEmptyLine => 18,
        }
    }
}

// A line while the rows are looked through: the leg that it shows, and what the rows so far have of that leg.
#[derive(Clone, Copy)]
struct Sought {
    leg: Option<u32>,
    found: Option<ShownLeg>,
}

// The screen that a console begins with.
pub fn empty_screen() -> Screen
    ensures { result.lines ≡ empty_lines }
{
    Screen {
        lines: [None; LINES],
    }
}

// What the row's leg is shown as.
fn shown_in(row: Row) -> Option<ShownLeg>
    ensures { result ≡ option_map shown_entry (row_entry row) }
{
    let shown_as = match row.standing {
        Standing::Empty => return None,
        Standing::Served(_) => ShownAs::WithUser,
        Standing::Joined { alerting: true, .. } => ShownAs::JoinedAlerting,
        Standing::Joined { .. } => ShownAs::Joined,
    };
    Some(ShownLeg {
        leg: row.leg,
        shown_as,
    })
}

// The leg as the board has it.
#[tactic(auto, using(crate::proofs::Shown::shown_found, crate::proofs::Shown::shown_nowhere))]
fn shown_on(board: &Board, leg: u32) -> Option<ShownLeg>
    ensures { result ≡ shown_on board.now leg }
{
    find_row(&board.rows, Key::Leg(leg)).and_then(shown_in)
}

fn shows(line: Option<ShownLeg>, leg: u32) -> bool
    ensures { result ≡ shows leg line }
{
    matches!(line, Some(shown) if shown.leg == leg)
}

fn is_pinned(screen: &Screen, leg: u32) -> bool
    ensures { result ≡ any (shows leg) screen.now.lines }
{
    screen.lines.iter().any(|line| shows(*line, leg))
}

fn is_empty(line: Option<ShownLeg>) -> bool
    ensures { result ≡ is_empty line }
{
    line.is_none()
}

// The lowest empty line, counted from 0.
fn empty_line(screen: &Screen) -> Option<usize>
    ensures { result ≡ place_from is_empty 0 screen.now.lines }
{
    screen.lines.iter().position(|line| is_empty(*line))
}

// Pins a leg: from now on a line shows it, as long as the board has it. A refusal leaves the screen.
#[tactic(auto, unfolding(crate::specs::Screen::pin))]
pub fn pin(screen: &mut Screen, board: &Board, leg: u32) -> Result<(), NotPinned>
    ensures { pinned_answer result screen.new ≡ pin screen.old.lines board.now leg }
{
    if !sound(*board) {
        return Err(NotPinned::UnsoundBoard);
    }
    let Some(shown) = shown_on(board, leg) else {
        return Err(NotPinned::NotOnBoard);
    };
    if is_pinned(screen, leg) {
        return Err(NotPinned::AlreadyPinned);
    }
    let Some(place) = empty_line(screen) else {
        return Err(NotPinned::NoEmptyLine);
    };
    screen.lines[place] = Some(shown);
    Ok(())
}

// The lowest row with the leg counts, and what a later one has is passed over.
fn seek(sought: &mut Sought, shown: ShownLeg)
    ensures { sought.new ≡ sought_by shown sought.old }
{
    if sought.found.is_none() && sought.leg == Some(shown.leg) {
        sought.found = Some(shown);
    }
}

#[tactic(auto, using(octets::proofs::Places::changed_step))]
fn seek_for_all(lines: &mut [Sought], shown: ShownLeg)
    ensures { lines.new ≡ map (sought_by shown) lines.old }
{
    for line in lines.iter_mut() {
        seek(line, shown);
    }
}

// Each line as the rows have its leg. The rows are looked through once for all lines, lent, since handing them over
// copies 2.3 kB.
fn redrawn(screen: Screen, rows: &[Row; 64]) -> Screen
    ensures { result.lines ≡ redrawn_lines rows.now screen.lines }
{
    let mut lines = screen.lines.map(|line| Sought {
        leg: line.map(|shown| shown.leg),
        found: None,
    });
    for row in rows {
        if let Some(shown) = shown_in(*row) {
            seek_for_all(&mut lines, shown);
        }
    }
    Screen {
        lines: lines.map(|line| line.found),
    }
}

// PlaysOnScreen an event: what the component makes of it, and the screen afterwards. A refusal leaves the screen.
pub fn play(screen: &mut Screen, board: Board, event: &[u8], reply: &mut [u8]) -> Stepped
    ensures { PlaysOnScreen board event.now reply.old screen.old result reply.new screen.new }
{
    let stepped = step(board, event, reply);
    if stepped.answer.is_ok() {
        *screen = redrawn(*screen, &stepped.board.rows);
    }
    stepped
}

// The name of a party: what stands in its directory line before the first comma, or its digits where that is empty.
// A part of one of the two that are lent: nothing is copied, and nothing trimmed.
pub fn name<'a>(directory_line: &'a [u8], digits: &'a [u8]) -> &'a [u8]
    ensures { result.now ≡ name_of directory_line.now digits.now }
{
    let end = directory_line
        .iter()
        .position(|octet| *octet == b',')
        .unwrap_or(directory_line.len());
    let part = &directory_line[..end];
    if part.is_empty() {
        return digits;
    }
    part
}
