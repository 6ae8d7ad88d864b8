// What an event comes to: whether it is refused, what it changes on the board, and the replies.
#![tactic(auto)]

ghost use Rattle.std.specs.Prelude.{◌≡◌, None, Some};
ghost use Rattle.rules.specs.Checks.{assigned_by};
ghost use Rattle.rules.specs.Replies.{number_at};
ghost use Rattle.rules.specs.Step.{decision, candidate_by};
ghost use Rattle.effects.specs.Code.Effects.{EffectOf, effect, board_by};

use board::finding::{Key, find_row};
use board::{Board, Change, Row};
use call_states::{hold, progress};
use ending::{answer, release};
use events::Refusal;
use events::records::{Request, read_request};
use facility::facility;
use informing::inform;
use octets::LinkId;
use opening::open;
use passing::leg_facility;
use replies::{Out, number_as_told, unknown};
use row_changes::open_row;
use rules::TellNumber;
use serving::parties::{entry_at, named};

mod call_states;
mod ending;
mod facility;
mod informing;
mod opening;
mod passing;

// What changes on the board: a row is entered, or rows that are taken change.
#[derive(Clone, Copy)]
pub enum ChangeKind {
    Enter(Row),
    Apply(Change),
}

// What an accepted event comes to. It has no board: the board is changed in place, once, by the change.
#[derive(Clone, Copy)]
pub struct Effect {
    pub change: Option<ChangeKind>,
    pub out: Out,
}

// An accepted event that changes nothing.
fn unchanged(out: Out) -> Effect
    ensures { result ≡ effect None out }
{
    Effect { change: None, out }
}

// An accepted event that changes rows that are taken.
fn applied(change: Change, out: Out) -> Effect
    ensures { result ≡ effect (Some (ChangeKind.Apply change)) out }
{
    Effect {
        change: Some(ChangeKind::Apply(change)),
        out,
    }
}

// The number of the party at a leg, as it is told.
#[tactic(auto, using(crate::proofs::NumberLaws::number_found, crate::proofs::NumberLaws::number_not_found))]
fn number_at(rows: &[Row], leg: u32) -> TellNumber
    ensures { result ≡ number_at rows.now leg }
{
    find_row(rows, Key::Leg(leg)).map_or_else(unknown, |row| number_as_told(row.number))
}

// What the event comes to on the board, where board and buffer are in order.
// Requests and changes are closed sets of data, on which the rules, the book and the history match too.
#[tactic(auto, using(crate::proofs::EffectLaws::count_in_range), unfolding(rules::specs::Step::decision, rules::specs::Checks::decide))]
pub fn effect_of(board: &Board, event: &[u8]) -> Result<Effect, Refusal>
    ensures { EffectOf result board.now (decision board.now event.now) }
{
    match read_request(event)? {
        Request::Open {
            reference,
            leg,
            direction,
            number,
        } => open(board, reference, leg, direction, number),
        Request::Progress(reference, state) => progress(
            named(&board.rows, reference),
            reference,
            state,
        ),
        Request::Hold(reference, auxiliary) => hold(
            named(&board.rows, reference),
            reference,
            auxiliary,
        ),
        Request::Release(leg) => release(entry_at(&board.rows, leg)),
        Request::Facility(reference, component) => facility(board, reference, component),
        Request::Answer(leg) => answer(board, entry_at(&board.rows, leg), leg),
        Request::LegFacility(leg, count, octets) => {
            leg_facility(entry_at(&board.rows, leg), count, *octets)
        }
        Request::Inform(reference, component) => inform(named(&board.rows, reference), component),
    }
}

// A LinkId that is assigned makes the value after it the next candidate.
fn candidate_after(candidate: LinkId, change: Change) -> LinkId
    ensures { result ≡ candidate_by (assigned_by change) candidate }
{
    match change {
        Change::SetLinkId(_, id) => id.next(),
        _ => candidate,
    }
}

// Changes the board, if there is a change.
pub fn done(board: &mut Board, change: Option<ChangeKind>)
    ensures { board.new ≡ board_by change board.old }
{
    match change {
        None => {}
        Some(ChangeKind::Enter(row)) => open_row(&mut board.rows, row),
        Some(ChangeKind::Apply(change)) => {
            board.candidate = candidate_after(board.candidate, change);
            row_changes::change(&mut board.rows, change);
        }
    }
}
