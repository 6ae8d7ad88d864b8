// Open: a far party with its call is entered.
ghost use Rattle.std.specs.Prelude.{◌≡◌};
ghost use Rattle.rules.specs.Checks.{first_state};
ghost use Rattle.effects.specs.Code.Effects.{EffectOf, opened_row, open_on};

use crate::{ChangeKind, Effect};
use board::finding::{Key, has};
use board::{AuxiliaryState, Board, Call, CallState, Direction, PartyNumber, Row, Standing};
use events::Refusal;
use octets::CallReference;
use replies::nothing;

fn first_state(direction: Direction) -> CallState
    ensures { result ≡ first_state direction }
{
    match direction {
        Direction::Outgoing => CallState::OutgoingCallProceeding,
        Direction::Incoming => CallState::CallReceived,
    }
}

fn opened_row(reference: CallReference, leg: u32, direction: Direction, number: PartyNumber) -> Row
    ensures { result ≡ opened_row reference.0 leg direction number }
{
    Row {
        leg,
        number,
        standing: Standing::Served(Call {
            reference,
            direction,
            state: first_state(direction),
            auxiliary: AuxiliaryState::Idle,
            link: None,
        }),
    }
}

// Reference, leg, direction and number travel through `Request::Open`, `open` and `opened_row` alone, and the
// definitions name them apart.
#[tactic(auto, using(board::proofs::Searches::any_leg, board::proofs::Searches::any_reference))]
pub fn open(
    board: &Board,
    reference: CallReference,
    leg: u32,
    direction: Direction,
    number: PartyNumber,
) -> Result<Effect, Refusal>
    ensures { EffectOf result board.now (open_on board.now reference.0 leg direction number) }
{
    if has(&board.rows, Key::Leg(leg)) {
        return Err(Refusal::LegOnBoard);
    }
    if has(&board.rows, Key::Reference(reference)) {
        return Err(Refusal::ReferenceInUse);
    }
    if !has(&board.rows, Key::Empty) {
        return Err(Refusal::NoEmptyRow);
    }
    Ok(Effect {
        change: Some(ChangeKind::Enter(opened_row(reference, leg, direction, number))),
        out: nothing(),
    })
}
