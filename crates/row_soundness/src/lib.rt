// The tests of one row and of two rows that soundness is made of, and what a row adds to the counts.
#![tactic(auto)]

ghost use Rattle.std.specs.Prelude.{◌≡◌};
ghost use Rattle.octets.specs.Tests.{has_both};
ghost use Rattle.board.specs.States.{valid_direction, holdable, valid_call};
ghost use Rattle.board.specs.Soundness.{valid_standing, zeros};
ghost use Rattle.board.specs.Code.RowTests.{fits, clash, paired};
ghost use Rattle.board.specs.Code.Tallies.{row_tally};

use board::finding::is_occupied;
use board::{
    AuxiliaryState, Call, CallState, Direction, Row, Standing, Tally, valid_number, valid_reference,
};
use keys::{answers, joined_leg, leg, link, reference};

pub mod keys;

// 3 and 4 are only outgoing, 7 only incoming.
fn direction_valid(state: CallState, direction: Direction) -> bool
    ensures { result ≡ valid_direction state direction }
{
    match direction {
        Direction::Outgoing => state != CallState::CallReceived,
        Direction::Incoming => matches!(state, CallState::CallReceived | CallState::Active),
    }
}

pub fn is_holdable(state: CallState) -> bool
    ensures { result ≡ holdable state }
{
    matches!(state, CallState::CallDelivered | CallState::Active)
}

fn call_valid(call: Call) -> bool
    ensures { result ≡ valid_call call }
{
    valid_reference(call.reference)
        && direction_valid(call.state, call.direction)
        && (call.auxiliary == AuxiliaryState::Idle || is_holdable(call.state))
}

// Whether each is zero. No way out of the loop: so it compiles to few instructions, and most rows are empty.
fn no_digits(digits: &[u8; 15]) -> bool
    ensures { result ≡ zeros digits.now }
{
    let mut none = true;
    for digit in digits {
        none = none & (*digit == 0);
    }
    none
}

#[tactic(auto, using(crate::proofs::ZeroNumber::zero_is))]
fn empty_fits(row: Row) -> bool
    ensures { result ≡ valid_standing row.leg row.number Standing.Empty }
{
    let number = row.number;
    row.leg == 0
        && number.presentation == 0
        && number.type_of_number == 0
        && number.count == 0
        && no_digits(&number.digits)
}

// The fields of one row obey their rules.
#[tactic(auto, unfolding(board::specs::Code::RowTests::fits, board::specs::Soundness::valid_row))]
pub fn row_fits(row: Row) -> bool
    ensures { result ≡ fits row }
{
    match row.standing {
        Standing::Empty => empty_fits(row),
        Standing::Served(call) => call_valid(call) && valid_number(row.number),
        Standing::Joined { .. } => valid_number(row.number),
    }
}

fn both_same<T: Copy + PartialEq>(x: Option<T>, y: Option<T>) -> bool
    ensures { result ≡ has_both T.eq x y }
{
    x.is_some() && x == y
}

// Two rows share a leg, a reference or a LinkId. With `||` the proof goes by each way through the tests, and two of
// them do not close.
pub fn rows_clash(a: Row, b: Row) -> bool
    ensures { result ≡ clash a b }
{
    both_same(leg(a), leg(b)) | both_same(reference(a), reference(b)) | both_same(link(a), link(b))
}

// Whether `b` is the partner of `a`, or `a` needs none.
#[tactic(auto, using(crate::proofs::KeyLaws::paired_by_legs))]
pub fn rows_paired(a: Row, b: Row) -> bool
    ensures { result ≡ paired a b }
{
    match (joined_leg(a), joined_leg(b)) {
        (None, _) => true,
        (Some(own), Some(other)) => own.leg != own.partner && answers(own, other),
        (Some(_), None) => false,
    }
}

// What one row adds to each count.
pub fn row_tally(row: Row) -> Tally
    ensures { result ≡ row_tally row }
{
    Tally {
        legs: usize::from(is_occupied(row.standing)),
        joined: usize::from(joined_leg(row).is_some()),
        links: usize::from(link(row).is_some()),
    }
}
