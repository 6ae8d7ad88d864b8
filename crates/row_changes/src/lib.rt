// What an accepted event makes of the rows.
#![tactic(auto)]

ghost use Rattle.std.specs.Prelude.{◌≡◌, eqb, ◌||◌};
ghost use Rattle.board.specs.States.{delivered};
ghost use Rattle.board.specs.Changes.{map_standing, joined, alerting_ended, emptied_if, row_after};
ghost use Rattle.board.specs.Changes.{changed_rows, enter};
ghost use Rattle.row_changes.specs.Code.Calls.{CallGiven, OtherKept};

use board::finding::{Key, find};
use board::{Call, CallState, Change, Row, Standing, empty_row};
use octets::CallReference;

// The call of that reference, changed.
fn on_call<F: FnOnce(Call) -> Call>(row: &mut Row, reference: CallReference, change: F)
    requires { F.IsAlwaysCallable change }
    ensures call { CallGiven (F.post change) reference row.old row.new }
    ensures other { OtherKept reference row.old row.new }
{
    let Standing::Served(call) = row.standing else {
        return;
    };
    if reference == call.reference {
        row.standing = Standing::Served(change(call));
    }
}

pub fn is_delivered(call: Call) -> bool
    ensures { result ≡ delivered call }
{
    call.state == CallState::CallDelivered
}

// The row of one of two legs that a transfer joins: each in place of its call, a Delivered one alerting.
fn join(row: &mut Row, a: u32, b: u32)
    ensures { row.new ≡ map_standing (joined a b) row.old }
{
    let Standing::Served(call) = row.standing else {
        return;
    };
    let partner = match row.leg {
        leg if leg == a => b,
        leg if leg == b => a,
        _ => return,
    };
    row.standing = Standing::Joined {
        partner,
        alerting: is_delivered(call),
    };
}

fn end_alerting(row: &mut Row, leg: u32)
    ensures { row.new ≡ map_standing (alerting_ended leg) row.old }
{
    if row.leg != leg {
        return;
    }
    if let Standing::Joined { partner, .. } = row.standing {
        row.standing = Standing::Joined {
            partner,
            alerting: false,
        };
    }
}

fn empty_if(row: &mut Row, released: bool)
    ensures { row.new ≡ emptied_if released row.old }
{
    if released {
        *row = empty_row();
    }
}

// Rows change in place: most stay as they are, and an event that makes each anew takes half as long again.
#[tactic(auto, unfolding(board::specs::Changes::row_after))]
fn apply(row: &mut Row, change: Change)
    ensures { row.new ≡ row_after change row.old }
{
    match change {
        Change::SetState(reference, state) => on_call(
            row,
            reference,
            |call| Call { state, ..call },
        ),
        Change::SetAuxiliary(reference, auxiliary) => {
            on_call(row, reference, |call| Call { auxiliary, ..call })
        }
        Change::SetLinkId(reference, id) => on_call(
            row,
            reference,
            |call| Call {
                link: Some(id),
                ..call
            },
        ),
        Change::Join(a, b) => join(row, a, b),
        Change::EndAlerting(leg) => end_alerting(row, leg),
        Change::Release(leg) => empty_if(row, row.leg == leg),
        Change::ReleasePair(leg, partner) => empty_if(row, row.leg == leg || row.leg == partner),
    }
}

// Changes rows that are taken.
#[tactic(auto, using(octets::proofs::Places::changed_step), unfolding(board::specs::Changes::changed_rows))]
pub fn change(rows: &mut [Row], change: Change)
    ensures { rows.new ≡ changed_rows change rows.old }
{
    for row in rows.iter_mut() {
        apply(row, change);
    }
}

// The row goes into the lowest empty place; full rows stay as they are.
pub fn open_row(rows: &mut [Row], row: Row)
    ensures { rows.new ≡ enter row rows.old }
{
    if let Some(i) = find(rows, Key::Empty) {
        rows[i] = row;
    }
}
