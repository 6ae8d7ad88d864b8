// What a row is compared by with other rows: its leg, its reference, its LinkId, and its partner where it is joined.
// The board gathers these in columns, and of lent rows two are held against each other: what has to be distinct, and
// who is whose partner, is decided here for both.
ghost use Rattle.std.specs.Prelude.{◌≡◌};
ghost use Rattle.row_soundness.specs.Code.RowKeys.{leg_in, reference_in, link_in, joined_in, in_row, answers_joined};

use board::finding::is_occupied;
use board::{Row, Standing};
use octets::{CallReference, LinkId};

// A joined leg, its partner, and 1 where it alerts: a number and no flag, as `answers` is told of any.
#[derive(Clone, Copy, Default)]
pub struct JoinedLeg {
    pub leg: u32,
    pub partner: u32,
    pub alerting: u32,
}

pub fn leg(row: Row) -> Option<u32>
    ensures { result ≡ in_row leg_in row }
{
    is_occupied(row.standing).then_some(row.leg)
}

pub fn reference(row: Row) -> Option<CallReference>
    ensures { result ≡ in_row reference_in row }
{
    match row.standing {
        Standing::Served(call) => Some(call.reference),
        _ => None,
    }
}

pub fn link(row: Row) -> Option<LinkId>
    ensures { result ≡ in_row link_in row }
{
    match row.standing {
        Standing::Served(call) => call.link,
        _ => None,
    }
}

pub fn joined_leg(row: Row) -> Option<JoinedLeg>
    ensures { result ≡ in_row joined_in row }
{
    match row.standing {
        Standing::Joined { partner, alerting } => Some(JoinedLeg {
            leg: row.leg,
            partner,
            alerting: u32::from(alerting),
        }),
        _ => None,
    }
}

// Whether `b` is the partner of `a` and is joined back to it, not both alerting.
pub fn answers(a: JoinedLeg, b: JoinedLeg) -> bool
    ensures { result ≡ answers_joined a b }
{
    a.partner == b.leg && a.leg == b.partner && !(a.alerting == 1 && b.alerting == 1)
}
