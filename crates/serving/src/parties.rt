// The far parties that events and components name, as the rules find them among the rows taken.
ghost use Rattle.std.specs.Prelude.{◌≡◌};
ghost use Rattle.octets.specs.Lists.{find as find_in};
ghost use Rattle.board.specs.Entries.{row_entry, has_party_link_id, row_party, taken, calls};
ghost use Rattle.rules.specs.Checks.{named as named_in, entry_at};

use board::finding::{Key, find_row};
use board::{Connection, Entry, Party, Row, Standing};
use octets::{CallReference, LinkId};

// The party of a row with a call.
pub fn party_of(row: Row) -> Option<Party>
    ensures { result ≡ row_party row }
{
    match row.standing {
        Standing::Served(call) => Some(Party { leg: row.leg, call }),
        Standing::Empty | Standing::Joined { .. } => None,
    }
}

// The entry of a row that is taken.
fn entry_of(row: Row) -> Option<Entry>
    ensures { result ≡ row_entry row }
{
    let connection = match row.standing {
        Standing::Empty => return None,
        Standing::Served(call) => Connection::WithUser(call),
        Standing::Joined { partner, alerting } => Connection::WithPartner { partner, alerting },
    };
    Some(Entry {
        leg: row.leg,
        connection,
    })
}

// The party whose call has the reference.
#[tactic(auto, using(crate::proofs::PartyLaws::named_found, crate::proofs::PartyLaws::named_nowhere))]
pub fn named(rows: &[Row], reference: CallReference) -> Option<Party>
    ensures { result ≡ named_in reference.0 (taken rows.now) }
{
    find_row(rows, Key::Reference(reference)).and_then(party_of)
}

// The party whose call has the LinkId. It stands beside `named`: two keys, a line each.
#[tactic(auto, using(crate::proofs::PartyLaws::linked_found, crate::proofs::PartyLaws::linked_nowhere))]
pub fn linked(rows: &[Row], id: LinkId) -> Option<Party>
    ensures { result ≡ find_in (has_party_link_id id.0) (calls (taken rows.now)) }
{
    find_row(rows, Key::LinkId(id)).and_then(party_of)
}

// The entry of the leg.
#[tactic(auto, using(crate::proofs::PartyLaws::entry_found, crate::proofs::PartyLaws::entry_nowhere))]
pub fn entry_at(rows: &[Row], leg: u32) -> Option<Entry>
    ensures { result ≡ entry_at leg (taken rows.now) }
{
    find_row(rows, Key::Leg(leg)).and_then(entry_of)
}
