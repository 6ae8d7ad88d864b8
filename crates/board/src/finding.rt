// Finding rows of the board, by every key that the rules look a row up by.
ghost use Rattle.std.specs.Prelude.{◌≡◌};
ghost use Rattle.octets.specs.Lists.{any, place_from, find as find_in};
ghost use Rattle.board.specs.Entries.{occupied, taken, calls, link_id_in, is_link_id};
ghost use Rattle.board.specs.Lookup.{is_call_of, found_answer, lookup as lookup_rows};
ghost use Rattle.board.specs.Code.Keys.{has_link_id_of, matches_key};
ghost use Rattle.board.specs.LinkIds.{most_link_ids, live, free_link_id, optional_link_id};

use crate::{Board, MOST_LINK_IDS, Row, Standing};
use octets::{CallReference, LinkId};

// What a row is found by: its call's reference, its leg, its call's LinkId; or that it is empty.
// Data: contracts say `matches_key key`. Of a closure each caller would have to show what it returns.
#[derive(Clone, Copy)]
pub enum Key {
    Reference(CallReference),
    Leg(u32),
    LinkId(LinkId),
    Empty,
}

pub fn is_occupied(standing: Standing) -> bool
    ensures { result ≡ occupied standing }
{
    !matches!(standing, Standing::Empty)
}

pub fn is_call_of(standing: Standing, reference: CallReference) -> bool
    ensures { result ≡ is_call_of reference.0 standing }
{
    matches!(standing, Standing::Served(call) if reference == call.reference)
}

fn has_link_id(standing: Standing, id: LinkId) -> bool
    ensures { result ≡ has_link_id_of id.0 standing }
{
    matches!(standing, Standing::Served(call) if call.link == Some(id))
}

fn matches(row: Row, key: Key) -> bool
    ensures { result ≡ matches_key key row }
{
    match key {
        Key::Reference(reference) => is_call_of(row.standing, reference),
        Key::Leg(leg) => is_occupied(row.standing) && leg == row.leg,
        Key::LinkId(id) => has_link_id(row.standing, id),
        Key::Empty => !is_occupied(row.standing),
    }
}

// The lowest place, counted from 0, whose row has the key.
pub fn find(rows: &[Row], key: Key) -> Option<usize>
    ensures { result ≡ place_from (matches_key key) 0 rows.now }
{
    rows.iter().position(|row| matches(*row, key))
}

// The lowest row that has the key.
pub fn find_row(rows: &[Row], key: Key) -> Option<Row>
    ensures { result ≡ find_in (matches_key key) rows.now }
{
    rows.iter().copied().find(|row| matches(*row, key))
}

// Whether a row has the key.
pub fn has(rows: &[Row], key: Key) -> bool
    ensures { result ≡ any (matches_key key) rows.now }
{
    rows.iter().any(|row| matches(*row, key))
}

// The lowest place, counted from 0, with a call of that reference.
#[tactic(auto, using(crate::proofs::Answers::place_answer), unfolding(crate::specs::Lookup::lookup))]
pub fn lookup(board: Board, reference: CallReference) -> Option<usize>
    ensures { found_answer result ≡ lookup_rows reference.0 board.rows }
{
    find(&board.rows, Key::Reference(reference))
}

// The first LinkId that is not live, from `first` upward. With fewer than the most live, one of that many values is
// free. The range counts tries, and indexes nothing.
fn free_from(board: Board, first: LinkId) -> Option<LinkId>
    ensures { result ≡ optional_link_id (free_link_id most_link_ids first.0 (live (calls (taken board.rows)))) }
{
    let mut id = first;
    for _ in 0..MOST_LINK_IDS {
        if !has(&board.rows, Key::LinkId(id)) {
            return Some(id);
        }
        id = id.next();
    }
    None
}

// The LinkId that the board gives next.
pub fn free_link_id(board: Board) -> Option<LinkId>
    ensures { result ≡ optional_link_id (free_link_id most_link_ids board.candidate.0
        (live (calls (taken board.rows)))) }
{
    free_from(board, board.candidate)
}
