// Soundness of a board and of rows, and the counts.
// The rows are walked once, and what has to be compared is gathered in columns: the legs, the references, the LinkIds
// and the joined legs. Numbers that stand side by side are compared in a fraction of the time that rows would take.
#![tactic(auto)]

ghost use Rattle.std.specs.Prelude.{◌≡◌, ◌<◌, ◌≤◌, ◌++◌, length};
ghost use Rattle.arrayvec.specs.ArrayVec.{array_vec_len};
ghost use Rattle.octets.specs.Lists.{any, distinct};
ghost use Rattle.board.specs.Soundness.{sound_rows, sound as sound_board};
ghost use Rattle.board.specs.Counts.{counts, counted_answer};
ghost use Rattle.board.specs.Code.Tallies.{tally_of};
ghost use Rattle.row_soundness.specs.Code.RowKeys.{answers_joined};
ghost use Rattle.soundness.specs.Code.Columns.{one_or_none, gathered, sound_columns, all_answered};

use arrayvec::ArrayVec;
use board::finding::is_occupied;
use board::{Board, Counts, MOST_LINK_IDS, Row, Tally, Unsound, valid_options};
use octets::{CallReference, LinkId};
use row_soundness::keys::{JoinedLeg, answers, joined_leg, leg, link, reference};
use row_soundness::{row_fits, row_tally};

// What the rows have to be compared by.
#[derive(Drop)]
struct Columns {
    legs: ArrayVec<u32, 64>,
    references: ArrayVec<CallReference, 64>,
    links: ArrayVec<LinkId, 64>,
    joined: ArrayVec<JoinedLeg, 64>,
}

// Whether the values are distinct.
fn all_differ<T: PartialEq>(column: &[T]) -> bool
    ensures { result ≡ distinct T.eq column.now }
{
    let mut rest = column;
    while let Some((value, later)) = rest.split_first() {
        if later.contains(value) {
            return false;
        }
        rest = later;
    }
    true
}

// For each low octet a place where a leg with that octet stands. It says only where to look first, which takes two
// fifths of the instructions off the test of 64 joined rows. A column has at most 64 legs, so a place is an octet.
fn places(column: &ArrayVec<JoinedLeg, 64>) -> [u8; 256] {
    let mut places = [0u8; 256];
    for (place, joined) in column.as_slice().iter().enumerate() {
        places[(joined.leg % 256) as usize] = place as u8;
    }
    places
}

// Whether a leg answers to `a`; the one at place `first` is tried before the others.
fn is_answered(a: JoinedLeg, first: u8, legs: &[JoinedLeg]) -> bool
    ensures { result ≡ any (answers_joined a) legs.now }
{
    legs.get(usize::from(first)).is_some_and(|b| answers(a, *b))
        || legs.iter().any(|b| answers(a, *b))
}

// Whether each joined leg has another as its partner that is joined back to it, not both alerting.
fn all_joined_back(column: &ArrayVec<JoinedLeg, 64>) -> bool
    ensures { result ≡ all_answered column.now.items }
{
    let first = places(column);
    let legs = column.as_slice();
    legs.iter().all(|a| a.leg != a.partner
        && is_answered(*a, first[(a.partner % 256) as usize], legs))
}

// Room is asked for, not tested: a column holds 64 rows, and would have no answer to one more.
fn add<T: Drop>(column: &mut ArrayVec<T, 64>, value: Option<T>)
    requires { array_vec_len column.old < 64 }
    ensures { column.new.items ≡ column.old.items ++ one_or_none value }
{
    if let Some(value) = value {
        column.push(value);
    }
}

// The rows read into columns; None where a row by itself does not obey the rules.
fn gather(rows: &[Row; 64]) -> Option<Columns>
    ensures { result ≡ gathered rows.now }
{
    let mut columns = Columns {
        legs: ArrayVec::new(),
        references: ArrayVec::new(),
        links: ArrayVec::new(),
        joined: ArrayVec::new(),
    };
    for row in rows {
        if !row_fits(*row) {
            return None;
        }
        // An empty row has nothing to add, and most are.
        if is_occupied(row.standing) {
            add(&mut columns.legs, leg(*row));
            add(&mut columns.references, reference(*row));
            add(&mut columns.links, link(*row));
            add(&mut columns.joined, joined_leg(*row));
        }
    }
    Some(columns)
}

fn sound_columns(columns: &Columns) -> bool
    ensures { result ≡ sound_columns columns.now }
{
    all_differ(columns.legs.as_slice())
        && all_differ(columns.references.as_slice())
        && all_differ(columns.links.as_slice())
        && columns.links.len() <= MOST_LINK_IDS
        && all_joined_back(&columns.joined)
}

#[tactic(auto, using(crate::proofs::ColumnSoundness::some_gathered, crate::proofs::ColumnSoundness::none_gathered))]
pub fn sound_rows(rows: [Row; 64]) -> bool
    ensures { result ≡ sound_rows rows }
{
    gather(&rows).is_some_and(|columns| sound_columns(&columns))
}

#[tactic(auto, unfolding(board::specs::Soundness::sound))]
pub fn sound(board: Board) -> bool
    ensures { result ≡ sound_board board }
{
    valid_options(board.options) && sound_rows(board.rows)
}

// What the rows count for, before joined rows are halved.
#[tactic(auto, using(octets::proofs::Loops::counting, board::proofs::Rows::tally_all))]
pub fn tally(rows: &[Row]) -> Tally
    ensures { result ≡ tally_of rows.now }
{
    let mut tally = Tally::default();
    for row in rows {
        let own = row_tally(*row);
        tally.legs += own.legs;
        tally.joined += own.joined;
        tally.links += own.links;
    }
    tally
}

// The counts of the board's rows, once they are found sound; the options do not matter.
#[tactic(auto, unfolding(board::specs::Counts::counts, board::specs::Code::Tallies::tally_of))]
pub fn count(board: Board) -> Result<Counts, Unsound>
    ensures { counted_answer result ≡ counts board.rows }
{
    if !sound_rows(board.rows) {
        return Err(Unsound);
    }
    Ok(tally(&board.rows).into())
}
