// Lookup and counts over rows that are lent as a slice, however many.
#![tactic(auto)]

ghost use Rattle.std.specs.Prelude.{◌≡◌, leb};
ghost use Rattle.octets.specs.Lists.{any, all, distinct};
ghost use Rattle.board.specs.Entries.{taken, link_ids};
ghost use Rattle.board.specs.LinkIds.{most_link_ids};
ghost use Rattle.board.specs.Lookup.{found_answer, lookup as lookup_rows};
ghost use Rattle.board.specs.Counts.{counted_answer, counts};
ghost use Rattle.board.specs.Soundness.{sound_rows};
ghost use Rattle.board.specs.Code.RowTests.{fits, clash, paired};

use board::finding::{Key, find};
use board::{Counts, MOST_LINK_IDS, Row, Unsound};
use octets::CallReference;
use row_soundness::{row_fits, rows_clash, rows_paired};
use soundness::tally;

// The lowest place, counted from 0, with a call of that reference. `board::finding::lookup` is the same of a board: the
// rules name both.
#[tactic(auto, using(board::proofs::Answers::place_answer), unfolding(board::specs::Lookup::lookup))]
pub fn lookup(rows: &[Row], reference: CallReference) -> Option<usize>
    ensures { found_answer result ≡ lookup_rows reference.0 rows.now }
{
    find(rows, Key::Reference(reference))
}

// The same of 64 rows by value. Theorem proofs/Agreement, which docs/ name, says that it agrees with that of a slice.
pub fn lookup_in(rows: [Row; 64], reference: CallReference) -> Option<usize>
    ensures { found_answer result ≡ lookup_rows reference.0 rows }
{
    lookup(&rows, reference)
}

fn all_fit(rows: &[Row]) -> bool
    ensures { result ≡ all fits rows.now }
{
    rows.iter().all(|row| row_fits(*row))
}

fn clashes(row: Row, later: &[Row]) -> bool
    ensures { result ≡ any (clash row) later.now }
{
    later.iter().any(|other| rows_clash(row, *other))
}

// Beside `soundness::all_differ`: one function over a test would quantify over it in its contract, no plainer.
fn none_clash(rows: &[Row]) -> bool
    ensures { result ≡ distinct clash rows.now }
{
    let mut rest = rows;
    while let Some((row, later)) = rest.split_first() {
        if clashes(*row, later) {
            return false;
        }
        rest = later;
    }
    true
}

// Whether one of the rows is the partner of this one, or it needs none. Beside `clashes`, which differs in its test:
// one function over a test would quantify over it in its contract, no plainer.
fn is_paired(row: Row, rows: &[Row]) -> bool
    ensures { result ≡ any (paired row) rows.now }
{
    rows.iter().any(|other| rows_paired(row, *other))
}

fn all_paired(rows: &[Row]) -> bool
    ensures { result ≡ all (λ a. any (paired a) rows.now) rows.now }
{
    rows.iter().all(|row| is_paired(*row, rows))
}

#[tactic(auto, unfolding(board::specs::Code::Tallies::tally_of))]
fn few_link_ids(rows: &[Row]) -> bool
    ensures { result ≡ leb (link_ids (taken rows.now)) most_link_ids }
{
    tally(rows).links <= MOST_LINK_IDS
}

// Rows are held against each other: lent rows may be any number, so no columns of fixed room hold their keys.
#[tactic(auto, using(board::proofs::Rows::sound_by_rows))]
fn sound(rows: &[Row]) -> bool
    ensures { result ≡ sound_rows rows.now }
{
    all_fit(rows) && none_clash(rows) && few_link_ids(rows) && all_paired(rows)
}

// The counts of the rows, once they are found sound. `soundness::count` is the same of a board: the rules name both.
#[tactic(auto, unfolding(board::specs::Counts::counts, board::specs::Code::Tallies::tally_of))]
pub fn count(rows: &[Row]) -> Result<Counts, Unsound>
    ensures { counted_answer result ≡ counts rows.now }
{
    if !sound(rows) {
        return Err(Unsound);
    }
    Ok(tally(rows).into())
}

// The same of 64 rows by value, as `lookup_in`.
pub fn count_in(rows: [Row; 64]) -> Result<Counts, Unsound>
    ensures { counted_answer result ≡ counts rows }
{
    count(&rows)
}
