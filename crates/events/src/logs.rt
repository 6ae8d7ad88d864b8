// A log as records: they follow each other with nothing between.
ghost use Rattle.std.specs.Prelude.{◌≡◌};
ghost use Rattle.events.specs.Code.RecordValues.{front_split, record_split};
ghost use Rattle.events.specs.Code.Pieces.{whole_in};

use crate::records::record_length;

// The record in front of a log, as long as its kind or cut where the log ends, and the octets behind it; `None` where
// the log has ended.
pub fn split_record(log: &[u8]) -> Option<(&[u8], &[u8])>
    ensures { record_split result ≡ front_split log.now }
{
    let kind = log.first()?;
    Some(log.split_at(record_length(*kind).min(log.len())))
}

// The whole records in front of a piece of a log: how many octets they have, and how many they are. What is behind them
// goes on behind the piece.
#[derive(Clone, Copy)]
pub struct WholeRecords {
    pub octets: usize,
    pub count: usize,
}

pub fn whole_records(piece: &[u8]) -> WholeRecords
    ensures { result ≡ whole_in piece.now }
{
    let mut count = 0;
    let mut rest = piece;
    while let Some((record, later)) = split_record(rest) {
        if record.len() < record_length(record[0]) {
            break;
        }
        count += 1;
        rest = later;
    }
    WholeRecords {
        octets: piece.len() - rest.len(),
        count,
    }
}
