// The checks that packing and unpacking share.
ghost use Rattle.std.specs.Prelude.{◌≡◌};
ghost use Rattle.events.specs.EventRecords.{request};
ghost use Rattle.events.specs.Records.{records};
ghost use Rattle.log_archives.specs.Judging.{fit, refusal_in};
ghost use Rattle.log_archives.specs.Code.Judging.{judged};

use crate::{BadRecord, NotRegrouped};
use board::{Options, valid_options};
use events::Refusal;
use events::logs::split_record;
use events::records::read_request;

// Whether the two option octets are there and good, and there are not too many octets.
pub fn is_fit(most: usize, octets: &[u8]) -> bool
    ensures { result ≡ fit most octets.now }
{
    if octets.len() < 2 || octets.len() > most {
        return false;
    }
    valid_options(Options {
        subscribed: octets[0],
        alerting: octets[1],
    })
}

// What a record is refused for.
pub fn refusal_of(event: &[u8]) -> Option<Refusal>
    ensures { result ≡ refusal_in (request event.now) }
{
    read_request(event).err()
}

// Refuses records for the first bad one, else says how many they are.
pub fn judge(log: &[u8]) -> Result<usize, NotRegrouped>
    ensures { result ≡ judged 0 (records log.now) }
{
    let mut number = 0;
    let mut rest = log;
    while let Some((record, later)) = split_record(rest) {
        number += 1;
        if let Some(refusal) = refusal_of(record) {
            return Err(NotRegrouped::Bad(BadRecord { number, refusal }));
        }
        rest = later;
    }
    Ok(number)
}
