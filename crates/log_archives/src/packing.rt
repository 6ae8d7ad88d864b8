// Logs packed for the archive.
ghost use Rattle.std.specs.Prelude.{◌≡◌, ◌+◌, ◌≤◌, true, flat_map, map, length};
ghost use Rattle.octets.specs.Lists.{all};
ghost use Rattle.octets.specs.Numbers.{four};
ghost use Rattle.events.specs.Records.{body_length, records};
ghost use Rattle.filling.specs.Code.Putting.{PutGivenRoom};
ghost use Rattle.log_archives.specs.Regrouping.{kind_of, bodies_of, columns};
ghost use Rattle.log_archives.specs.Undoing.{well_formed};
ghost use Rattle.log_archives.specs.Judging.{packed_records, packed};
ghost use Rattle.log_archives.specs.Contract.{Regroups};
ghost use Rattle.log_archives.specs.Code.Columns.{body_at, octets_behind, within};

use crate::judging::{is_fit, judge};
use crate::{MOST_OCTETS, NotRegrouped};
use arrayvec::ArrayVec;
use events::logs::split_record;
use events::records::record_length;
use filling::Filling;

// Where the bodies of a kind begin. A record has four octets at least, so a log of the most octets has at most 16,383,
// and each place fits 16 bits.
type Starts = ArrayVec<u16, 16_384>;

fn find_starts(kind: u8, log: &[u8], starts: &mut Starts)
    requires short { length log.now ≤ 65534 }
    requires formed { all well_formed (records log.now) ≡ true }
    ensures { map (body_at kind log.now) starts.new.items ≡ bodies_of kind (records log.now) }
{
    starts.clear();
    let mut rest = log;
    while let Some((record, later)) = split_record(rest) {
        if record[0] == kind {
            starts.push((log.len() - rest.len() + 1) as u16);
        }
        rest = later;
    }
}

// Puts the octet at one place of each body.
fn put_column(place: usize, log: &[u8], starts: &[u16], out: &mut Filling)
    requires { within place log.now starts.now ≡ true }
    ensures { PutGivenRoom (octets_behind place log.now starts.now) out.old out.new }
{
    for start in starts {
        out.put(&[log[usize::from(*start) + place]]);
    }
}

// Puts the bodies of a kind. Where they begin is found once, and not for each column, in a list that is lent, whatever it
// holds, since an empty one costs as much as a full one to make.
fn put_bodies(kind: u8, log: &[u8], starts: &mut Starts, out: &mut Filling)
    requires short { length log.now ≤ 65534 }
    requires formed { all well_formed (records log.now) ≡ true }
    ensures { PutGivenRoom (columns 0 (body_length kind) (bodies_of kind (records log.now))) out.old out.new }
{
    find_starts(kind, log, starts);
    for place in 0..record_length(kind) - 1 {
        put_column(place, log, starts.as_slice(), out);
    }
}

fn put_grouped(kinds: &[u8], log: &[u8], out: &mut Filling)
    requires short { length log.now ≤ 65534 }
    requires formed { all well_formed (records log.now) ≡ true }
    ensures { PutGivenRoom
        (flat_map (λ kind. columns 0 (body_length kind) (bodies_of kind (records log.now))) kinds.now) out.old out.new }
{
    let mut starts = Starts::new();
    for kind in kinds {
        put_bodies(*kind, log, &mut starts, out);
    }
}

fn put_kinds(log: &[u8], out: &mut Filling)
    ensures { PutGivenRoom (map kind_of (records log.now)) out.old out.new }
{
    let mut rest = log;
    while let Some((record, later)) = split_record(rest) {
        out.put(&[record[0]]);
        rest = later;
    }
}

// The count, high octet first.
fn count_octets(count: u32) -> [u8; 4]
    ensures { result ≡ four count }
{
    count.to_be_bytes()
}

// The option octets, and the records behind them. Nothing is written before all is judged.
fn pack_records(front: &[u8], log: &[u8], target: &mut [u8]) -> Result<usize, NotRegrouped>
    requires short { length log.now ≤ 65534 }
    ensures { Regroups (packed_records front.now (records log.now) (length target.old)) target.old result target.new }
{
    let count = judge(log)?;
    if target.len() < front.len() + 4 + log.len() {
        return Err(NotRegrouped::TargetTooSmall);
    }
    let mut out = Filling::new(target, 0);
    out.put(front);
    out.put(&count_octets(count as u32));
    put_kinds(log, &mut out);
    put_grouped(&[1, 2, 3, 4, 5, 6, 7, 8, 9], log, &mut out);
    Ok(out.end())
}

// Packs a log into the front of the target, and says how many octets that are; or a refusal that leaves the target.
pub fn pack(log: &[u8], target: &mut [u8]) -> Result<usize, NotRegrouped>
    ensures { Regroups (packed log.now (length target.old)) target.old result target.new }
{
    if !is_fit(MOST_OCTETS, log) {
        return Err(NotRegrouped::Unfit);
    }
    let (front, records) = log.split_at(2);
    pack_records(front, records, target)
}
