// Archives unpacked.
ghost use Rattle.std.specs.Prelude.{◌≡◌, ◌≢◌, ◌+◌, ◌*◌, ◌≤◌, ◌<◌, true, [], ◌∷◌, length, MatchOption};
ghost use Rattle.filling.specs.Code.Putting.{PutGivenRoom};
ghost use Rattle.octets.specs.Lists.{all};
ghost use Rattle.events.specs.Records.{body_length};
ghost use Rattle.log_archives.specs.Regrouping.{listed_kinds};
ghost use Rattle.log_archives.specs.Undoing.{listed, octets_of, every_from};
ghost use Rattle.log_archives.specs.Judging.{first_unknown, first_bad, unpacked_records, unpacked_kinds, unpacked};
ghost use Rattle.log_archives.specs.Contract.{Regroups};
ghost use Rattle.log_archives.specs.Code.Tables.{Counted, records_in, joined, InReach, Begun, FirstRead};
ghost use Rattle.log_archives.specs.Code.Unpacking.{kinds_counted, kinds_split};

use crate::judging::{is_fit, refusal_of};
use crate::{BadRecord, MOST_OCTETS, NotRegrouped};
use arrayvec::ArrayVec;
use events::records::record_length;
use filling::Filling;

// The records of an archive that are still to come. By kind, `next` has where the next body begins, and `step` how far
// its octets are apart, since a column has an octet of each body; at 10 `next` has where all bodies end.
#[derive(Clone, Copy)]
struct Undone<'a> {
    kinds: &'a [u8],
    bodies: &'a [u8],
    next: [usize; 11],
    step: [usize; 10],
}

fn is_listed(kind: u8) -> bool
    ensures { result ≡ listed kind }
{
    matches!(kind, 1..=9)
}

// The number of the first kind that is not listed, from 1.
fn find_unknown(kinds: &[u8]) -> Option<usize>
    ensures { result ≡ first_unknown 0 kinds.now }
{
    for (before, kind) in kinds.iter().enumerate() {
        if !is_listed(*kind) {
            return Some(before + 1);
        }
    }
    None
}

fn count_kinds(kinds: &[u8]) -> [usize; 10]
    requires { all listed kinds.now ≡ true }
    ensures { Counted kinds.now result }
{
    let mut counts = [0; 10];
    for kind in kinds {
        counts[usize::from(*kind)] += 1;
    }
    counts
}

// A record: its kind, and the octets that its body has in the columns. The longest record has 70 octets.
fn read_record(bodies: &[u8], kind: u8, start: usize, step: usize) -> ArrayVec<u8, 70>
    requires few { step ≤ 65540 }
    requires in_reach { start + step * body_length kind < length bodies.now + step }
    ensures { result.items ≡ kind ∷ every_from start step (body_length kind) bodies.now }
{
    let length = record_length(kind);
    let mut record = ArrayVec::new();
    record.push(kind);
    let mut place = start;
    while record.len() < length {
        record.push(bodies[place]);
        place += step;
    }
    record
}

impl<'a> Undone<'a> {
    // All records; None where the bodies are not as long as the kinds say. Kind 0 is not listed and has no octets.
    fn new(kinds: &'a [u8], bodies: &'a [u8]) -> Option<Undone<'a>>
        requires few { length kinds.now ≤ 65540 }
        requires listed { all listed kinds.now ≡ true }
        ensures { MatchOption result
            (length bodies.now ≢ octets_of listed_kinds kinds.now) (Begun kinds.now bodies.now) }
    {
        let step = count_kinds(kinds);
        let mut next = [0; 11];
        for kind in 0..10u8 {
            let k = usize::from(kind);
            next[k + 1] = next[k] + step[k] * (record_length(kind) - 1);
        }
        if bodies.len() != next[10] {
            return None;
        }
        Some(Undone {
            kinds,
            bodies,
            next,
            step,
        })
    }

    // Reads the first record that is still to come.
    fn read_first(&mut self) -> Option<ArrayVec<u8, 70>>
        requires { InReach self.old }
        ensures { MatchOption result (records_in self.old ≡ []) (λ r. FirstRead self.old r.items self.new) }
    {
        let (kind, later) = self.kinds.split_first()?;
        let k = usize::from(*kind);
        let record = read_record(self.bodies, *kind, self.next[k], self.step[k]);
        self.next[k] += 1;
        self.kinds = later;
        Some(record)
    }
}

// The first bad one of the records.
fn find_bad(mut undone: Undone<'_>) -> Option<BadRecord>
    requires { InReach undone }
    ensures { result ≡ first_bad 0 (records_in undone.entry) }
{
    let mut number = 0;
    while let Some(record) = undone.read_first() {
        number += 1;
        if let Some(refusal) = refusal_of(record.as_slice()) {
            return Some(BadRecord { number, refusal });
        }
    }
    None
}

fn put_records(mut undone: Undone<'_>, out: &mut Filling)
    requires { InReach undone }
    ensures { PutGivenRoom (joined (records_in undone.entry)) out.old out.new }
{
    while let Some(record) = undone.read_first() {
        out.put(record.as_slice());
    }
}

// The kinds, as many as the count in front of them says, and the octets behind them; None where the count or the kinds
// are cut short. The count is anything up to 2^32 - 1, so it is only compared.
fn split_kinds(counted: &[u8]) -> Option<(&[u8], &[u8])>
    ensures { kinds_split result ≡ kinds_counted counted.now }
{
    let (count, rest) = counted.split_first_chunk::<4>()?;
    rest.split_at_checked(u32::from_be_bytes(*count) as usize)
}

// The option octets, and the records behind them. Nothing is written before all is judged. The records come to as many
// octets as the kinds and the bodies.
fn unpack_records(
    front: &[u8],
    undone: Undone<'_>,
    target: &mut [u8],
) -> Result<usize, NotRegrouped>
    requires { Begun undone.kinds.now undone.bodies.now undone }
    ensures { Regroups (unpacked_records front.now (records_in undone.entry) (length target.old)) target.old result
        target.new }
{
    if let Some(bad) = find_bad(undone) {
        return Err(NotRegrouped::Bad(bad));
    }
    let octets = undone.kinds.len() + undone.bodies.len();
    if target.len() < octets || target.len() - octets < front.len() {
        return Err(NotRegrouped::TargetTooSmall);
    }
    let mut out = Filling::new(target, 0);
    out.put(front);
    put_records(undone, &mut out);
    Ok(out.end())
}

fn unpack_kinds(
    front: &[u8],
    kinds: &[u8],
    bodies: &[u8],
    target: &mut [u8],
) -> Result<usize, NotRegrouped>
    requires { length kinds.now ≤ 65540 }
    ensures { Regroups (unpacked_kinds front.now kinds.now bodies.now (length target.old)) target.old result
        target.new }
{
    if let Some(number) = find_unknown(kinds) {
        return Err(NotRegrouped::UnknownKind(number));
    }
    let Some(undone) = Undone::new(kinds, bodies) else {
        return Err(NotRegrouped::BodiesDisagree);
    };
    unpack_records(front, undone, target)
}

// Unpacks an archive into the front of the target, and says how many octets that are; or a refusal that leaves the
// target.
pub fn unpack(archive: &[u8], target: &mut [u8]) -> Result<usize, NotRegrouped>
    ensures { Regroups (unpacked archive.now (length target.old)) target.old result target.new }
{
    if !is_fit(MOST_OCTETS + 4, archive) {
        return Err(NotRegrouped::Unfit);
    }
    let (front, counted) = archive.split_at(2);
    let Some((kinds, bodies)) = split_kinds(counted) else {
        return Err(NotRegrouped::CutShort);
    };
    unpack_kinds(front, kinds, bodies, target)
}
