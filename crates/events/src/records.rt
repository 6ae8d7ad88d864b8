// Event records: what a record asks for, or why it is none. Places are those of the body, behind the kind.
ghost use Rattle.std.specs.Prelude.{◌≡◌, length, get_or, MatchResult, ◌≢◌};
ghost use Rattle.board.specs.States.{direction_with};
ghost use Rattle.events.specs.Records.{record_length};
ghost use Rattle.events.specs.declared.Refusal.TheVariants.{WrongLength};
ghost use Rattle.events.specs.EventRecords.{field, open_body, ranged, valid_component, of_kind, request};
ghost use Rattle.events.specs.Code.RecordValues.{leg_read, reference_read, request_read};

use crate::Refusal;
use board::{AuxiliaryState, CallState, Direction, PartyNumber, valid_number, valid_reference};
use digits::all_zeros;
use octets::CallReference;

// How many octets the body of each kind has. That of a Release or an Answer is a leg alone.
const OPEN: usize = 24;

const TYPED_OPEN: usize = 25;

const PROGRESS: usize = 3;

const HOLD: usize = 3;

const LEG: usize = 4;

const FACILITY: usize = 35;

const LEG_FACILITY: usize = 69;

const INFORM: usize = 67;

// What a record asks for. A Facility and an Inform have their component, a Leg facility its count and all 64 octets, as
// they are passed on with their zeros. A closed set of data, on which the definitions match too.
#[derive(Clone, Copy)]
pub enum Request<'a> {
    Open {
        reference: CallReference,
        leg: u32,
        direction: Direction,
        number: PartyNumber,
    },
    Progress(CallReference, CallState),
    Hold(CallReference, AuxiliaryState),
    Release(u32),
    Facility(CallReference, &'a [u8]),
    Answer(u32),
    LegFacility(u32, u8, &'a [u8; 64]),
    Inform(CallReference, &'a [u8]),
}

// How many octets a record has: its kind, and the body that its kind has; of a kind that is not listed the kind alone.
pub fn record_length(kind: u8) -> usize
    ensures { result ≡ record_length kind }
{
    let body = match kind {
        1 => OPEN,
        2 => PROGRESS,
        3 => HOLD,
        4 | 6 => LEG,
        5 => FACILITY,
        7 => LEG_FACILITY,
        8 => INFORM,
        9 => TYPED_OPEN,
        _ => 0,
    };
    1 + body
}

// The body, where it is as long as its kind has it.
fn sized<const N: usize>(body: &[u8]) -> Result<&[u8; N], Refusal>
    ensures { MatchResult result
        (λ b. (b.now ≡ body.now) × (length body.now ≡ N)) (λ c. (c ≡ WrongLength) × (length body.now ≢ N)) }
{
    body.as_array().ok_or(Refusal::WrongLength)
}

fn read_reference(octets: [u8; 2]) -> Result<CallReference, Refusal>
    ensures { result ≡ reference_read (field 0 2 octets) }
{
    let reference = CallReference(u16::from_be_bytes(octets));
    if !valid_reference(reference) {
        return Err(Refusal::FieldOutOfRange);
    }
    Ok(reference)
}

// A component of as many octets as the count says, then zeros.
fn valid_component(count: u8, octets: &[u8]) -> bool
    ensures { result ≡ valid_component (length octets.now) count octets.now }
{
    let n = usize::from(count);
    0 < n && n <= octets.len() && all_zeros(&octets[n..])
}

// The fields of an Open, its first seven octets and its number.
fn open_request(front: [u8; 7], number: PartyNumber) -> Result<Request<'static>, Refusal>
    ensures { request_read result ≡ ranged (open_body front number (direction_with (get_or front 6 0))) }
{
    let [r0, r1, l0, l1, l2, l3, direction] = front;
    let reference = read_reference([r0, r1])?;
    let direction = Direction::try_from(direction)?;
    if !valid_number(number) {
        return Err(Refusal::FieldOutOfRange);
    }
    Ok(Request::Open {
        reference,
        leg: u32::from_be_bytes([l0, l1, l2, l3]),
        direction,
        number,
    })
}

fn read_open(body: &[u8]) -> Result<Request<'_>, Refusal>
    ensures { request_read result ≡ of_kind 1 body.now }
{
    let body = sized::<OPEN>(body)?;
    let number = PartyNumber {
        presentation: body[7],
        type_of_number: 0,
        count: body[8],
        digits: *body.last_chunk().unwrap(),
    };
    open_request(*body.first_chunk().unwrap(), number)
}

fn read_typed_open(body: &[u8]) -> Result<Request<'_>, Refusal>
    ensures { request_read result ≡ of_kind 9 body.now }
{
    let body = sized::<TYPED_OPEN>(body)?;
    let number = PartyNumber {
        presentation: body[7],
        type_of_number: body[8],
        count: body[9],
        digits: *body.last_chunk().unwrap(),
    };
    open_request(*body.first_chunk().unwrap(), number)
}

fn read_progress(body: &[u8]) -> Result<Request<'_>, Refusal>
    ensures { request_read result ≡ of_kind 2 body.now }
{
    let [r0, r1, state] = *sized::<PROGRESS>(body)?;
    let reference = read_reference([r0, r1])?;
    // Two of the four states: a TryFrom of CallState would take the others too.
    match state {
        4 => Ok(Request::Progress(reference, CallState::CallDelivered)),
        10 => Ok(Request::Progress(reference, CallState::Active)),
        _ => Err(Refusal::FieldOutOfRange),
    }
}

fn read_hold(body: &[u8]) -> Result<Request<'_>, Refusal>
    ensures { request_read result ≡ of_kind 3 body.now }
{
    let [r0, r1, auxiliary] = *sized::<HOLD>(body)?;
    let reference = read_reference([r0, r1])?;
    Ok(Request::Hold(reference, AuxiliaryState::try_from(auxiliary)?))
}

// The body of a Release or an Answer.
fn read_leg(body: &[u8]) -> Result<u32, Refusal>
    ensures { result ≡ leg_read body.now }
{
    Ok(u32::from_be_bytes(*sized::<LEG>(body)?))
}

fn read_facility(body: &[u8]) -> Result<Request<'_>, Refusal>
    ensures { request_read result ≡ of_kind 5 body.now }
{
    let body = sized::<FACILITY>(body)?;
    let [r0, r1, count, ..] = *body;
    let octets: &[u8; 32] = body.last_chunk().unwrap();
    let reference = read_reference([r0, r1])?;
    if !valid_component(count, octets) {
        return Err(Refusal::FieldOutOfRange);
    }
    Ok(Request::Facility(reference, &octets[..usize::from(count)]))
}

fn read_leg_facility(body: &[u8]) -> Result<Request<'_>, Refusal>
    ensures { request_read result ≡ of_kind 7 body.now }
{
    let body = sized::<LEG_FACILITY>(body)?;
    let [l0, l1, l2, l3, count, ..] = *body;
    let octets: &[u8; 64] = body.last_chunk().unwrap();
    if !valid_component(count, octets) {
        return Err(Refusal::FieldOutOfRange);
    }
    Ok(Request::LegFacility(u32::from_be_bytes([l0, l1, l2, l3]), count, octets))
}

fn read_inform(body: &[u8]) -> Result<Request<'_>, Refusal>
    ensures { request_read result ≡ of_kind 8 body.now }
{
    let body = sized::<INFORM>(body)?;
    let [r0, r1, count, ..] = *body;
    let octets: &[u8; 64] = body.last_chunk().unwrap();
    let reference = read_reference([r0, r1])?;
    if !valid_component(count, octets) {
        return Err(Refusal::FieldOutOfRange);
    }
    Ok(Request::Inform(reference, &octets[..usize::from(count)]))
}

// A kind stays an octet, here and in `record_length`: an enum's cases and its TryFrom would stand beside these two
// matches, and neither would go.
fn read_body(kind: u8, body: &[u8]) -> Result<Request<'_>, Refusal>
    ensures { request_read result ≡ of_kind kind body.now }
{
    match kind {
        1 => read_open(body),
        2 => read_progress(body),
        3 => read_hold(body),
        4 => Ok(Request::Release(read_leg(body)?)),
        5 => read_facility(body),
        6 => Ok(Request::Answer(read_leg(body)?)),
        7 => read_leg_facility(body),
        8 => read_inform(body),
        9 => read_typed_open(body),
        _ => Err(Refusal::UnknownKind),
    }
}

// Reads a record of any length and content. The kind is judged before the length.
#[tactic(auto, using(crate::proofs::RecordLaws::no_kind, crate::proofs::RecordLaws::kind_first))]
pub fn read_request(event: &[u8]) -> Result<Request<'_>, Refusal>
    ensures { request_read result ≡ request event.now }
{
    match event {
        [] => Err(Refusal::WrongLength),
        [kind, body @ ..] => read_body(*kind, body),
    }
}
