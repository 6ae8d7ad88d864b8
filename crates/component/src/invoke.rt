// What an invoke asks for: its identifier, its operation and the operation's argument, each taken from the octets
// that are left; or the Reject that answers it.
ghost use Rattle.std.specs.Prelude.{◌≡◌, option_copied};
ghost use Rattle.component.specs.Code.Frames.{framed_contents};
ghost use Rattle.component.specs.Code.Invokes.{operation_read, invoke_read};
ghost use Rattle.octets.specs.Lists.{same_octets};
ghost use Rattle.elements.specs.Elements.{first_element};
ghost use Rattle.elements.specs.Values.{integer_in};
ghost use Rattle.component.specs.Reading.{ect_object, local_reading, link_id_reading, global_reading};
ghost use Rattle.component.specs.Reading.{identified_reading, invoke_reading, framed_reading};

use crate::{
    BADLY_STRUCTURED_COMPONENT, ECT_EXECUTE, ECT_LINK_ID_REQUEST, EXPLICIT_ECT_EXECUTE,
    MISTYPED_ARGUMENT, MISTYPED_COMPONENT, Operation, Reject, UNRECOGNIZED_OPERATION,
};
use elements::are_elements;
use elements::values::{read_integer, read_object};
use octets::{Integer, IntegerOctets, LinkId};

// The object identifier of the supplementary service with this last number.
pub(crate) fn ect_object(last: u8) -> [u8; 6]
    ensures { result ≡ ect_object last }
{
    [0x04, 0x00, 0x82, 0x71, 0x01, last]
}

// Whether an object identifier is that of the supplementary service, with this last number.
#[tactic(auto, using(crate::proofs::ReadingLaws::pointwise_same))]
pub fn is_ect_object(contents: &[u8], last: u8) -> bool
    ensures { result ≡ same_octets contents.now (ect_object last) }
{
    contents == ect_object(last).as_slice()
}

// The third element of an ExplicitEctExecute: a LinkId.
fn read_link_id(id: IntegerOctets, s: &[u8]) -> Result<Operation, Reject>
    ensures { operation_read id result ≡ link_id_reading id (integer_in (first_element s.now)) }
{
    let Some((octets, _)) = read_integer(s) else {
        return Err(Reject::Invoke(id, MISTYPED_ARGUMENT));
    };
    Ok(Operation::ExplicitEctExecute(LinkId::from(Integer::from(octets))))
}

// A local operation value.
fn read_local(id: IntegerOctets, value: IntegerOctets) -> Result<Operation, Reject>
    ensures { operation_read id result ≡ local_reading id value }
{
    if Integer::from(value) == Integer(i16::from(ECT_EXECUTE)) {
        return Ok(Operation::EctExecute);
    }
    Err(Reject::Invoke(id, UNRECOGNIZED_OPERATION))
}

// An operation value that is an object identifier, and the octets after it.
fn read_global(id: IntegerOctets, value: &[u8], rest: &[u8]) -> Result<Operation, Reject>
    ensures { operation_read id result ≡ global_reading id value.now rest.now }
{
    if is_ect_object(value, EXPLICIT_ECT_EXECUTE) {
        return read_link_id(id, rest);
    }
    if is_ect_object(value, ECT_LINK_ID_REQUEST) {
        return Ok(Operation::EctLinkIdRequest);
    }
    Err(Reject::Invoke(id, UNRECOGNIZED_OPERATION))
}

// The second element: an operation value.
#[tactic(auto, unfolding(crate::specs::Reading::identified_reading))]
fn read_operation(id: IntegerOctets, s: &[u8]) -> Result<Operation, Reject>
    ensures { operation_read id result ≡ identified_reading id s.now }
{
    if let Some((octets, _)) = read_integer(s) {
        return read_local(id, octets);
    }
    let Some((object, rest)) = read_object(s) else {
        return Err(Reject::General(id, MISTYPED_COMPONENT));
    };
    read_global(id, object, rest)
}

// The contents of an invoke, behind its tag: the length octet counts them, and they are whole elements.
pub fn contents(s: &[u8]) -> Option<&[u8]>
    ensures { option_copied result ≡ framed_contents s.now }
{
    let [len, contents @ ..] = s else {
        return None;
    };
    if usize::from(*len) != contents.len() || !are_elements(contents, 4) {
        return None;
    }
    Some(contents)
}

// The octets after the tag of an invoke: its length and its contents, whose first element is the identifier.
#[tactic(auto, unfolding(crate::specs::Reading::invoke_reading))]
pub fn read_framed(s: &[u8]) -> Result<(IntegerOctets, Operation), Reject>
    ensures { invoke_read result ≡ framed_reading s.now }
{
    let Some(contents) = contents(s) else {
        return Err(Reject::Null(BADLY_STRUCTURED_COMPONENT));
    };
    let Some((id, rest)) = read_integer(contents) else {
        return Err(Reject::Null(MISTYPED_COMPONENT));
    };
    Ok((id, read_operation(id, rest)?))
}
