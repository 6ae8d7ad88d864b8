// The invokes that a terminal sends, written for test sets as the component reads them.
#![tactic(auto)]

ghost use Rattle.std.specs.Prelude.{◌≡◌};
ghost use Rattle.octets.specs.Numbers.{fewest};
ghost use Rattle.filling.specs.Code.Putting.{PutGivenRoom};
ghost use Rattle.invokes.specs.Invokes.{operation_octets};
ghost use Rattle.invokes.specs.Contract.{Writes};

use component::writing::{put_integer, put_object};
use component::{ECT_EXECUTE, ECT_LINK_ID_REQUEST, EXPLICIT_ECT_EXECUTE, Operation};
use filling::Filling;
use octets::{Integer, IntegerOctets, InvokeIdentifier};
use thiserror::Error;

// Why an invoke was not written: the buffer has fewer than 32 octets.
#[derive(Clone, Copy, Debug, Error)]
#[error("the buffer has fewer than 32 octets")]
pub struct BufferTooSmall;

// An invoke identifier in the fewest octets. A function of its own, which wrong builds of the writer change.
fn identifier_octets(identifier: InvokeIdentifier) -> IntegerOctets
    ensures { result ≡ fewest identifier.0 }
{
    Integer::from(identifier).into()
}

#[tactic(auto, using(component::proofs::WriterLaws::then_integer))]
fn put_operation(operation: Operation, out: &mut Filling)
    ensures { PutGivenRoom (operation_octets operation) out.old out.new }
{
    match operation {
        Operation::EctExecute => put_integer(IntegerOctets::One(ECT_EXECUTE), out),
        Operation::ExplicitEctExecute(link) => {
            put_object(EXPLICIT_ECT_EXECUTE, out);
            put_integer(Integer::from(link).into(), out);
        }
        Operation::EctLinkIdRequest => put_object(ECT_LINK_ID_REQUEST, out),
    }
}

// The octets of the invoke in the front of the buffer, which may have any content and length, and how many they are, as
// the buffer is the caller's; or a refusal that leaves it.
pub fn write_invoke(
    operation: Operation,
    identifier: InvokeIdentifier,
    buffer: &mut [u8],
) -> Result<usize, BufferTooSmall>
    ensures { Writes operation identifier buffer.old result buffer.new }
{
    if buffer.len() < 32 {
        return Err(BufferTooSmall);
    }
    // The length octet counts the contents, so they come first.
    let mut contents = Filling::new(buffer, 2);
    put_integer(identifier_octets(identifier), &mut contents);
    put_operation(operation, &mut contents);
    let end = contents.end();
    buffer[0] = 0xa1;
    buffer[1] = (end - 2) as u8;
    Ok(end)
}
