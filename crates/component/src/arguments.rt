// The arguments of an invoke whose operation is an object identifier of the supplementary service.
ghost use Rattle.std.specs.Prelude.{◌≡◌, option_copied};
ghost use Rattle.component.specs.Arguments.{identified_in, arguments_in};

use crate::invoke::{contents, is_ect_object};
use elements::values::{read_integer, read_object};

// The octets behind the identifier of an invoke.
#[tactic(auto, unfolding(crate::specs::Arguments::identified_in))]
fn read_identified(component: &[u8]) -> Option<&[u8]>
    ensures { option_copied result ≡ identified_in component.now }
{
    let [0xa1, framed @ ..] = component else {
        return None;
    };
    let (_, rest) = read_integer(contents(framed)?)?;
    Some(rest)
}

// The octets behind the operation, where it is the object identifier with this last number.
#[tactic(auto, unfolding(crate::specs::Arguments::arguments_in, crate::specs::Arguments::behind_operation))]
pub fn read_arguments(component: &[u8], last: u8) -> Option<&[u8]>
    ensures { option_copied result ≡ arguments_in last component.now }
{
    let rest = read_identified(component)?;
    let (object, arguments) = read_object(rest)?;
    if !is_ect_object(object, last) {
        return None;
    }
    Some(arguments)
}
