// Elements put into a buffer that is being filled. Where it has no room for one, nothing changes.
ghost use Rattle.filling.specs.Code.Putting.{PutIfRoom};
ghost use Rattle.component.specs.Answers.{element, integer};
ghost use Rattle.component.specs.Reading.{ect_object};

use crate::invoke::ect_object;
use filling::Filling;
use octets::IntegerOctets;

pub fn put_integer(o: IntegerOctets, out: &mut Filling)
    ensures { PutIfRoom (integer o) out.old out.new }
{
    match o {
        IntegerOctets::One(a) => out.put(&[0x02, 1, a]),
        IntegerOctets::Two(a, b) => out.put(&[0x02, 2, a, b]),
    }
}

// An object identifier of the supplementary service, with this last number.
pub fn put_object(last: u8, out: &mut Filling)
    ensures { PutIfRoom (element 0x06 (ect_object last)) out.old out.new }
{
    let [a, b, c, d, e, f] = ect_object(last);
    out.put(&[0x06, 6, a, b, c, d, e, f]);
}
