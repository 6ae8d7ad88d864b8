// The octets of an answer, put one after the other into a buffer that has room for them.
ghost use Rattle.std.specs.Prelude.{◌≡◌, ◌≤◌, length};
ghost use Rattle.filling.specs.Code.Putting.{PutGivenRoom};
ghost use Rattle.component.specs.declared.Answer.TheVariants.{LinkIdResult};
ghost use Rattle.component.specs.Answers.{integer, reject_octets, answer_octets};
ghost use Rattle.component.specs.Code.Writers.{identified};

use crate::writing::{put_integer, put_object};
use crate::{Answer, ECT_LINK_ID_REQUEST, LINK_ID_NOT_ASSIGNED, Reject};
use filling::Filling;
use octets::{Integer, IntegerOctets, LinkId};

// How many octets an integer element takes.
fn integer_len(o: IntegerOctets) -> u8
    ensures { (result ≡ length (integer o)) × (result ≤ 4) }
{
    match o {
        IntegerOctets::One(_) => 3,
        IntegerOctets::Two(_, _) => 4,
    }
}

// The tag, the length, which counts `more` octets to follow, and the invoke identifier. At most 14: the length is an
// octet.
#[tactic(auto, using(crate::proofs::WriterLaws::start))]
fn put_start(tag: u8, id: IntegerOctets, more: u8, out: &mut Filling)
    requires { more ≤ 14 }
    ensures { PutGivenRoom (identified tag id more) out.old out.new }
{
    out.put(&[tag, integer_len(id) + more]);
    put_integer(id, out);
}

// These arms and that of an error differ in their constants; each says the octets of one form as the standard has them.
#[tactic(auto, using(crate::proofs::WriterLaws::follow))]
fn put_reject(reject: Reject, out: &mut Filling)
    ensures { PutGivenRoom (reject_octets reject) out.old out.new }
{
    match reject {
        Reject::Null(problem) => out.put(&[0xa4, 5, 0x05, 0, 0x80, 1, problem]),
        Reject::General(id, problem) => {
            put_start(0xa4, id, 3, out);
            out.put(&[0x80, 1, problem]);
        }
        Reject::Invoke(id, problem) => {
            put_start(0xa4, id, 3, out);
            out.put(&[0x81, 1, problem]);
        }
    }
}

// The result of an EctLinkIdRequest: the identifier, and a sequence of the operation and the LinkId.
fn put_link_id_result(id: IntegerOctets, link: LinkId, out: &mut Filling)
    ensures { PutGivenRoom (answer_octets (LinkIdResult id link)) out.old out.new }
{
    let o = IntegerOctets::from(Integer::from(link));
    let len = 8 + integer_len(o);
    put_start(0xa2, id, len + 2, out);
    out.put(&[0x30, len]);
    put_object(ECT_LINK_ID_REQUEST, out);
    put_integer(o, out);
}

#[tactic(auto, using(crate::proofs::WriterLaws::follow), unfolding(crate::specs::Answers::answer_octets))]
pub fn put_answer(answer: Answer, out: &mut Filling)
    ensures { PutGivenRoom (answer_octets answer) out.old out.new }
{
    match answer {
        Answer::Rejected(r) => put_reject(r, out),
        Answer::Error(id, error) => {
            put_start(0xa3, id, 3, out);
            out.put(&[0x02, 1, error]);
        }
        Answer::LinkIdNotAssigned(id) => {
            put_start(0xa3, id, 8, out);
            put_object(LINK_ID_NOT_ASSIGNED, out);
        }
        Answer::Result(id) => put_start(0xa2, id, 0, out),
        Answer::LinkIdResult(id, link) => put_link_id_result(id, link, out),
    }
}
