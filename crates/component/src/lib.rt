// Components of remote operations: what an invoke asks for, and the answers to it.
#![tactic(auto)]

mod answers;
pub mod arguments;
mod invoke;
pub mod writing;

ghost use Rattle.std.specs.Prelude.{◌≡◌};
ghost use Rattle.component.specs.Reading.{reading};
ghost use Rattle.component.specs.Answers.{encoded};

use filling::Filling;
use octets::{IntegerOctets, LinkId};

// The problems of a Reject, by the standard's names: general ones, and then an invoke's.
const UNRECOGNIZED_COMPONENT: u8 = 0;

const MISTYPED_COMPONENT: u8 = 1;

const BADLY_STRUCTURED_COMPONENT: u8 = 2;

pub const UNRECOGNIZED_OPERATION: u8 = 1;

const MISTYPED_ARGUMENT: u8 = 2;

// The operations of the supplementary service, and an error: EctExecute by its local value, the others by the last
// number of their object identifiers.
pub const ECT_EXECUTE: u8 = 6;

pub const EXPLICIT_ECT_EXECUTE: u8 = 0x01;

pub const SUBADDRESS_TRANSFER: u8 = 0x03;

pub const ECT_LINK_ID_REQUEST: u8 = 0x04;

pub const ECT_INFORM: u8 = 0x05;

const LINK_ID_NOT_ASSIGNED: u8 = 0x15;

// What an invoke asks for. A closed set: the definitions match on it.
#[derive(Clone, Copy)]
pub enum Operation {
    EctExecute,
    ExplicitEctExecute(LinkId),
    EctLinkIdRequest,
}

// A Reject, by its problem's number: with NULL in place of the invoke identifier and a general problem,
// or with the identifier as received and a general or an invoke problem.
// The problem is any octet, as an error's number is: `encode` is asked for any, and an enum would ask more of callers.
#[derive(Clone, Copy)]
pub enum Reject {
    Null(u8),
    General(IntegerOctets, u8),
    Invoke(IntegerOctets, u8),
}

// What a component is read as: the three cases that the definitions name. An invoke has its identifier as received.
#[derive(Clone, Copy)]
pub enum Reading {
    Ignored,
    Rejected(Reject),
    Invoked(IntegerOctets, Operation),
}

// The component that answers, with the identifier of the invoke as received.
#[derive(Clone, Copy)]
pub enum Answer {
    Rejected(Reject),
    // A general error, by its number: any octet, as a Reject's problem is.
    Error(IntegerOctets, u8),
    LinkIdNotAssigned(IntegerOctets),
    Result(IntegerOctets),
    LinkIdResult(IntegerOctets, LinkId),
}

// A component to be sent: as many octets as the count says, then zeros. A reply record sends all of them, and a vector
// would have nothing behind its items.
#[derive(Clone, Copy)]
pub struct Component {
    pub octets: [u8; 32],
    pub count: u8,
}

// Reads a component of any length and content.
#[tactic(auto, unfolding(crate::specs::Reading::reading))]
pub fn read(component: &[u8]) -> Reading
    ensures { result ≡ reading component.now }
{
    match component {
        [0xa2..=0xa4, ..] => Reading::Ignored,
        [0xa1, framed @ ..] => match invoke::read_framed(framed) {
            Ok((id, operation)) => Reading::Invoked(id, operation),
            Err(reject) => Reading::Rejected(reject),
        },
        _ => Reading::Rejected(Reject::Null(UNRECOGNIZED_COMPONENT)),
    }
}

// The octets of an answer.
#[tactic(auto, using(crate::proofs::WriterLaws::encoding))]
pub fn encode(answer: Answer) -> Component
    ensures { result ≡ encoded answer }
{
    let mut octets = [0u8; 32];
    let mut out = Filling::new(&mut octets, 0);
    answers::put_answer(answer, &mut out);
    let count = out.end() as u8;
    Component { octets, count }
}
