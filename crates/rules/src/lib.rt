// The rules of document 01 as definitions (specs/) and the theorems about them (proofs/).
// The code that is proved equal to them is in the crate ect.
#![tactic(auto)]

use board::Party;
use component::Answer;
use octets::{IntegerOctets, LinkId};

// What a component comes to: a closed set of data, on which the definitions match too.
#[derive(Clone, Copy)]
pub enum Service {
    // Nothing is written.
    Silent,
    // An answer that changes nothing: a Reject, an error, or a LinkId that the call has already.
    Respond(Answer),
    // A new LinkId for the named call.
    AssignLinkId(LinkId, IntegerOctets),
    // A transfer of the named call and another.
    Transfer {
        named: Party,
        other: Party,
        identifier: IntegerOctets,
    },
}

// A number as it is told: its mark, which is no presentation as a `PartyNumber` has it, and its type and digits only
// where the mark is 1.
// The mark is an octet and the count stands beside 15 octets, as in the record: a caller may have any number told, and
// kinds of marks or a bound on the count would ask more of it.
#[derive(Clone, Copy)]
pub struct TellNumber {
    pub mark: u8,
    pub type_of_number: u8,
    pub count: u8,
    pub digits: [u8; 15],
}
