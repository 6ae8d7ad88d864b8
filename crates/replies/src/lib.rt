// The reply records of one event: built by value, so that a refusal has written nothing.
#![tactic(auto)]

ghost use Rattle.std.specs.Prelude.{◌≡◌, [], ◌∷◌, ◌++◌, ◌+◌, ◌≤◌, length};
ghost use Rattle.rules.specs.Replies.{Reply, Tell, Drop, Gone, PassOn, octets, record_octets};
ghost use Rattle.rules.specs.Replies.{mark_only, number_as_told, typed, untyped_tell, typed_tell, told};
ghost use Rattle.rules.specs.Replies.{facility, transferred_active, given, inform_record, answering_party_told};
ghost use Rattle.octets.specs.Numbers.{four};
ghost use Rattle.replies.specs.Code.Writing.{out_of, rendered, written, transfer_records};
ghost use Rattle.replies.specs.Code.Writing.{message_number, description_number, request_number};

use Description::{TransferredActive, TransferredAlerting};
use Message::{Facility, Notify};
use arrayvec::ArrayVec;
use board::{PartyNumber, RuleSet};
use component::{Answer, encode};
use octets::{CallReference, IntegerOctets};
use private_transfers::Indication;
use rules::TellNumber;

// The message in which a far party is told.
#[derive(Clone, Copy)]
enum Message {
    Facility = 0,
    Notify = 1,
}

// What it is told of the call.
#[derive(Clone, Copy)]
enum Description {
    TransferredAlerting = 0xe9,
    TransferredActive = 0xea,
}

// The octets of an event's replies, at most 128, the buffer that the rules ask for: the first `len`, and zeros behind
// them. An array, so that callers copy it like any value.
#[derive(Clone, Copy)]
pub struct Out {
    pub octets: [u8; 128],
    pub len: usize,
}

// The octets of the records so far.
#[derive(Drop)]
struct Records {
    octets: ArrayVec<u8, 128>,
}

// A far party of a transfer: its call with the served user, its leg, whether that alerts, and its number.
#[derive(Clone, Copy)]
pub struct FarParty {
    pub reference: CallReference,
    pub leg: u32,
    pub alerts: bool,
    pub number: TellNumber,
}

// A leg, and its party's number as it is told.
#[derive(Clone, Copy)]
pub struct NumberedLeg {
    pub leg: u32,
    pub number: TellNumber,
}

// The marks of a number, octets as in the record: unknown or not sent, given, withheld.
const UNKNOWN: u8 = 0;

const GIVEN: u8 = 1;

const WITHHELD: u8 = 2;

fn mark_only(mark: u8) -> TellNumber
    ensures { result ≡ mark_only mark }
{
    TellNumber {
        mark,
        type_of_number: 0,
        count: 0,
        digits: [0u8; 15],
    }
}

// A number that is unknown, or not sent.
pub fn unknown() -> TellNumber
    ensures { result ≡ mark_only 0 }
{
    mark_only(UNKNOWN)
}

// A number whose digits are restricted.
pub fn withheld() -> TellNumber
    ensures { result ≡ mark_only 2 }
{
    mark_only(WITHHELD)
}

// A number of a type and so many digits.
pub fn given(type_of_number: u8, count: u8, digits: [u8; 15]) -> TellNumber
    ensures { result ≡ given type_of_number count digits }
{
    TellNumber {
        mark: GIVEN,
        type_of_number,
        count,
        digits,
    }
}

// Whether its Tell has its type.
fn is_typed(number: TellNumber) -> bool
    ensures { result ≡ typed number }
{
    number.mark == GIVEN && matches!(number.type_of_number, 1 | 2)
}

// A far party's number as it is told. Digits that are restricted are withheld, so they never reach the octets.
pub fn number_as_told(number: PartyNumber) -> TellNumber
    ensures { result ≡ number_as_told number }
{
    if number.count == 0 {
        return unknown();
    }
    if number.presentation == 1 {
        return withheld();
    }
    given(number.type_of_number, number.count, number.digits)
}

// A record of its head and of octets that come with their zeros.
fn joined<const N: usize>(head: &[u8], rest: &[u8]) -> [u8; N]
    requires { length head.now + length rest.now ≡ N }
    ensures { result ≡ head.now ++ rest.now }
{
    let mut octets = [0u8; N];
    // A slice: a part of an array of N octets is not borrow checked where it is lent straight.
    let all = &mut octets[..];
    all[..head.len()].copy_from_slice(head);
    all[head.len()..].copy_from_slice(rest);
    octets
}

#[tactic(auto, unfolding(component::specs::Answers::encoded))]
fn reply_record(reference: CallReference, answer: Answer) -> [u8; 36]
    ensures { result ≡ record_octets (Reply reference.0 answer) }
{
    let encoded = encode(answer);
    let [high, low] = reference.0.to_be_bytes();
    joined(&[0x81, high, low, encoded.count], &encoded.octets)
}

fn drop_record(reference: CallReference) -> [u8; 3]
    ensures { result ≡ record_octets (Drop reference.0) }
{
    let [high, low] = reference.0.to_be_bytes();
    [0x83, high, low]
}

fn gone_record(leg: u32) -> [u8; 5]
    ensures { result ≡ record_octets (Gone leg) }
{
    let [a, b, c, d] = leg.to_be_bytes();
    [0x84, a, b, c, d]
}

// What goes before a Tell's type of number or digit count.
fn tell_head(
    kind: u8,
    leg: u32,
    message: Message,
    description: Description,
    mark: u8,
    request: bool,
) -> [u8; 9]
    ensures { result ≡ kind ∷ (four leg ++ (message_number message ∷ description_number description ∷ mark
        ∷ request_number request ∷ [])) }
{
    let [a, b, c, d] = leg.to_be_bytes();
    [
        kind,
        a,
        b,
        c,
        d,
        message as u8,
        description as u8,
        mark,
        u8::from(request),
    ]
}

fn untyped_tell(
    leg: u32,
    message: Message,
    description: Description,
    number: TellNumber,
    request: bool,
) -> [u8; 25]
    ensures { result ≡ untyped_tell leg (message_number message) (description_number description) number
        (request_number request) }
{
    let head = tell_head(0x82, leg, message, description, number.mark, request);
    let rest: [u8; 16] = joined(&[number.count], &number.digits);
    joined(&head, &rest)
}

fn typed_tell(
    leg: u32,
    message: Message,
    description: Description,
    number: TellNumber,
    request: bool,
) -> [u8; 26]
    ensures { result ≡ typed_tell leg (message_number message) (description_number description) number
        (request_number request) }
{
    let head = tell_head(0x86, leg, message, description, number.mark, request);
    let rest: [u8; 17] = joined(&[number.type_of_number, number.count], &number.digits);
    joined(&head, &rest)
}

fn pass_on_record(leg: u32, count: u8, component: [u8; 64]) -> [u8; 70]
    ensures { result ≡ record_octets (PassOn leg count component) }
{
    let [a, b, c, d] = leg.to_be_bytes();
    joined(&[0x85, a, b, c, d, count], &component)
}

impl Out {
    // The octets written.
    pub fn written(&self) -> &[u8]
        ensures { result.now ≡ written self.now }
    {
        self.octets.get(..self.len).unwrap_or(&self.octets)
    }
}

impl Records {
    // With one record more.
    fn with(mut self, octets: &[u8]) -> Records
        requires { length self.octets.items + length octets.now ≤ 128 }
        ensures items { result.octets.items ≡ self.octets.items ++ octets.now }
        ensures len { length result.octets.items ≡ length self.octets.items + length octets.now }
    {
        self.octets.try_extend_from_slice(octets).unwrap();
        self
    }

    // With a Tell, of the kind that its number asks for.
    #[tactic(auto, unfolding(rules::specs::Replies::octets))]
    fn tell(
        self,
        leg: u32,
        message: Message,
        description: Description,
        number: TellNumber,
        request: bool,
    ) -> Records
        requires { length self.octets.items ≤ 102 }
        ensures items { result.octets.items ≡ self.octets.items ++ octets
            (Tell leg (message_number message) (description_number description) number (request_number request) ∷ []) }
        ensures len { length result.octets.items ≤ length self.octets.items + 26 }
    {
        if is_typed(number) {
            return self.with(&typed_tell(leg, message, description, number, request));
        }
        self.with(&untyped_tell(leg, message, description, number, request))
    }

    // With what a transfer tells a party of the other: by American rules nothing while it alerts.
    fn told(self, rules: RuleSet, party: FarParty, other: FarParty) -> Records
        requires { length self.octets.items ≤ 102 }
        ensures items { result.octets.items ≡ self.octets.items ++ octets
            (told rules party.leg party.alerts other.alerts other.number) }
        ensures len { length result.octets.items ≤ length self.octets.items + 26 }
    {
        let leg = party.leg;
        let number = other.number;
        if party.alerts {
            return match rules {
                RuleSet::European => self.tell(leg, Notify, TransferredActive, number, false),
                RuleSet::American => self,
            };
        }
        if other.alerts {
            return self.tell(leg, Facility, TransferredAlerting, unknown(), true);
        }
        self.tell(leg, Facility, TransferredActive, number, true)
    }

    // With what an answer tells a leg of the other's number.
    fn answered(self, leg: u32, number: TellNumber) -> Records
        requires { length self.octets.items ≤ 102 }
        ensures items { result.octets.items ≡ self.octets.items
            ++ octets (Tell leg facility transferred_active number 0 ∷ []) }
        ensures len { length result.octets.items ≤ length self.octets.items + 26 }
    {
        self.tell(leg, Facility, TransferredActive, number, false)
    }

    fn finish(self) -> Out
        ensures { result ≡ out_of self.octets.items }
    {
        let len = self.octets.len();
        let mut octets = [0u8; 128];
        octets[..len].copy_from_slice(self.octets.as_slice());
        Out { octets, len }
    }
}

fn no_records() -> Records
    ensures { result.octets.items ≡ [] }
{
    Records {
        octets: ArrayVec::new(),
    }
}

// No record.
#[tactic(auto, unfolding(crate::specs::Code::Writing::rendered, rules::specs::Replies::octets))]
pub fn nothing() -> Out
    ensures { result ≡ rendered [] }
{
    no_records().finish()
}

// The answer to a component.
#[tactic(auto, unfolding(crate::specs::Code::Writing::rendered, rules::specs::Replies::octets))]
pub fn reply(reference: CallReference, answer: Answer) -> Out
    ensures { result ≡ rendered (Reply reference.0 answer ∷ []) }
{
    no_records().with(&reply_record(reference, answer)).finish()
}

// The release of a served call.
#[tactic(auto, unfolding(crate::specs::Code::Writing::rendered, rules::specs::Replies::octets))]
pub fn drop_notice(reference: CallReference) -> Out
    ensures { result ≡ rendered (Drop reference.0 ∷ []) }
{
    no_records().with(&drop_record(reference)).finish()
}

// The release of a joined leg, told to its partner.
#[tactic(auto, unfolding(crate::specs::Code::Writing::rendered, rules::specs::Replies::octets))]
pub fn gone(leg: u32) -> Out
    ensures { result ≡ rendered (Gone leg ∷ []) }
{
    no_records().with(&gone_record(leg)).finish()
}

// What an answer tells the partner and, by American rules, after that the leg that answers, each of the other's number.
#[tactic(auto, using(rules::proofs::Lengths::no_octets, rules::proofs::Lengths::two_octets), unfolding(crate::specs::Code::Writing::rendered))]
pub fn answer_told(rules: RuleSet, answering: NumberedLeg, partner: NumberedLeg) -> Out
    ensures { result ≡ rendered (Tell partner.leg facility transferred_active answering.number 0
        ∷ answering_party_told rules answering.leg partner.number) }
{
    let told = no_records().answered(partner.leg, answering.number);
    match rules {
        RuleSet::European => told.finish(),
        RuleSet::American => told.answered(answering.leg, partner.number).finish(),
    }
}

// A component of a joined leg, passed on to its partner.
#[tactic(auto, unfolding(crate::specs::Code::Writing::rendered, rules::specs::Replies::octets))]
pub fn pass_on(partner: u32, count: u8, component: [u8; 64]) -> Out
    ensures { result ≡ rendered (PassOn partner count component ∷ []) }
{
    no_records()
        .with(&pass_on_record(partner, count, component))
        .finish()
}

// What a private exchange says of a call, told to its far party. While the other call alerts the number is ignored.
#[tactic(auto, unfolding(crate::specs::Code::Writing::rendered, rules::specs::Replies::octets))]
pub fn inform_told(leg: u32, indication: Indication, number: TellNumber) -> Out
    ensures { result ≡ rendered (inform_record leg indication number ∷ []) }
{
    let none = no_records();
    let told = match indication {
        Indication::Alerting => none.tell(leg, Notify, TransferredAlerting, unknown(), false),
        Indication::Active => none.tell(leg, Facility, TransferredActive, number, true),
    };
    told.finish()
}

// The records of a transfer, the Reply on the reference of the event.
#[tactic(auto, using(rules::proofs::Lengths::both_octets), unfolding(rules::specs::Replies::octets, component::specs::Answers::answer_octets))]
fn transferred(
    rules: RuleSet,
    reference: CallReference,
    identifier: IntegerOctets,
    named: FarParty,
    other: FarParty,
) -> Records
    ensures { result.octets.items ≡ octets (transfer_records rules reference identifier named other) }
{
    no_records()
        .with(&reply_record(reference, Answer::Result(identifier)))
        .with(&drop_record(named.reference))
        .with(&drop_record(other.reference))
        .told(rules, named, other)
        .told(rules, other, named)
}

// What a transfer writes.
#[tactic(auto, unfolding(crate::specs::Code::Writing::rendered))]
pub fn transfer(
    rules: RuleSet,
    reference: CallReference,
    identifier: IntegerOctets,
    named: FarParty,
    other: FarParty,
) -> Out
    ensures { result ≡ rendered (transfer_records rules reference identifier named other) }
{
    transferred(rules, reference, identifier, named, other).finish()
}
