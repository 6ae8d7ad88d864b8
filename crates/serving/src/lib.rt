// Serving what a component asks for, on the calls of the board.
#![tactic(auto)]

ghost use Rattle.std.specs.Prelude.{◌≡◌, length};
ghost use Rattle.octets.specs.Lists.{only};
ghost use Rattle.rules.specs.Serving.{error, new_link_id, link_id_request, is_served};
ghost use Rattle.rules.specs.Serving.{execute as executed, execute_explicitly, serve as served};
ghost use Rattle.serving.specs.Code.Parties.{parties_of, paired_on, linked_on, performed_on, free_in};
ghost use Rattle.board.specs.LinkIds.{live};
ghost use Rattle.board.specs.Entries.{link_id_in};

use board::finding::free_link_id;
use board::{Board, MOST_LINK_IDS, Options, Party, RuleSet};
use component::{Answer, Operation, Reading, Reject, UNRECOGNIZED_OPERATION};
use octets::{IntegerOctets, LinkId};
use pairing::{is_partner, only_partner};
use parties::linked;
use rules::Service;
use soundness::tally;

mod pairing;
pub mod parties;

// The general errors of ETS 300 196-1 that are answered. Numbers, as in an `Answer`: of an enum a definition would
// have to give them once more.
const NOT_SUBSCRIBED: u8 = 0;

const INVALID_CALL_STATE: u8 = 7;

const RESOURCE_UNAVAILABLE: u8 = 11;

// A general error, by its number.
fn failed(identifier: IntegerOctets, number: u8) -> Service
    ensures { result ≡ error identifier number }
{
    Service::Respond(Answer::Error(identifier, number))
}

#[tactic(auto, using(crate::proofs::ServingLaws::new_full))]
fn assign_link_id(board: &Board, identifier: IntegerOctets) -> Service
    ensures { result ≡ new_link_id (length (live (parties_of board.now))) identifier (free_in board.now) }
{
    if MOST_LINK_IDS <= tally(&board.rows).links {
        return failed(identifier, RESOURCE_UNAVAILABLE);
    }
    match free_link_id(*board) {
        None => failed(identifier, RESOURCE_UNAVAILABLE),
        Some(id) => Service::AssignLinkId(id, identifier),
    }
}

fn request_link_id(board: &Board, named: Party, identifier: IntegerOctets) -> Service
    ensures { result ≡ link_id_request board.now.candidate.0 (live (parties_of board.now)) identifier
        (link_id_in named.call.link) }
{
    match named.call.link {
        None => assign_link_id(board, identifier),
        Some(id) => Service::Respond(Answer::LinkIdResult(identifier, id)),
    }
}

fn execute(board: &Board, named: Party, identifier: IntegerOctets) -> Service
    ensures { result ≡ executed named identifier (only (paired_on board.now named)) }
{
    let Some(other) = only_partner(board, named) else {
        return failed(identifier, INVALID_CALL_STATE);
    };
    Service::Transfer {
        named,
        other,
        identifier,
    }
}

fn execute_explicitly(board: &Board, named: Party, identifier: IntegerOctets, id: LinkId) -> Service
    ensures { result ≡ execute_explicitly board.now.options named identifier (linked_on board.now id) }
{
    let Some(other) = linked(&board.rows, id) else {
        return Service::Respond(Answer::LinkIdNotAssigned(identifier));
    };
    if is_partner(board.options, named, other) {
        return Service::Transfer {
            named,
            other,
            identifier,
        };
    }
    failed(identifier, INVALID_CALL_STATE)
}

// Board, named party and identifier stay apart, as the rules name them: no term of the rules is all three.
// Operations are a closed set of data, on which the rules match too.
fn perform(board: &Board, named: Party, identifier: IntegerOctets, operation: Operation) -> Service
    ensures { result ≡ performed_on board.now named identifier operation }
{
    match operation {
        Operation::EctExecute => execute(board, named, identifier),
        Operation::ExplicitEctExecute(id) => execute_explicitly(board, named, identifier, id),
        Operation::EctLinkIdRequest => request_link_id(board, named, identifier),
    }
}

// An EctExecute names one call: both must be named by American rules, and where the option says explicit only.
fn is_served(options: Options, operation: Operation) -> bool
    ensures { result ≡ is_served options operation }
{
    match operation {
        Operation::EctExecute => {
            options.rule_set() == RuleSet::European && !options.is_explicit_only()
        }
        Operation::ExplicitEctExecute(_) | Operation::EctLinkIdRequest => true,
    }
}

// What the component of a Facility on the named call comes to.
#[tactic(auto, unfolding(rules::specs::Serving::serve))]
pub fn serve(board: &Board, named: Party, reading: Reading) -> Service
    ensures { result ≡ served board.now.options board.now.candidate.0 (parties_of board.now) named reading }
{
    match reading {
        Reading::Ignored => Service::Silent,
        Reading::Rejected(reject) => Service::Respond(Answer::Rejected(reject)),
        Reading::Invoked(identifier, operation) => {
            if !is_served(board.options, operation) {
                return Service::Respond(Answer::Rejected(Reject::Invoke(
                    identifier,
                    UNRECOGNIZED_OPERATION,
                )));
            }
            if board.options.is_subscribed() {
                return perform(board, named, identifier, operation);
            }
            failed(identifier, NOT_SUBSCRIBED)
        }
    }
}
