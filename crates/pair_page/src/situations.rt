// A call in each situation.
use board::{AuxiliaryState, Call, CallState, Direction};
use octets::CallReference;
use std::array;

static STATES: [CallState; 4] = [
    CallState::OutgoingCallProceeding,
    CallState::CallDelivered,
    CallState::CallReceived,
    CallState::Active,
];

static AUXILIARIES: [AuxiliaryState; 4] = [
    AuxiliaryState::Idle,
    AuxiliaryState::HoldRequest,
    AuxiliaryState::CallHeld,
    AuxiliaryState::RetrieveRequest,
];

static DIRECTIONS: [Direction; 2] = [Direction::Outgoing, Direction::Incoming];

// In the order of their numbers.
pub fn situations() -> [Call; 32] {
    array::from_fn(|s| Call {
        reference: CallReference(1),
        direction: DIRECTIONS[s % 2],
        state: STATES[s / 8],
        auxiliary: AUXILIARIES[s / 2 % 4],
        link: None,
    })
}
