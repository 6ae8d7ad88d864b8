// Progress and Hold: the call state, or the auxiliary state, of a call.
ghost use Rattle.std.specs.Prelude.{◌≡◌};
ghost use Rattle.rules.specs.Checks.{may_progress, may_hold, decide_progress, decide_hold};
ghost use Rattle.effects.specs.Code.Effects.{EffectAnywhere};

use crate::{Effect, applied};
use board::{AuxiliaryState, CallState, Change, Party};
use events::Refusal;
use octets::CallReference;
use replies::nothing;
use row_soundness::is_holdable;

fn may_progress(from: CallState, to: CallState) -> bool
    ensures { result ≡ may_progress from to }
{
    match from {
        CallState::OutgoingCallProceeding => {
            matches!(to, CallState::CallDelivered | CallState::Active)
        }
        CallState::CallDelivered | CallState::CallReceived => to == CallState::Active,
        CallState::Active => false,
    }
}

pub fn progress(
    found: Option<Party>,
    reference: CallReference,
    state: CallState,
) -> Result<Effect, Refusal>
    ensures { EffectAnywhere result (decide_progress reference.0 state found) }
{
    let party = found.ok_or(Refusal::NoSuchCall)?;
    if may_progress(party.call.state, state) {
        return Ok(applied(Change::SetState(reference, state), nothing()));
    }
    Err(Refusal::NotPermitted)
}

fn may_hold(from: AuxiliaryState, to: AuxiliaryState) -> bool
    ensures { result ≡ may_hold from to }
{
    match from {
        AuxiliaryState::Idle => to == AuxiliaryState::HoldRequest,
        AuxiliaryState::HoldRequest | AuxiliaryState::RetrieveRequest => {
            matches!(to, AuxiliaryState::Idle | AuxiliaryState::CallHeld)
        }
        AuxiliaryState::CallHeld => to == AuxiliaryState::RetrieveRequest,
    }
}

// Beside `progress`: each has a test that is a rule of its own, and shares only the refusals.
pub fn hold(
    found: Option<Party>,
    reference: CallReference,
    auxiliary: AuxiliaryState,
) -> Result<Effect, Refusal>
    ensures { EffectAnywhere result (decide_hold reference.0 auxiliary found) }
{
    let call = found.ok_or(Refusal::NoSuchCall)?.call;
    if is_holdable(call.state) && may_hold(call.auxiliary, auxiliary) {
        return Ok(applied(Change::SetAuxiliary(reference, auxiliary), nothing()));
    }
    Err(Refusal::NotPermitted)
}
