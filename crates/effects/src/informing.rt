// Inform: what a private exchange says of a call is told to its far party.
ghost use Rattle.std.specs.Prelude.{◌≡◌, ◌≤◌};
ghost use Rattle.board.specs.States.{active};
ghost use Rattle.private_transfers.specs.Code.Readers.{number_said, digit_count};
ghost use Rattle.rules.specs.Checks.{decide_inform};
ghost use Rattle.rules.specs.Replies.{number_as_received};
ghost use Rattle.effects.specs.Code.Effects.{EffectAnywhere};

use crate::{Effect, unchanged};
use board::{Call, CallState, Party};
use digits::in_fifteen;
use events::Refusal;
use private_transfers::{RedirectionNumber, read_inform};
use replies::{given, inform_told, unknown, withheld};
use rules::TellNumber;

fn is_active(call: Call) -> bool
    ensures { result ≡ active call }
{
    call.state == CallState::Active
}

// As it was received, whatever the row of the party that is told. The bound is a clause and no test: the reader gives
// no more digits, and a test would have no answer of its own.
fn number_as_received(number: RedirectionNumber<'_>) -> TellNumber
    requires { digit_count number ≤ 15 }
    ensures { result ≡ number_as_received (number_said number.entry) }
{
    match number {
        RedirectionNumber::NotSent => unknown(),
        RedirectionNumber::Restricted => withheld(),
        RedirectionNumber::Given(digits) => given(0, digits.len() as u8, in_fifteen(digits)),
    }
}

// Told each time that it comes: no row says that it came before.
#[tactic(auto, using(private_transfers::proofs::NumberLength::few_digits))]
pub fn inform(found: Option<Party>, component: &[u8]) -> Result<Effect, Refusal>
    ensures { EffectAnywhere result (decide_inform component.now found) }
{
    let party = found.ok_or(Refusal::NoSuchCall)?;
    if !is_active(party.call) {
        return Err(Refusal::NotPermitted);
    }
    let said = read_inform(component).ok_or(Refusal::NoSuchInvoke)?;
    Ok(unchanged(inform_told(party.leg, said.indication, number_as_received(said.number))))
}
