// Leg facility: a joined leg's component is passed on to its partner.
ghost use Rattle.std.specs.Prelude.{◌≤◌};
ghost use Rattle.rules.specs.Checks.{decide_leg_facility};
ghost use Rattle.effects.specs.Code.Effects.{EffectAnywhere};

use crate::{Effect, unchanged};
use board::{Connection, Entry};
use events::Refusal;
use replies::pass_on;
use subaddresses::is_subaddress_transfer;

// The bound is a clause and no test: the reader's equation gives it, as a record of another count is refused before,
// and a test would have no answer of its own.
pub fn leg_facility(found: Option<Entry>, count: u8, component: [u8; 64]) -> Result<Effect, Refusal>
    requires { count ≤ 64 }
    ensures { EffectAnywhere result (decide_leg_facility count component found) }
{
    let Connection::WithPartner { partner, .. } = found.ok_or(Refusal::NoSuchLeg)?.connection else {
        return Err(Refusal::NotPermitted);
    };
    if !is_subaddress_transfer(&component[..usize::from(count)]) {
        return Err(Refusal::NoSuchInvoke);
    }
    Ok(unchanged(pass_on(partner, count, component)))
}
