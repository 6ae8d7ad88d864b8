// Release and Answer: a leg ends, or stops alerting.
ghost use Rattle.board.specs.RuleSets.{rule_set};
ghost use Rattle.rules.specs.Checks.{decide_release, decide_answer};
ghost use Rattle.effects.specs.Code.Effects.{EffectOf, EffectAnywhere, numbered};
ghost use Rattle.std.specs.Prelude.{◌≡◌};

use crate::{Effect, applied, number_at};
use board::{Board, Change, Connection, Entry, Row};
use events::Refusal;
use replies::{NumberedLeg, answer_told, drop_notice, gone};

pub fn release(found: Option<Entry>) -> Result<Effect, Refusal>
    ensures { EffectAnywhere result (decide_release found) }
{
    let entry = found.ok_or(Refusal::NoSuchLeg)?;
    Ok(match entry.connection {
        Connection::WithUser(call) => {
            applied(Change::Release(entry.leg), drop_notice(call.reference))
        }
        Connection::WithPartner { partner, .. } => applied(
            Change::ReleasePair(entry.leg, partner),
            gone(partner),
        ),
    })
}

fn numbered(rows: &[Row], leg: u32) -> NumberedLeg
    ensures { result ≡ numbered rows.now leg }
{
    NumberedLeg {
        leg,
        number: number_at(rows, leg),
    }
}

pub fn answer(board: &Board, found: Option<Entry>, leg: u32) -> Result<Effect, Refusal>
    ensures { EffectOf result board.now (decide_answer (rule_set board.now.options) leg found) }
{
    match found.ok_or(Refusal::NoSuchLeg)?.connection {
        Connection::WithPartner {
            partner,
            alerting: true,
        } => Ok(applied(
            Change::EndAlerting(leg),
            answer_told(
                board.options.rule_set(),
                numbered(&board.rows, leg),
                numbered(&board.rows, partner),
            ),
        )),
        _ => Err(Refusal::NotPermitted),
    }
}
