// Facility: what its component comes to.
ghost use Rattle.rules.specs.Checks.{service_decision};
ghost use Rattle.std.specs.Prelude.{Ok};
ghost use Rattle.effects.specs.Code.Effects.{Describes, EffectOf, facility_on};

use crate::{Effect, applied, number_at, unchanged};
use board::{Board, Change, Party};
use component::Answer;
use events::Refusal;
use octets::{CallReference, IntegerOctets};
use replies::{FarParty, nothing, reply};
use row_changes::is_delivered;
use rules::Service;
use serving::parties::named;
use serving::serve;

fn far_party(board: &Board, party: Party) -> FarParty
    ensures { Describes board.now.rows party result }
{
    FarParty {
        reference: party.call.reference,
        leg: party.leg,
        alerts: is_delivered(party.call),
        number: number_at(&board.rows, party.leg),
    }
}

fn transfer(
    board: &Board,
    party: Party,
    first: Party,
    second: Party,
    identifier: IntegerOctets,
) -> Effect
    ensures { EffectOf (Ok result) board.now (service_decision board.now.options party
        (Service.Transfer first second identifier)) }
{
    applied(
        Change::Join(first.leg, second.leg),
        replies::transfer(
            board.options.rule_set(),
            party.call.reference,
            identifier,
            far_party(board, first),
            far_party(board, second),
        ),
    )
}

// Carries out what the component of the party's Facility comes to: a closed set of data, on which the rules match too.
fn carry_out(board: &Board, party: Party, service: Service) -> Effect
    ensures { EffectOf (Ok result) board.now (service_decision board.now.options party service) }
{
    let reference = party.call.reference;
    match service {
        Service::Silent => unchanged(nothing()),
        Service::Respond(answer) => unchanged(reply(reference, answer)),
        Service::AssignLinkId(id, identifier) => applied(
            Change::SetLinkId(reference, id),
            reply(reference, Answer::LinkIdResult(identifier, id)),
        ),
        Service::Transfer {
            named: first,
            other: second,
            identifier,
        } => transfer(board, party, first, second, identifier),
    }
}

pub fn facility(
    board: &Board,
    reference: CallReference,
    component: &[u8],
) -> Result<Effect, Refusal>
    ensures { EffectOf result board.now (facility_on board.now reference.0 component.now) }
{
    let party = named(&board.rows, reference).ok_or(Refusal::NoSuchCall)?;
    Ok(carry_out(
        board,
        party,
        serve(board, party, component::read(component)),
    ))
}
