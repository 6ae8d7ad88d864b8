// The pair rule, looked up in the table of the rule set, and the one other call that pairs with a named one.
ghost use Rattle.std.specs.Prelude.{◌≡◌};
ghost use Rattle.octets.specs.Lists.{only, filter};
ghost use Rattle.rules.specs.Pairing.{verdict, calls_pair};
ghost use Rattle.rules.specs.Serving.{partner_for};
ghost use Rattle.serving.specs.Code.Parties.{parties_of};

use crate::parties::party_of;
use board::{Board, Call, Options, Party, RuleSet};
use verdicts::{pair_table, verdict_in};

// The verdict of the rule set, looked up in its table.
#[tactic(auto, using(verdicts::proofs::PairTable::entry_is_verdict))]
fn verdict(rules: RuleSet, c: Call, d: Call) -> u8
    ensures { result ≡ verdict rules c d }
{
    verdict_in(pair_table(rules), c, d)
}

// The alerting option is applied after the lookup.
#[tactic(auto, unfolding(rules::specs::Pairing::calls_pair))]
fn calls_pair(options: Options, c: Call, d: Call) -> bool
    ensures { result ≡ calls_pair options c d }
{
    match verdict(options.rule_set(), c, d) {
        1 => true,
        2 => options.is_alerting_allowed(),
        _ => false,
    }
}

// Whether the party is another one than the named one, and pairs with it.
pub fn is_partner(options: Options, named: Party, other: Party) -> bool
    ensures { result ≡ partner_for options named other }
{
    named.call.reference != other.call.reference && calls_pair(options, named.call, other.call)
}

// The other party that pairs with the named one, where there is exactly one.
pub fn only_partner(board: &Board, named: Party) -> Option<Party>
    ensures { result ≡ only (filter (partner_for board.now.options named) (parties_of board.now)) }
{
    let options = board.options;
    let mut pairing = board
        .rows
        .iter()
        .copied()
        .filter_map(party_of)
        .filter(|other| is_partner(options, named, *other));
    let first = pairing.next()?;
    pairing.next().is_none().then_some(first)
}
