// The pair rule as tables, one for each rule set: 32 call situations by 32.
#![tactic(auto)]

ghost use Rattle.std.specs.Prelude.{◌≡◌};
ghost use Rattle.rules.specs.Pairing.{verdict};
ghost use Rattle.verdicts.specs.Situations.{situation as situation_of};
ghost use Rattle.verdicts.specs.Tables.{table_of, verdict_in};

use board::{Call, RuleSet};

mod american;
mod european;

// The number of a call's situation, 0 to 31. Each kind has its place, from 0, in the order of its declaration.
pub fn situation(call: Call) -> usize
    ensures { result ≡ situation_of call }
{
    let state = call.state as usize;
    let auxiliary = call.auxiliary as usize;
    let direction = call.direction as usize;
    8 * state + 2 * auxiliary + direction
}

// The table of a rule set. It is lent: a use of it by value would make a copy.
pub fn pair_table(rules: RuleSet) -> &'static [u8; 1024]
    ensures { result.now ≡ table_of (verdict rules) }
{
    match rules {
        RuleSet::European => &european::VERDICTS,
        RuleSet::American => &american::VERDICTS,
    }
}

// The entry of a table for two calls.
pub fn verdict_in(table: &[u8; 1024], c: Call, d: Call) -> u8
    ensures { result ≡ verdict_in table.now c d }
{
    table[32 * situation(c) + situation(d)]
}
