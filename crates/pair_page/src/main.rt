// Prints the tables of verdicts as a page for paper: docs/PAIR-TABLE.md.
#![tactic(auto)]

use board::{AuxiliaryState, CallState, Direction, RuleSet};
use situations::situations;
use std::io;
use verdicts::{pair_table, situation, verdict_in};

mod situations;

// Three functions of names, as a name is all that is printed: a wrapper with Display is no plainer.
fn state_name(state: CallState) -> &'static str {
    match state {
        CallState::OutgoingCallProceeding => "3 Outgoing Call Proceeding",
        CallState::CallDelivered => "4 Call Delivered",
        CallState::CallReceived => "7 Call Received",
        CallState::Active => "10 Active",
    }
}

fn auxiliary_name(auxiliary: AuxiliaryState) -> &'static str {
    match auxiliary {
        AuxiliaryState::Idle => "0 Idle",
        AuxiliaryState::HoldRequest => "1 Hold Request",
        AuxiliaryState::CallHeld => "2 Call Held",
        AuxiliaryState::RetrieveRequest => "3 Retrieve Request",
    }
}

fn direction_name(direction: Direction) -> &'static str {
    match direction {
        Direction::Outgoing => "0 outgoing",
        Direction::Incoming => "1 incoming",
    }
}

fn situation_list(rt: &impl Print) -> io::Result<()> {
    println!(rt; "| situation | call state | auxiliary state | direction |")?;
    println!(rt; "|---|---|---|---|")?;
    for call in situations() {
        let number = situation(call);
        let state = state_name(call.state);
        let auxiliary = auxiliary_name(call.auxiliary);
        let direction = direction_name(call.direction);
        println!(rt; "| {number:>2} | {state} | {auxiliary} | {direction} |")?;
    }
    Ok(())
}

// The numbers of the columns.
fn heads(rt: &impl Print) -> io::Result<()> {
    print!(rt; "    ")?;
    for call in situations() {
        print!(rt; " {:>2}", situation(call))?;
    }
    println!(rt; "\n")
}

fn print_verdict(rt: &impl Print, verdict: u8) -> io::Result<()> {
    match verdict {
        0 => print!(rt; "  ."),
        v => print!(rt; "  {v}"),
    }
}

fn rows(rt: &impl Print, rules: RuleSet) -> io::Result<()> {
    let table = pair_table(rules);
    for first in situations() {
        print!(rt; " {:>2} ", situation(first))?;
        for second in situations() {
            print_verdict(rt, verdict_in(table, first, second))?;
        }
        println!(rt)?;
    }
    Ok(())
}

fn numbering(rt: &impl Print) -> io::Result<()> {
    println!(rt; "# The pair tables\n")?;
    print!(rt;
        "Whether two calls pair, looked up by their situations, by European and by American rules. "
    )?;
    println!(rt;
        "The program `pair_page` prints this page from the tables that the code looks up in.\n"
    )?;
    println!(rt; "## The number of a situation\n")?;
    print!(rt;
        "8 times the place of the call state, from 0, among 3, 4, 7 and 10, plus twice the auxiliary state, "
    )?;
    print!(rt; "plus the direction. ")?;
    println!(rt; "On a sound board not all of them occur; the tables have a verdict for each.\n")
}

fn reading(rt: &impl Print) -> io::Result<()> {
    println!(rt; "\n## The verdicts\n")?;
    print!(rt; "The row is the situation of one call, the column that of the other; ")?;
    println!(rt; "which of the two calls is named makes no difference. A dot is verdict 0.\n")?;
    println!(rt; "- 0: the calls do not pair.")?;
    println!(rt; "- 1: both are Active, and they pair.")?;
    print!(rt; "- 2: one is Active and one still alerts. ")?;
    println!(rt;
        "The alerting option is applied after the lookup: they pair where it is 1 or 3.\n"
    )?;
    print!(rt; "By American rules a call can have verdict 1 with itself. ")?;
    println!(rt; "It never pairs with itself all the same: the other call is another one.")
}

fn table(rt: &impl Print, name: &str, options: &str, rules: RuleSet) -> io::Result<()> {
    println!(rt; "\n## {name} rules: alerting option {options}\n")?;
    println!(rt; "```text")?;
    heads(rt)?;
    rows(rt, rules)?;
    println!(rt; "```")
}

fn main(rt: HostRuntime) -> io::Result<()> {
    numbering(&rt)?;
    situation_list(&rt)?;
    reading(&rt)?;
    table(&rt, "European", "0 or 1", RuleSet::European)?;
    table(&rt, "American", "2 or 3", RuleSet::American)
}
