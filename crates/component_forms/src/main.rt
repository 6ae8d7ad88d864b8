// Prints a line for each of many components: what it says as an EctInform invoke.
#![tactic(auto)]

use std::io;

mod inform;

fn main(rt: HostRuntime) -> io::Result<()> {
    inform::forms(&rt)
}
