//! The command `enact` of `distnode` alone, over standard input and output. It stands on half of the crates of `distnode`, so its sources
//! answer in a third of the time: `bin/distnode enact` runs it as long as nothing is proved.
#![tactic(auto)]

use dist_script_play::enact;
use std::process::ExitCode;

fn main(rt: HostRuntime) -> ExitCode {
    ExitCode::from(enact(
        rt.alloc(),
        &mut rt.stdin(),
        &mut rt.stdout(),
        &mut rt.stderr(),
    ))
}
