//! Rehearses a script of calls on a drive's table, and prints what each would answer and which keys would go.
#![tactic(auto)]

mod answer;
mod closing;
mod files;
mod input;
mod rehearsal;
mod telling;
mod vaults;

use anyhow::anyhow;
use input::read_script;
use rehearsal::perform;
use script::parse;
use std::process::ExitCode;

// What is wrong with a script or a file has been told by now, in one message: the error only decides the status. A lack of memory
// and an output that cannot be written end the program without one.
fn main(rt: HostRuntime) -> ExitCode {
    match rehearse(&rt) {
        Ok(()) => ExitCode::SUCCESS,
        Err(_) => ExitCode::FAILURE,
    }
}

fn rehearse(rt: &HostRuntime) -> anyhow::Result<()> {
    let text = read_script(rt)?;
    match parse(rt.alloc(), text.as_str()) {
        Ok(script) => perform(rt, &script),
        Err(error) => {
            eprintln!(rt; "rehearse: {error}")?;
            Err(anyhow!("a line cannot be read"))
        }
    }
}
