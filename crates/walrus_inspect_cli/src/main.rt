//! The program `walrus_inspect`: tells how many items of each kind live in a WebAssembly module.
#![tactic(auto)]

mod none;
mod read;

use inspect_program::status;
use read::Modules;
use std::io::IsTerminal;
use std::process::ExitCode;

fn main(rt: HostRuntime) -> ExitCode {
    let is_seen = rt.stderr().is_terminal();
    ExitCode::from(status(&rt, &Modules, is_seen))
}
