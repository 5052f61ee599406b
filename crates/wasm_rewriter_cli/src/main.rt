//! The program `wasm_rewriter`: rewrites a WebAssembly module.
#![tactic(auto)]

use rewriter_program::status;
use std::io::IsTerminal;
use std::process::ExitCode;

fn main(rt: HostRuntime) -> ExitCode {
    let is_seen = rt.stderr().is_terminal();
    ExitCode::from(status(&rt, is_seen))
}
