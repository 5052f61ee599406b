//! Six small programs over modules, as a user of the library would write them, each in a file of its own:
//!
//!     examples strip IN OUT [SECTION]..             drops custom sections
//!     examples sizes IN [COUNT]                     lists what takes most room
//!     examples snip IN OUT FUNCTION..               lets functions trap, and drops what is then not needed
//!     examples count_calls IN OUT                   counts the calls of each function
//!     examples source_map IN OUT [MAP NEWMAP]       tells where each operator went, or lets a source map follow
//!     examples why IN FUNCTION                      tells what keeps a function
//!     examples each FILE                            does what each line of the file says
#![tactic(auto)]

mod count_calls;
mod digits;
mod functions;
mod mappings;
mod moved;
mod reached;
mod sizes;
mod snip;
mod source_map;
mod strip;
mod why;

use program_parts::{Failure, finish, read_file, words_of};
use std::alloc::{AllocError, Global};
use std::process::ExitCode;

const USAGE: &str = "examples strip|sizes|snip|count_calls|source_map|why IN .., or each FILE";

// Does what the words say.
fn run(rt: &HostRuntime, words: &[String]) -> Result<(), Failure> {
    let [name, rest @ ..] = words else {
        return Err(Failure::Words(USAGE));
    };
    match name.as_str() {
        "strip" => strip::run(rt, rest),
        "sizes" => sizes::run(rt, rest),
        "snip" => snip::run(rt, rest),
        "count_calls" => count_calls::run(rt, rest),
        "source_map" => source_map::run(rt, rest),
        "why" => why::run(rt, rest),
        _ => Err(Failure::Words(USAGE)),
    }
}

// The words of a line.
fn words_in(alloc: Global, line: &str) -> Result<Vec<String>, AllocError> {
    let mut words = Vec::new(alloc);
    for word in line.split(' ') {
        if !word.is_empty() {
            words.push(String::from_str(alloc, word)?)?;
        }
    }
    Ok(words)
}

// Does what a line says, behind the line itself.
fn run_line(rt: &HostRuntime, line: &str) -> Result<(), Failure> {
    println!(rt; "> {line}")?;
    let words = words_in(rt.alloc(), line)?;
    run(rt, words.as_slice())
}

// Does what each line says.
fn run_lines(rt: &HostRuntime, text: &str) -> Result<(), Failure> {
    for line in text.lines() {
        run_line(rt, line)?;
    }
    Ok(())
}

// Does what each line of a file says.
fn run_each(rt: &HostRuntime, file: &str) -> Result<(), Failure> {
    let bytes = read_file(rt, file)?;
    match std::str::from_utf8(bytes.as_slice()) {
        Ok(text) => run_lines(rt, text),
        Err(_) => Err(Failure::Wrong("the file is no text")),
    }
}

fn run_words(rt: &HostRuntime) -> Result<(), Failure> {
    let words = words_of(rt)?;
    match words.as_slice() {
        [name, file] if name.as_str() == "each" => run_each(rt, file.as_str()),
        words => run(rt, words),
    }
}

fn main(rt: HostRuntime) -> ExitCode {
    finish(&rt, run_words(&rt))
}
