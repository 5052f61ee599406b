// The program's words.
ghost use Rattle.std.specs.Prelude.{◌≡◌};
ghost use Rattle.inspect_program.specs.Words.{config_of};

use clap::error::ErrorKind;
use clap::{Arg, ArgAction, Command, Error};
use std::alloc::{AllocError, Global};
use std::convert::AsStr;
use std::rt::Env;
use std::{env, io};
use walrus_config::ModuleConfig;

// Of what offsets are counted, what is no module, and whose version is told.
const AFTER_HELP: &str =
    "A fault's offset is counted from the start of INPUT, in bytes and in decimal.\n`wasm-objdump` and browsers write offsets in hexadecimal: offset 178 is theirs of 0xb2.\n\nOf a text (`.wat`) `wat2wasm` (WABT) and `wasm-as` (Binaryen) make a module, which is what INPUT has to be.\n\nThe version 0.28.0 is that of the Rust crate `walrus`, of which the library below is a port.";

/// What the words ask for.
#[derive(Clone, Copy)]
pub struct Job<'a> {
    pub input: &'a str,
    /// How the module is read.
    pub config: ModuleConfig,
    /// Whether just what is kept is counted.
    pub kept: bool,
    /// Whether it is said on standard error when a long input was read.
    pub shows_progress: bool,
}

/// The words that the program was started with, its name first.
pub fn words_of<R: Env + AllocGlobal>(rt: &R) -> Result<Vec<String>, Error> {
    match env::args(rt) {
        Ok(words) => Ok(words.collect(rt.alloc())?),
        Err(e) if e.kind() == io::ErrorKind::OutOfMemory => Err(Error::from(AllocError)),
        Err(_) => Err(wrong_words(rt.alloc(), "a word is no UTF-8 text")),
    }
}

// The error of words that are wrong, with what is wrong and the usage.
fn wrong_words(alloc: Global, text: &str) -> Error {
    match usage_error(alloc, text) {
        Ok(error) => error,
        Err(error) => Error::from(error),
    }
}

fn usage_error(alloc: Global, text: &str) -> Result<Error, AllocError> {
    let mut command = command(alloc)?;
    command.error(ErrorKind::ValueValidation, text)
}

/// Reads the words, the program's name first.
pub fn job_of<'a, S: AsStr>(alloc: Global, words: &'a [S]) -> Result<Job<'a>, Error> {
    let matches = command(alloc)?.try_get_matches_from(words)?;
    Ok(Job {
        // Words without it don't parse.
        input: matches.get_str("INPUT").unwrap_or(""),
        config: config_of(matches.get_flag("stable"), matches.get_flag("no-legacy")),
        kept: matches.get_flag("kept"),
        shows_progress: false,
    })
}

// The flags of a module that is read with stable features alone, or without the legacy exceptions.
fn config_of(stable: bool, no_legacy: bool) -> ModuleConfig
    ensures { result ≡ config_of stable no_legacy }
{
    let mut config = ModuleConfig::new();
    config.only_stable_features = stable;
    config.legacy_exceptions = !no_legacy;
    config
}

fn command<'a>(alloc: Global) -> Result<Command<'a>, AllocError> {
    let input = Arg::new(alloc, "INPUT")
        .required(true)
        .help("The module to read; `-` is standard input");
    Command::new(alloc, "walrus_inspect")
        .bin_name("walrus_inspect")?
        .version("0.28.0")
        .about("Tells how many items of each kind live in a WebAssembly module")
        .after_help(AFTER_HELP)
        .arg(flag(alloc, "stable", "Accept stable features alone"))?
        .arg(flag(alloc, "no-legacy", "Refuse legacy exception operators"))?
        .arg(flag(
            alloc,
            "kept",
            "Count just what exports and the start function need",
        ))?
        .arg(input)
}

fn flag<'a>(alloc: Global, name: &'a str, help: &'a str) -> Arg<'a> {
    Arg::new(alloc, name)
        .long(name)
        .action(ArgAction::SetTrue)
        .help(help)
}
