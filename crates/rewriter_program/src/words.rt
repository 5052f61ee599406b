// The program's words.
ghost use Rattle.std.specs.Prelude.{◌≡◌, ◌↔◌, Some};
ghost use Rattle.program_parts.specs.Files.{NamesOneFile};

use crate::FileId;
use clap::error::ErrorKind;
use clap::{Arg, ArgAction, ArgMatches, Command, Error};
use std::alloc::{AllocError, Global};
use std::convert::AsStr;
use std::rt::Env;
use std::{env, io};
use wasm_rewriter::Options;

// Of what offsets and places are counted, what becomes of object files, what is no module, and whose version is told.
const AFTER_HELP: &str =
    "A fault's offset is counted from the start of INPUT, and a place from the function count of the code section, both in bytes and in decimal.\n`wasm-objdump` and browsers write offsets in hexadecimal: offset 178 is theirs of 0xb2. Of a line `OLD NEW` of FILE, OLD is a place in INPUT, and NEW one in OUTPUT. A place plus the start of that file's code section, which `wasm-objdump -h` tells (`Code start=0x..`), is an offset in that file.\n\nAn object file (a module with a section `linking` or `reloc.*`) is rewritten, too. These sections are copied as they are: its symbol table then names what is gone.\n\nOf a text (`.wat`) `wat2wasm` (WABT) and `wasm-as` (Binaryen) make a module, which is what INPUT has to be.\n\nThe version 0.28.0, here and in the section `producers`, is that of the Rust crate `walrus`, of which this is a port.";

/// What the words ask for.
#[derive(Clone, Copy)]
pub struct Job<'a> {
    pub input: &'a str,
    pub output: &'a str,
    pub places: Option<&'a str>,
    pub options: Options,
    /// Whether it is said on standard error when a long input was read.
    pub shows_progress: bool,
}

/// Two files that are one, and may not be.
#[derive(Clone, Copy, Debug, PartialEq, Eq)]
pub enum Mistake {
    /// OUTPUT and FILE.
    PlacesIsOutput,
    /// INPUT and FILE.
    PlacesIsInput,
}

impl Mistake {
    /// What is said of it.
    pub fn text(self) -> &'static str {
        match self {
            Mistake::PlacesIsOutput => "OUTPUT and FILE are one file",
            Mistake::PlacesIsInput => "INPUT and FILE are one file",
        }
    }
}

/// What is wrong where these files are named. OUTPUT may be INPUT.
pub fn mistake_of(input: &FileId, output: &FileId, places: &FileId) -> Option<Mistake>
    ensures output { (result ≡ Some Mistake.PlacesIsOutput) ↔ NamesOneFile output.now places.now }
    ensures input { (result ≡ Some Mistake.PlacesIsInput) ↔ ((¬ NamesOneFile output.now places.now) × NamesOneFile input.now places.now) }
{
    if output.is_same(places) {
        Some(Mistake::PlacesIsOutput)
    } else if input.is_same(places) {
        Some(Mistake::PlacesIsInput)
    } else {
        None
    }
}

/// The words that the program was started with, its name first.
pub fn words_of<R: Env + AllocGlobal>(rt: &R) -> Result<Vec<String>, Error> {
    match env::args(rt) {
        Ok(words) => Ok(words.collect(rt.alloc())?),
        Err(e) if e.kind() == io::ErrorKind::OutOfMemory => Err(Error::from(AllocError)),
        Err(_) => Err(wrong_words(rt.alloc(), "a word is no UTF-8 text")),
    }
}

/// The error of words that are wrong, with what is wrong and the usage.
pub(crate) fn wrong_words(alloc: Global, text: &str) -> Error {
    match usage_error(alloc, text) {
        Ok(error) => error,
        Err(error) => Error::from(error),
    }
}

fn usage_error(alloc: Global, text: &str) -> Result<Error, AllocError> {
    let mut command = command(alloc)?;
    command.error(ErrorKind::ValueValidation, text)
}

/// Reads the words, the program's name first.
pub fn job_of<'a, S: AsStr>(alloc: Global, words: &'a [S]) -> Result<Job<'a>, Error> {
    let matches = command(alloc)?.try_get_matches_from(words)?;
    let places = matches.get_str("places");
    let mut options = Options::new();
    options.places = places.is_some();
    options.names = !matches.get_flag("no-names");
    options.producers = !matches.get_flag("no-producers");
    options.only_stable_features = matches.get_flag("stable");
    options.legacy_exceptions = !matches.get_flag("no-legacy");
    options.shared_types = matches.get_flag("shared-types");
    options.keep_segments = matches.get_flag("keep-segments");
    Ok(Job {
        input: required(&matches, "INPUT"),
        output: required(&matches, "OUTPUT"),
        places,
        options,
        shows_progress: false,
    })
}

// The text of a required argument: words without it don't parse.
fn required<'a>(matches: &ArgMatches<'a>, id: &str) -> &'a str {
    matches.get_str(id).unwrap_or("")
}

fn command<'a>(alloc: Global) -> Result<Command<'a>, AllocError> {
    let places = Arg::new(alloc, "places")
        .long("places")
        .value_name("FILE")
        .help(
            "Write a line `OLD NEW` to FILE for each operator: its place in INPUT, and in OUTPUT; `-` is standard output",
        );
    Command::new(alloc, "wasm_rewriter")
        .bin_name("wasm_rewriter")?
        .version("0.28.0")
        .about(
            "Keeps of a WebAssembly module what its exports and its start function need, in the shortest spelling",
        )
        .after_help(AFTER_HELP)
        .arg(places)?
        .arg(flag(alloc, "no-names", "Write no `name` section"))?
        .arg(flag(alloc, "no-producers", "Write no `producers` section"))?
        .arg(flag(alloc, "stable", "Accept stable features alone"))?
        .arg(flag(alloc, "no-legacy", "Refuse legacy exception operators"))?
        .arg(flag(alloc, "shared-types", "Accept shared abstract heap types"))?
        .arg(flag(
            alloc,
            "keep-segments",
            "Keep all active element segments, with their tables",
        ))?
        .arg(positional(alloc, "INPUT", "The module to read; `-` is standard input"))?
        .arg(positional(
            alloc,
            "OUTPUT",
            "The file to write, which may be INPUT: it is replaced once INPUT was accepted and all is written; `-` is standard output",
        ))
}

fn flag<'a>(alloc: Global, name: &'a str, help: &'a str) -> Arg<'a> {
    Arg::new(alloc, name)
        .long(name)
        .action(ArgAction::SetTrue)
        .help(help)
}

fn positional<'a>(alloc: Global, name: &'a str, help: &'a str) -> Arg<'a> {
    Arg::new(alloc, name).required(true).help(help)
}
