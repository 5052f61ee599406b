// What the program does, and the status with which it ends.
ghost use Rattle.std.specs.Prelude.{◌≡◌, Bool, List, Result, ℕ};
ghost use Rattle.inspect_lines.specs.declared.counts.Counts.{Counts};
ghost use Rattle.inspect_program.specs.Outcomes.{Tells};
ghost use Rattle.walrus_config.specs.declared.config.ModuleConfig.{ModuleConfig};
ghost use Rattle.walrus_errors.specs.declared.error.ModuleError.{ModuleError};

use crate::{Failure, Job, job_of, words_of};
use clap::Error;
use clap::error::ErrorKind;
use input_words::LONG_INPUT_LEN;
use inspect_lines::{Counts, lines_of};
use program_parts::read_input;
use std::alloc::Global;
use std::convert::AsStr;
use std::rt::{Env, Files};
use walrus_config::ModuleConfig;
use walrus_errors::ModuleError;

/// What counts the items of a module.
pub trait Inspector {
    // What it may answer for these bytes, read under these flags, where just what is kept is counted if so asked.
    ghost answers: { Self → List ℕ → ModuleConfig → Bool → Result Counts ModuleError → Type 0 };

    /// Counts the items of the module that the bytes spell, or just what is kept of it.
    ///
    /// # Errors
    ///
    /// The refusal of the module. Want of memory.
    fn inspect(
        &self,
        alloc: Global,
        bytes: &[u8],
        config: ModuleConfig,
        kept: bool,
    ) -> Result<Counts, ModuleError>
        ensures { answers self.now bytes.now config kept result };
}

/// Does what the words ask for with which the program was started, and says with which status it ends. Where progress is
/// shown, it says on standard error when a long input was read.
pub fn status<R: Files + Env + Input + Print + Eprint + AllocGlobal, I: Inspector>(
    rt: &R,
    inspector: &I,
    shows_progress: bool,
) -> u8 {
    match words_of(rt) {
        Ok(words) => run_shown(rt, inspector, &words, shows_progress),
        Err(error) => tell(rt, &error),
    }
}

/// The same for these words, the program's name first, where no progress is shown.
pub fn run_words<R: Files + Input + Print + Eprint + AllocGlobal, I: Inspector, S: AsStr>(
    rt: &R,
    inspector: &I,
    words: &[S],
) -> u8 {
    run_shown(rt, inspector, words, false)
}

fn run_shown<R: Files + Input + Print + Eprint + AllocGlobal, I: Inspector, S: AsStr>(
    rt: &R,
    inspector: &I,
    words: &[S],
    shows_progress: bool,
) -> u8 {
    match job_of(rt.alloc(), words) {
        Ok(mut job) => {
            job.shows_progress = shows_progress;
            run_job(rt, inspector, &job)
        }
        Err(error) => tell(rt, &error),
    }
}

// Says what is wrong with the words, or what was asked for.
fn tell<R: Print + Eprint>(rt: &R, error: &Error) -> u8 {
    let _ = error.print(rt);
    match error.kind() {
        ErrorKind::DisplayHelp | ErrorKind::DisplayVersion => 0,
        ErrorKind::OutOfMemory => 1,
        _ => 2,
    }
}

// Does the job, or says on standard error what is wrong.
fn run_job<R: Files + Input + Print + Eprint + AllocGlobal, I: Inspector>(
    rt: &R,
    inspector: &I,
    job: &Job<'_>,
) -> u8 {
    match inspect_file(rt, inspector, job) {
        Ok(()) => 0,
        Err(failure) => {
            let _ = eprintln!(rt; "{failure}");
            failure.status()
        }
    }
}

// Writes the lines of the file's module to standard output.
fn inspect_file<'a, R: Files + Input + Print + Eprint + AllocGlobal, I: Inspector>(
    rt: &R,
    inspector: &I,
    job: &Job<'a>,
) -> Result<(), Failure<'a>> {
    let bytes = match read_input(rt, job.input) {
        Ok(bytes) => bytes,
        Err(cause) => return Err(Failure::of_file(job.input, cause)),
    };
    if job.shows_progress {
        tell_read(rt, bytes.len() as u64);
    }
    let text = match text_of(rt.alloc(), inspector, &bytes, job.config, job.kept) {
        Ok(text) => text,
        Err(error) => return Err(Failure::of_refusal(job.input, &bytes, error)),
    };
    match rt.write_all(&text) {
        Ok(()) => Ok(()),
        Err(cause) => Err(Failure::Unwritten { cause }),
    }
}

// Says on standard error that so many bytes were read, where they are many.
fn tell_read<R: Eprint>(rt: &R, count: u64) {
    if count > LONG_INPUT_LEN {
        let megabytes = count / 1_000_000;
        let _ = eprintln!(rt; "walrus_inspect: {megabytes} MB are read, and being counted");
    }
}

/// What is written for these bytes: the lines of what the inspector counts.
///
/// # Errors
///
/// That of the inspector. Want of memory.
pub fn text_of<I: Inspector>(
    alloc: Global,
    inspector: &I,
    bytes: &[u8],
    config: ModuleConfig,
    kept: bool,
) -> Result<Vec<u8>, ModuleError>
    ensures { (answer : Result Counts ModuleError) × I.answers inspector.now bytes.now config kept answer × Tells answer result }
{
    match inspector.inspect(alloc, bytes, config, kept) {
        Ok(counts) => Ok(lines_of(alloc, &counts)?),
        Err(error) => Err(error),
    }
}
