// What the program does, and the status with which it ends.
ghost use Rattle.std.specs.Prelude.{◌≡◌, if◌then◌else◌};
ghost use Rattle.wasm_rewriter.specs.Run.{tells_of_device};

use crate::words::wrong_words;
use crate::{
    Failure, FileId, InputFile, Job, Mistake, OutputFile, Target, job_of, locate, mistake_of,
    words_of,
};
use clap::Error;
use clap::error::ErrorKind;
use input_words::TEXT_HINT;
use program_parts::input_id;
use std::convert::AsStr;
use std::io;
use std::rt::{Env, Files};
use wasm_rewriter::{Fault, run};

/// Does what the words ask for with which the program was started, and says with which status it ends. Where progress is
/// shown, it says on standard error when a long input was read.
pub fn status<R: Files + Env + Input + Print + Eprint + AllocGlobal>(
    rt: &R,
    shows_progress: bool,
) -> u8 {
    match words_of(rt) {
        Ok(words) => run_shown(rt, &words, shows_progress),
        Err(error) => tell(rt, &error),
    }
}

/// The same for these words, the program's name first, where no progress is shown.
pub fn run_words<R: Files + Input + Print + Eprint + AllocGlobal, S: AsStr>(
    rt: &R,
    words: &[S],
) -> u8 {
    run_shown(rt, words, false)
}

fn run_shown<R: Files + Input + Print + Eprint + AllocGlobal, S: AsStr>(
    rt: &R,
    words: &[S],
    shows_progress: bool,
) -> u8 {
    match job_of(rt.alloc(), words) {
        Ok(mut job) => {
            job.shows_progress = shows_progress;
            run_job(rt, &job)
        }
        Err(error) => tell(rt, &error),
    }
}

// Says what is wrong with the words, or what was asked for.
fn tell<R: Print + Eprint>(rt: &R, error: &Error) -> u8 {
    let _ = error.print(rt);
    match error.kind() {
        ErrorKind::DisplayHelp | ErrorKind::DisplayVersion => 0,
        ErrorKind::OutOfMemory => 1,
        _ => 2,
    }
}

// Does the job, once no file is named for two things.
fn run_job<R: Files + Input + Print + Eprint + AllocGlobal>(rt: &R, job: &Job<'_>) -> u8 {
    let targets = match Targets::of(rt, job) {
        Ok(targets) => targets,
        Err(_) => return fail(rt, &Failure::from(Fault::Memory)),
    };
    match targets.mistake {
        Some(mistake) => tell(rt, &wrong_words(rt.alloc(), mistake.text())),
        None => match rewrite_files(rt, job, &targets) {
            Ok(()) => 0,
            Err(failure) => fail(rt, &failure),
        },
    }
}

/// Where the job's bytes and places go, and what is wrong with that.
#[derive(Drop)]
pub struct Targets {
    /// Where the bytes go.
    pub output: Target,
    /// Where the places go.
    pub places: Target,
    /// Which files are one and may not be.
    pub mistake: Option<Mistake>,
}

impl Targets {
    /// The targets of a job's words. Nothing is opened.
    ///
    /// # Errors
    ///
    /// Want of memory.
    pub fn of<R: Files + AllocGlobal>(rt: &R, job: &Job<'_>) -> io::Result<Targets> {
        let (output_id, output) = locate(rt, job.output)?;
        let Some(file) = job.places else {
            return Ok(Targets {
                output,
                places: Target::Standard,
                mistake: None,
            });
        };
        let (places_id, places) = locate(rt, file)?;
        let input_id = input_id(rt, job.input)?;
        let mistake = if file == job.output {
            Some(Mistake::PlacesIsOutput)
        } else {
            mistake_of(&input_id, &output_id, &places_id)
        };
        Ok(Targets {
            output,
            places,
            mistake,
        })
    }
}

/// Rewrites the input's file to the output's, and the places to theirs.
///
/// # Errors
///
/// The fault of the run; for one of a file with the word that names it and what the system said; where a text is read for a
/// module, with a hint.
pub fn rewrite_files<'a, R: Files + Input + Print + Eprint + AllocGlobal>(
    rt: &R,
    job: &Job<'a>,
    targets: &Targets,
) -> Result<(), Failure<'a>> {
    let mut reader = InputFile::new(rt, job.input);
    reader.show_progress(job.shows_progress);
    let mut writer = OutputFile::new(rt, &targets.output);
    let mut places_writer = OutputFile::new(rt, &targets.places);
    let answer = run(
        rt.alloc(),
        &mut reader,
        &mut writer,
        &mut places_writer,
        &job.options,
    );
    let Err(fault) = answer else {
        return Ok(());
    };
    let output = "standard output";
    let (file, cause) = match fault {
        Fault::ReaderFault => (name_of(job.input, "standard input"), reader.into_cause()),
        Fault::Header { .. } if reader.is_text() => {
            (
                name_of(job.input, "standard input"),
                Some(io::Error::other(TEXT_HINT)),
            )
        }
        Fault::WriterFault { .. } => (name_of(job.output, output), writer.into_cause()),
        Fault::PlacesFault { .. } => {
            (
                name_of(job.places.unwrap_or("-"), output),
                places_writer.into_cause(),
            )
        }
        _ => ("", None),
    };
    Err(Failure {
        fault,
        cause: cause.map(|cause| (file, cause)),
    })
}

// The name of the file that a word names, where `-` is this one.
fn name_of<'a>(word: &'a str, standard: &'static str) -> &'a str {
    if word == "-" { standard } else { word }
}

// Says on standard error what is wrong.
fn fail<R: Eprint>(rt: &R, failure: &Failure<'_>) -> u8 {
    let _ = eprintln!(rt; "{failure}");
    status_of(failure.fault)
}

// 3 for the faults of files, and 1 for those of the module.
fn status_of(fault: Fault) -> u8
    ensures { result ≡ (if tells_of_device fault then 3 else 1) }
{
    match fault {
        Fault::ReaderFault | Fault::WriterFault { .. } | Fault::PlacesFault { .. } => 3,
        _ => 1,
    }
}
