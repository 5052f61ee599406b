//! Why a program didn't do what it was asked for, and how that is told.
ghost use Rattle.std.specs.Prelude.{◌≡◌};
ghost use Rattle.program_parts.specs.Statuses.{status_of};

use std::alloc::{AllocError, AllocFailed};
use std::process::ExitCode;
use std::{fmt, io};
use walrus_errors::ModuleError;

/// Why nothing was done.
#[derive(Drop)]
pub enum Failure {
    /// The words are wrong; with those that are right.
    Words(&'static str),
    /// The module can't be read, changed or written.
    Module(ModuleError),
    /// Nothing in the module has this name.
    Unknown(String),
    /// Another file is wrong.
    Wrong(&'static str),
    /// A file can't be read or written; with its name.
    File(String, io::Error),
    /// The words can't be read, or standard output not be written.
    Stream(io::Error),
}

impl Failure {
    /// The status with which the program ends: 2 where its words are wrong, 3 where a file fails, else 1.
    pub fn status(&self) -> u8
        ensures { result ≡ status_of self.now }
    {
        match self {
            Failure::Module(_) | Failure::Unknown(_) | Failure::Wrong(_) => 1,
            Failure::Words(_) => 2,
            Failure::File(..) | Failure::Stream(_) => 3,
        }
    }
}

impl fmt::Display for Failure {
    fn fmt<W: fmt::Write>(&self, f: &mut fmt::Formatter<W>) -> fmt::Result {
        match self {
            Failure::Words(usage) => write!(f, "usage: {usage}"),
            Failure::Module(error) => match error.offset() {
                Some(offset) => write!(f, "error at {offset}: {error}"),
                None => write!(f, "error: {error}"),
            },
            Failure::Unknown(name) => write!(f, "error: nothing is named {name}"),
            Failure::Wrong(text) => write!(f, "error: {text}"),
            Failure::File(name, cause) => write!(f, "error: {name}: {cause}"),
            Failure::Stream(cause) => write!(f, "error: {cause}"),
        }
    }
}

impl From<ModuleError> for Failure {
    ghost from_gives = { λ _ _. Unit };

    fn from(error: ModuleError) -> Self {
        Failure::Module(error)
    }
}

impl From<AllocError> for Failure {
    ghost from_gives = { λ _ _. Unit };

    fn from(_error: AllocError) -> Self {
        Failure::Module(ModuleError::Memory)
    }
}

impl<T: Drop> From<AllocFailed<T>> for Failure {
    ghost from_gives = { λ _ _. Unit };

    fn from(_error: AllocFailed<T>) -> Self {
        Failure::Module(ModuleError::Memory)
    }
}

impl From<io::Error> for Failure {
    ghost from_gives = { λ _ _. Unit };

    fn from(error: io::Error) -> Self {
        Failure::Stream(error)
    }
}

/// Says on standard error what went wrong, if something did, and ends the program with its status.
pub fn finish<R: Eprint>(rt: &R, answer: Result<(), Failure>) -> ExitCode {
    match answer {
        Ok(()) => ExitCode::from(0),
        Err(failure) => {
            let _ = eprintln!(rt; "{failure}");
            ExitCode::from(failure.status())
        }
    }
}
