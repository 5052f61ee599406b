// What the program says where it fails.
ghost use Rattle.std.specs.Prelude.{◌≡◌};
ghost use Rattle.inspect_program.specs.Outcomes.{status_of};

use input_words::{Start, TEXT_HINT};
use std::io::ErrorKind;
use std::{fmt, io};
use walrus_errors::ModuleError;

/// Why nothing was told.
#[derive(Drop)]
pub enum Failure<'a> {
    /// The module is refused.
    Refused(ModuleError),
    /// The module is refused, and its file begins as a text does.
    IsText {
        /// The word that names it, or `standard input`.
        file: &'a str,
        /// The refusal.
        error: ModuleError,
    },
    /// The file can't be read.
    Unread {
        /// The word that names it, or `standard input`.
        file: &'a str,
        /// What the system said.
        cause: io::Error,
    },
    /// The lines can't be written.
    Unwritten {
        /// What the system said.
        cause: io::Error,
    },
}

impl<'a> Failure<'a> {
    /// The failure of a file that a word names, `-` for standard input. Want of memory is no fault of a file.
    pub fn of_file(word: &'a str, cause: io::Error) -> Failure<'a> {
        if cause.kind() == ErrorKind::OutOfMemory {
            return Failure::Refused(ModuleError::Memory);
        }
        Failure::Unread {
            file: name_of(word),
            cause,
        }
    }

    /// The failure of a file that a word names, `-` for standard input, whose bytes are refused.
    pub fn of_refusal(word: &'a str, bytes: &[u8], error: ModuleError) -> Failure<'a> {
        match error {
            ModuleError::Header { .. } if Start::Blank.after(bytes) == Start::Text => {
                Failure::IsText {
                    file: name_of(word),
                    error,
                }
            }
            _ => Failure::Refused(error),
        }
    }

    /// The status with which the program ends then.
    pub fn status(&self) -> u8
        ensures { result ≡ status_of self.now }
    {
        match self {
            Failure::Refused(_) | Failure::IsText { .. } => 1,
            Failure::Unread { .. } | Failure::Unwritten { .. } => 3,
        }
    }
}

impl fmt::Display for Failure<'_> {
    fn fmt<W: fmt::Write>(&self, f: &mut fmt::Formatter<W>) -> fmt::Result {
        match self {
            Failure::Refused(error) => write_refusal(f, error),
            Failure::IsText { file, error } => {
                write_refusal(f, error)?;
                write!(f, "\n  {file}: {TEXT_HINT}")
            }
            Failure::Unread { file, cause } => {
                write!(f, "error: input can not be read\n  {file}: {cause}")
            }
            Failure::Unwritten { cause } => {
                write!(
                    f,
                    "error: output can not be written\n  standard output: {cause}"
                )
            }
        }
    }
}

fn write_refusal<W: fmt::Write>(f: &mut fmt::Formatter<W>, error: &ModuleError) -> fmt::Result {
    match error.offset() {
        Some(offset) => write!(f, "error at {offset}: {error}"),
        None => write!(f, "error: {error}"),
    }
}

// The name of the file that a word names.
fn name_of(word: &str) -> &str {
    if word == "-" { "standard input" } else { word }
}
