// What the program says where it fails.
use std::{fmt, io};
use wasm_rewriter::Fault;

/// A fault, and for one of a file the word that names it and what the system said, or what is said of a text.
#[derive(Drop)]
pub struct Failure<'a> {
    /// The fault.
    pub fault: Fault,
    /// The word of the file, and what is said of it.
    pub cause: Option<(&'a str, io::Error)>,
}

impl From<Fault> for Failure<'_> {
    ghost from_gives = { λ _ _. Unit };

    fn from(fault: Fault) -> Self {
        Failure { fault, cause: None }
    }
}

impl fmt::Display for Failure<'_> {
    fn fmt<W: fmt::Write>(&self, f: &mut fmt::Formatter<W>) -> fmt::Result {
        match self.fault.offset() {
            Some(offset) => write!(f, "error at {offset}: {}", self.fault)?,
            None => write!(f, "error: {}", self.fault)?,
        }
        match &self.cause {
            Some((file, cause)) => write!(f, "\n  {file}: {cause}"),
            None => Ok(()),
        }
    }
}
