//! Why a body is refused, and where.

ghost use Rattle.std.specs.Prelude.{◌≡◌, Some};
ghost use Rattle.walrus_body_env.specs.Faults.{body_error_text, number_of, offset_of};
ghost use Rattle.walrus_body_env.specs.declared.error.BodyError.TheVariants.{Index, Limit, Memory};
ghost use Rattle.walrus_body_env.specs.Refusals.{module_error, place_of};

use std::alloc::{AllocError, AllocFailed};
use std::{error, fmt};
use walrus_errors::ModuleError;
use walrus_operators::the_reader::{Error, ErrorKind};
use wasm_formats::{Form, Limited, Space};

/// Why a body is refused. Where the cause is in the bytes, `offset` is its place from the beginning of the file, in bytes; there is
/// none for a fault of a call that no bytes were handed to.
#[derive(Clone, Copy, Debug, PartialEq, Eq)]
pub enum BodyError {
    /// The bytes spell no value that may stand there.
    Read(Error),
    /// An index with no item.
    Index { space: Space, offset: Option<u64> },
    /// A function type is needed, or there is none that a block type may pick.
    TypeForm { offset: Option<u64> },
    /// Blocks that don't nest.
    Nesting { offset: Option<u64> },
    /// An operator that may not stand where it does.
    Position { offset: Option<u64> },
    /// No operator, or one that is switched off.
    Operator { offset: Option<u64> },
    /// A form of the standard that isn't supported.
    Unsupported { form: Form, offset: Option<u64> },
    /// A number out of bounds.
    Bounds { offset: Option<u64> },
    /// More than may be.
    Limit { of: Limited, offset: Option<u64> },
    /// Sequences that form no tree, or a label whose sequence isn't around it.
    NoTree,
    /// A growth was refused.
    Memory,
}

impl BodyError {
    /// The number of the fault: of two that are due at one place, the lower one is answered.
    pub fn number(&self) -> u32
        ensures { result ≡ number_of self.now }
    {
        match self {
            BodyError::Read(_) => 1,
            BodyError::Index { .. } => 6,
            BodyError::TypeForm { .. } => 7,
            BodyError::Nesting { .. } => 10,
            BodyError::Position { .. } => 11,
            BodyError::Operator { .. } => 12,
            BodyError::Unsupported { .. } => 13,
            BodyError::Bounds { .. } => 15,
            BodyError::Limit { .. } => 16,
            BodyError::NoTree => 19,
            BodyError::Memory => 21,
        }
    }

    /// The place of its cause from the beginning of the file, in bytes, where its cause is in the bytes.
    pub fn offset(&self) -> Option<u64>
        ensures { result ≡ offset_of self.now }
    {
        match *self {
            BodyError::Read(error) => Some(error.offset()),
            BodyError::Index { offset, .. }
            | BodyError::TypeForm { offset }
            | BodyError::Nesting { offset }
            | BodyError::Position { offset }
            | BodyError::Operator { offset }
            | BodyError::Unsupported { offset, .. }
            | BodyError::Bounds { offset }
            | BodyError::Limit { offset, .. } => offset,
            BodyError::NoTree | BodyError::Memory => None,
        }
    }
}

impl fmt::Display for BodyError {
    ghost output = { λ fault. Some (body_error_text fault) };

    fn fmt<W: fmt::Write>(&self, f: &mut fmt::Formatter<W>) -> fmt::Result {
        match self {
            BodyError::Read(error) => write!(f, "{}", error.message()),
            BodyError::Index { space, .. } => write!(f, "index of a {space} is out of range"),
            BodyError::TypeForm { .. } => write!(f, "a function type is needed"),
            BodyError::Nesting { .. } => write!(f, "blocks do not nest"),
            BodyError::Position { .. } => write!(f, "operator may not stand here"),
            BodyError::Operator { .. } => write!(f, "unknown operator"),
            BodyError::Unsupported { form, .. } => write!(f, "not supported: {form}"),
            BodyError::Bounds { .. } => write!(f, "number out of bounds"),
            BodyError::Limit { of, .. } => write!(f, "limit passed: {of}"),
            BodyError::NoTree => write!(f, "instructions form no tree"),
            BodyError::Memory => write!(f, "out of memory"),
        }
    }
}

impl error::Error for BodyError {}

impl From<Error> for BodyError {
    ghost use Rattle.std.specs.Prelude.{◌≡◌};
    ghost use Rattle.walrus_body_env.specs.Faults.{read_fault};

    ghost from_gives = { λ error fault. fault ≡ read_fault error };

    fn from(error: Error) -> BodyError {
        match error.kind() {
            ErrorKind::Memory => BodyError::Memory,
            _ => BodyError::Read(error),
        }
    }
}

impl<T: Drop> From<AllocFailed<T>> for BodyError {
    ghost from_gives = { λ _ fault. fault ≡ Memory };

    fn from(_refused: AllocFailed<T>) -> BodyError {
        BodyError::Memory
    }
}

impl From<AllocError> for BodyError {
    ghost from_gives = { λ _ fault. fault ≡ Memory };

    fn from(_refused: AllocError) -> BodyError {
        BodyError::Memory
    }
}

// Where a body is read its refusals have places; a fault without one stands at the beginning.
fn place_of(place: Option<u64>) -> u64
    ensures { result ≡ place_of place }
{
    match place {
        Some(place) => place,
        None => 0,
    }
}

fn index_error(space: Space, place: Option<u64>) -> ModuleError
    ensures { result ≡ module_error (Index space place) }
{
    match place {
        Some(offset) => ModuleError::Index { space, offset },
        None => ModuleError::DeadReference { space },
    }
}

fn limit_error(of: Limited, place: Option<u64>) -> ModuleError
    ensures { result ≡ module_error (Limit of place) }
{
    match place {
        Some(offset) => ModuleError::Limit { of, offset },
        None => ModuleError::OutputLimit { of },
    }
}

impl From<BodyError> for ModuleError {
    ghost use Rattle.std.specs.Prelude.{◌≡◌};
    ghost use Rattle.walrus_body_env.specs.Refusals.{module_error};

    ghost from_gives = { λ fault error. error ≡ module_error fault };

    /// The same refusal, of the module. A fault without a place is one of a body that is written: what has no number isn't there, and a
    /// limit is one of the output.
    fn from(fault: BodyError) -> ModuleError {
        match fault {
            BodyError::Read(error) => ModuleError::from(error),
            BodyError::Index { space, offset } => index_error(space, offset),
            BodyError::TypeForm { offset } => ModuleError::TypeForm {
                offset: place_of(offset),
            },
            BodyError::Nesting { offset } => ModuleError::Nesting {
                offset: place_of(offset),
            },
            BodyError::Position { offset } => ModuleError::Position {
                offset: place_of(offset),
            },
            BodyError::Operator { offset } => ModuleError::Operator {
                offset: place_of(offset),
            },
            BodyError::Unsupported { form, offset } => ModuleError::Unsupported { form, offset },
            BodyError::Bounds { offset } => ModuleError::Bounds {
                offset: place_of(offset),
            },
            BodyError::Limit { of, offset } => limit_error(of, offset),
            BodyError::NoTree => ModuleError::NoTree,
            BodyError::Memory => ModuleError::Memory,
        }
    }
}
