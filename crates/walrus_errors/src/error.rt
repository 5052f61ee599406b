//! The refusals of calls on modules, and where they stand.
ghost use Rattle.std.specs.Prelude.{◌≡◌, Some};
ghost use Rattle.walrus_errors.specs.declared.error.ModuleError.TheVariants.{Memory};
ghost use Rattle.walrus_errors.specs.Refusals.{offset_of, refusal_of};
ghost use Rattle.walrus_errors.specs.Texts.{error_text, kind_text};

use std::alloc::{AllocError, AllocFailed};
use std::{error, fmt};
use wasm_formats::reader::{Error as ReadError, ErrorKind as ReadErrorKind};
use wasm_formats::{Form, Limited, Space};

/// What a call on a module answers.
pub type Result<T, E = ModuleError> = std::result::Result<T, E>;

/// A kind of error, without more.
#[derive(Clone, Copy, Debug, PartialEq, Eq)]
pub enum ErrorKind {
    /// The input isn't a WebAssembly module that is read here.
    InvalidWasm,
}

impl fmt::Display for ErrorKind {
    ghost output = { λ kind. Some (kind_text kind) };

    fn fmt<W: fmt::Write>(&self, f: &mut fmt::Formatter<W>) -> fmt::Result {
        match self {
            ErrorKind::InvalidWasm => write!(f, "The input WebAssembly is invalid"),
        }
    }
}

impl error::Error for ErrorKind {}

/// Why a call on a module is refused. Where the cause is in the bytes of a file, `offset` is its place from the
/// beginning of the file, in bytes.
#[derive(Clone, Copy, Debug, PartialEq, Eq)]
pub enum ModuleError {
    /// The bytes spell no value that may stand there.
    Read(ReadError),
    /// The first eight bytes aren't the magic number and the version.
    Header { offset: u64 },
    /// A section that is unknown, late or repeated; at its id.
    SectionOrder { offset: u64 },
    /// A section that is longer than the file, at its size, or than its contents, at the first byte that is left
    /// over.
    SectionSize { offset: u64 },
    /// Two counts that have to agree and don't; at the later one, or at the file's end.
    Count { offset: u64 },
    /// An index with no item.
    Index { space: Space, offset: u64 },
    /// A function type is needed.
    TypeForm { offset: u64 },
    /// An operator that isn't constant.
    ConstExpr { offset: u64 },
    /// An offset of the wrong type.
    OffsetType { offset: u64 },
    /// Blocks that don't nest.
    Nesting { offset: u64 },
    /// An operator that may not stand where it does.
    Position { offset: u64 },
    /// No operator, or one that is switched off.
    Operator { offset: u64 },
    /// A form of the standard that isn't supported; at its place, where it stands in bytes.
    Unsupported { form: Form, offset: Option<u64> },
    /// A second export of a name; at its entry.
    DuplicateExport { offset: u64 },
    /// A number out of bounds.
    Bounds { offset: u64 },
    /// More items, or a longer body, than may be; at the entry, count or size.
    Limit { of: Limited, offset: u64 },
    /// What is written would pass a limit.
    OutputLimit { of: Limited },
    /// A reference to a deleted item; of a type also to one that isn't written, or that is past its own group.
    DeadReference { space: Space },
    /// Instruction sequences that form no tree.
    NoTree,
    /// An import and an item that don't name each other, or a function without a body of its type.
    NotLinked,
    /// A growth was refused, or the caller's own code answered so.
    Memory,
    /// The input is longer than 2^30 bytes.
    InputTooLong,
    /// No item fits.
    NotFound,
    /// Several items fit.
    Several,
    /// The item is of another kind.
    WrongKind,
    /// A custom section refused.
    SectionRefused,
}

impl ModuleError {
    /// The place of its cause from the beginning of the file, in bytes, where its cause is in the bytes.
    pub fn offset(&self) -> Option<u64>
        ensures { result ≡ offset_of self.now }
    {
        match *self {
            ModuleError::Read(error) => Some(error.offset()),
            ModuleError::Header { offset }
            | ModuleError::SectionOrder { offset }
            | ModuleError::SectionSize { offset }
            | ModuleError::Count { offset }
            | ModuleError::Index { offset, .. }
            | ModuleError::TypeForm { offset }
            | ModuleError::ConstExpr { offset }
            | ModuleError::OffsetType { offset }
            | ModuleError::Nesting { offset }
            | ModuleError::Position { offset }
            | ModuleError::Operator { offset }
            | ModuleError::DuplicateExport { offset }
            | ModuleError::Bounds { offset }
            | ModuleError::Limit { offset, .. } => Some(offset),
            ModuleError::Unsupported { offset, .. } => offset,
            _ => None,
        }
    }
}

impl fmt::Display for ModuleError {
    ghost output = { λ error. Some (error_text error) };

    fn fmt<W: fmt::Write>(&self, f: &mut fmt::Formatter<W>) -> fmt::Result {
        match self {
            ModuleError::Read(error) => write!(f, "{}", error.message()),
            ModuleError::Header { .. } => write!(f, "not a WebAssembly module"),
            ModuleError::SectionOrder { .. } => write!(f, "section out of order"),
            ModuleError::SectionSize { .. } => write!(f, "section size is wrong"),
            ModuleError::Count { .. } => write!(f, "counts do not agree"),
            ModuleError::Index { space, .. } => write!(f, "index of a {space} is out of range"),
            ModuleError::TypeForm { .. } => write!(f, "a function type is needed"),
            ModuleError::ConstExpr { .. } => write!(f, "not a constant expression"),
            ModuleError::OffsetType { .. } => write!(f, "offset has the wrong type"),
            ModuleError::Nesting { .. } => write!(f, "blocks do not nest"),
            ModuleError::Position { .. } => write!(f, "operator may not stand here"),
            ModuleError::Operator { .. } => write!(f, "unknown operator"),
            ModuleError::Unsupported { form, .. } => write!(f, "not supported: {form}"),
            ModuleError::DuplicateExport { .. } => write!(f, "duplicate export name"),
            ModuleError::Bounds { .. } => write!(f, "number out of bounds"),
            ModuleError::Limit { of, .. } => write!(f, "limit passed: {of}"),
            ModuleError::OutputLimit { of } => write!(f, "output limit passed: {of}"),
            ModuleError::DeadReference { space } => write!(f, "reference to a deleted {space}"),
            ModuleError::NoTree => write!(f, "instructions form no tree"),
            ModuleError::NotLinked => write!(f, "import and item do not agree"),
            ModuleError::Memory => write!(f, "out of memory"),
            ModuleError::InputTooLong => write!(f, "input is too long"),
            ModuleError::NotFound => write!(f, "NotFound"),
            ModuleError::Several => write!(f, "Several"),
            ModuleError::WrongKind => write!(f, "WrongKind"),
            ModuleError::SectionRefused => write!(f, "SectionRefused"),
        }
    }
}

impl error::Error for ModuleError {}

impl From<ReadError> for ModuleError {
    ghost from_gives = { λ error refusal. refusal ≡ refusal_of error };

    /// The same refusal; want of memory is that of a module.
    fn from(error: ReadError) -> ModuleError {
        match error.kind() {
            ReadErrorKind::Memory => ModuleError::Memory,
            _ => ModuleError::Read(error),
        }
    }
}

impl<T: Drop> From<AllocFailed<T>> for ModuleError {
    ghost from_gives = { λ _ refusal. refusal ≡ Memory };

    fn from(_refused: AllocFailed<T>) -> ModuleError {
        ModuleError::Memory
    }
}

impl From<AllocError> for ModuleError {
    ghost from_gives = { λ _ refusal. refusal ≡ Memory };

    fn from(_refused: AllocError) -> ModuleError {
        ModuleError::Memory
    }
}
