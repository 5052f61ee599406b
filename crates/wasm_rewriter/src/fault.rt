//! Why a module isn't rewritten, and where.

ghost use Rattle.std.specs.Prelude.{◌≡◌, Some};
ghost use Rattle.wasm_rewriter.specs.Faults.{offset_of};
ghost use Rattle.wasm_rewriter.specs.Texts.{fault_text};

use std::{error, fmt};
use walrus_errors::{Form, Limited, Space};
use wasm_formats::reader::Error;

/// Why a module isn't rewritten. Where the cause is in the bytes, `offset` is its place from the beginning of the file, in bytes.
#[derive(Clone, Copy, Debug, PartialEq, Eq)]
pub enum Fault {
    /// The bytes spell no value that may stand there.
    Read(Error),
    /// The first eight bytes aren't the magic number and the version.
    Header { offset: u64 },
    /// A section that is unknown, late or repeated; at its id.
    SectionOrder { offset: u64 },
    /// A section that is longer than the file, at its size, or than its contents, at the first byte that is left over.
    SectionSize { offset: u64 },
    /// Two counts that have to agree and don't; at the later one, or at the file's end.
    Count { offset: u64 },
    /// An index with no item.
    Index { space: Space, offset: u64 },
    /// A function type is needed.
    TypeForm { offset: u64 },
    /// An operator that isn't constant.
    ConstExpr { offset: u64 },
    /// An offset of the wrong type.
    OffsetType { offset: u64 },
    /// Blocks that don't nest.
    Nesting { offset: u64 },
    /// An operator that may not stand where it does.
    Position { offset: u64 },
    /// No operator, or one that is switched off.
    Operator { offset: u64 },
    /// A form of the standard that isn't supported.
    Unsupported { form: Form, offset: u64 },
    /// A second export of a name; at its entry.
    DuplicateExport { offset: u64 },
    /// A number out of bounds.
    Bounds { offset: u64 },
    /// More items, or a longer body, than may be; at the entry, count or size.
    Limit { of: Limited, offset: u64 },
    /// The output would pass a limit.
    OutputLimit { of: Limited },
    /// A reference to a deleted item.
    DeadReference { space: Space },
    /// Instruction sequences that form no tree.
    NoTree,
    /// An import and an item that don't name each other, or a function without a body.
    NotLinked,
    /// A growth was refused.
    Memory,
    /// The input is longer than 2^30 bytes.
    InputTooLong,
    /// The reader failed.
    ReaderFault,
    /// The writer failed once it had taken this many bytes.
    WriterFault { written: u64 },
    /// The writer of places failed once it had taken this many bytes.
    PlacesFault { written: u64 },
}

impl Fault {
    /// The place of its cause from the beginning of the file, in bytes, where its cause is in the bytes.
    pub fn offset(&self) -> Option<u64>
        ensures { result ≡ offset_of self.now }
    {
        match *self {
            Fault::Read(error) => Some(error.offset()),
            Fault::Header { offset }
            | Fault::SectionOrder { offset }
            | Fault::SectionSize { offset }
            | Fault::Count { offset }
            | Fault::Index { offset, .. }
            | Fault::TypeForm { offset }
            | Fault::ConstExpr { offset }
            | Fault::OffsetType { offset }
            | Fault::Nesting { offset }
            | Fault::Position { offset }
            | Fault::Operator { offset }
            | Fault::Unsupported { offset, .. }
            | Fault::DuplicateExport { offset }
            | Fault::Bounds { offset }
            | Fault::Limit { offset, .. } => Some(offset),
            _ => None,
        }
    }
}

impl fmt::Display for Fault {
    ghost output = { λ fault. Some (fault_text fault) };

    fn fmt<W: fmt::Write>(&self, f: &mut fmt::Formatter<W>) -> fmt::Result {
        match self {
            Fault::Read(error) => write!(f, "{}", error.message()),
            Fault::Header { .. } => write!(f, "not a WebAssembly module"),
            Fault::SectionOrder { .. } => write!(f, "section out of order"),
            Fault::SectionSize { .. } => write!(f, "section size is wrong"),
            Fault::Count { .. } => write!(f, "counts do not agree"),
            Fault::Index { space, .. } => write!(f, "index of a {space} is out of range"),
            Fault::TypeForm { .. } => write!(f, "a function type is needed"),
            Fault::ConstExpr { .. } => write!(f, "not a constant expression"),
            Fault::OffsetType { .. } => write!(f, "offset has the wrong type"),
            Fault::Nesting { .. } => write!(f, "blocks do not nest"),
            Fault::Position { .. } => write!(f, "operator may not stand here"),
            Fault::Operator { .. } => write!(f, "unknown operator"),
            Fault::Unsupported { form, .. } => write!(f, "not supported: {form}"),
            Fault::DuplicateExport { .. } => write!(f, "duplicate export name"),
            Fault::Bounds { .. } => write!(f, "number out of bounds"),
            Fault::Limit { of, .. } => write!(f, "limit passed: {of}"),
            Fault::OutputLimit { of } => write!(f, "output limit passed: {of}"),
            Fault::DeadReference { space } => write!(f, "reference to a deleted {space}"),
            Fault::NoTree => write!(f, "instructions form no tree"),
            Fault::NotLinked => write!(f, "import and item do not agree"),
            Fault::Memory => write!(f, "out of memory"),
            Fault::InputTooLong => write!(f, "input is too long"),
            Fault::ReaderFault => write!(f, "input can not be read"),
            Fault::WriterFault { written } => {
                write!(f, "output can not be written after {written} bytes")
            }
            Fault::PlacesFault { written } => {
                write!(f, "places can not be written after {written} bytes")
            }
        }
    }
}

impl error::Error for Fault {}
