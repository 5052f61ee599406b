//! Why sections are refused, and where.

ghost use Rattle.std.specs.Prelude.{◌≡◌};
ghost use Rattle.walrus_section_reader.specs.Faults.{fault_of};

use std::alloc::{AllocError, AllocFailed};
use walrus_errors::ModuleError;
use wasm_formats::{Form, Limited, Space};
use wasm_reader::{Error, ErrorKind};

/// What a reader of sections answers.
pub type Result<T, E = Fault> = std::result::Result<T, E>;

/// Why sections are refused.
#[derive(Clone, Copy, Debug, PartialEq, Eq)]
pub enum FaultKind {
    /// The bytes spell no value that may stand there; or memory was refused.
    Read(ErrorKind),
    /// The first eight bytes aren't the magic number and the version.
    Header,
    /// A section that is unknown, late or repeated.
    SectionOrder,
    /// A section that is longer than the file, or than its contents.
    SectionSize,
    /// Two counts that have to agree and don't.
    Count,
    /// An index with no item.
    Index(Space),
    /// A function type is needed.
    TypeForm,
    /// An operator that isn't constant.
    ConstExpr,
    /// An offset of the wrong type.
    OffsetType,
    /// A form of the standard that isn't supported.
    Unsupported(Form),
    /// A second export of a name.
    DuplicateExport,
    /// A number out of bounds.
    Bounds,
    /// More items, or a longer body, than may be.
    Limit(Limited),
}

/// Why sections are refused, and where: `offset` counts bytes from the beginning of the file. Want of memory has no place of its own.
#[derive(Clone, Copy, Debug, PartialEq, Eq)]
pub struct Fault {
    /// Why.
    pub kind: FaultKind,
    /// The place of the cause.
    pub offset: u64,
}

impl Fault {
    /// A fault of this kind at this offset.
    pub fn new(kind: FaultKind, offset: u64) -> Fault
        ensures { result ≡ fault_of kind offset }
    {
        Fault { kind, offset }
    }
}

impl From<Error> for Fault {
    ghost use Rattle.std.specs.Prelude.{◌≡◌};
    ghost use Rattle.walrus_section_reader.specs.Faults.{read_fault};

    ghost from_gives = { λ error fault. fault ≡ read_fault error };

    fn from(error: Error) -> Fault {
        Fault {
            kind: FaultKind::Read(error.kind()),
            offset: error.offset(),
        }
    }
}

impl<T: Drop> From<AllocFailed<T>> for Fault {
    ghost use Rattle.std.specs.Prelude.{◌≡◌};
    ghost use Rattle.walrus_section_reader.specs.Faults.{no_memory};

    ghost from_gives = { λ _ fault. fault ≡ no_memory };

    fn from(_refused: AllocFailed<T>) -> Fault {
        Fault {
            kind: FaultKind::Read(ErrorKind::Memory),
            offset: 0,
        }
    }
}

impl From<AllocError> for Fault {
    ghost use Rattle.std.specs.Prelude.{◌≡◌};
    ghost use Rattle.walrus_section_reader.specs.Faults.{no_memory};

    ghost from_gives = { λ _ fault. fault ≡ no_memory };

    fn from(_refused: AllocError) -> Fault {
        Fault {
            kind: FaultKind::Read(ErrorKind::Memory),
            offset: 0,
        }
    }
}

impl From<Fault> for ModuleError {
    ghost use Rattle.std.specs.Prelude.{◌≡◌};
    ghost use Rattle.walrus_section_reader.specs.Faults.{error_of};

    ghost from_gives = { λ fault error. error ≡ error_of fault };

    /// The same refusal as that of a module.
    fn from(fault: Fault) -> ModuleError {
        let offset = fault.offset;
        match fault.kind {
            FaultKind::Read(kind) => ModuleError::from(Error::new(kind, offset)),
            FaultKind::Header => ModuleError::Header { offset },
            FaultKind::SectionOrder => ModuleError::SectionOrder { offset },
            FaultKind::SectionSize => ModuleError::SectionSize { offset },
            FaultKind::Count => ModuleError::Count { offset },
            FaultKind::Index(space) => ModuleError::Index { space, offset },
            FaultKind::TypeForm => ModuleError::TypeForm { offset },
            FaultKind::ConstExpr => ModuleError::ConstExpr { offset },
            FaultKind::OffsetType => ModuleError::OffsetType { offset },
            FaultKind::Unsupported(form) => ModuleError::Unsupported {
                form,
                offset: Some(offset),
            },
            FaultKind::DuplicateExport => ModuleError::DuplicateExport { offset },
            FaultKind::Bounds => ModuleError::Bounds { offset },
            FaultKind::Limit(of) => ModuleError::Limit { of, offset },
        }
    }
}
