//! Why a custom section refuses.
ghost use Rattle.std.specs.Prelude.{◌≡◌};
ghost use Rattle.walrus_sections.specs.Refusals.{refusal_of};
ghost use Rattle.walrus_sections.specs.declared.fault.SectionFault.TheVariants as faults;

use std::alloc::{AllocError, AllocFailed};
use walrus_errors::ModuleError;

/// Why a custom section refuses.
#[derive(Clone, Copy, Debug, PartialEq, Eq)]
pub enum SectionFault {
    /// A growth was refused.
    Memory,
    /// The section refuses by itself.
    Refused,
}

impl From<AllocError> for SectionFault {
    ghost from_gives = { λ _ fault. fault ≡ faults.Memory };

    fn from(_refused: AllocError) -> SectionFault {
        SectionFault::Memory
    }
}

impl<T: Drop> From<AllocFailed<T>> for SectionFault {
    ghost from_gives = { λ _ fault. fault ≡ faults.Memory };

    fn from(_refused: AllocFailed<T>) -> SectionFault {
        SectionFault::Memory
    }
}

impl From<SectionFault> for ModuleError {
    ghost from_gives = { λ fault refusal. refusal ≡ refusal_of fault };

    /// The refusal of a call that asked the section.
    fn from(fault: SectionFault) -> ModuleError {
        match fault {
            SectionFault::Memory => ModuleError::Memory,
            SectionFault::Refused => ModuleError::SectionRefused,
        }
    }
}
