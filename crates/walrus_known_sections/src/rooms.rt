//! Entries that there may be no room for.

ghost use Rattle.std.specs.Prelude.{◌≡◌};
ghost use Rattle.walrus_known_sections.specs.Rooms.{in_room, is_memory};

use walrus_section_values::section_reader::{Fault, FaultKind, Limited, Result};
use wasm_reader::ErrorKind;

// Whether it is want of memory.
fn is_memory(kind: FaultKind) -> bool
    ensures { result ≡ is_memory kind }
{
    match kind {
        FaultKind::Read(kind) => matches!(kind, ErrorKind::Memory),
        _ => false,
    }
}

/// What was read where there is room for it; where there is none that is `Limit` at this first byte, if no fault stands there.
pub fn in_room<T: Drop>(room: bool, of: Limited, offset: u64, read: Result<T>) -> Result<T>
    ensures { result ≡ in_room room of offset read }
{
    if room {
        return read;
    }
    match read {
        Err(fault) if is_memory(fault.kind) || fault.offset <= offset => Err(fault),
        _ => Err(Fault::new(FaultKind::Limit(of), offset)),
    }
}
