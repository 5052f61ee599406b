//! An instruction put into a sequence.

ghost use Rattle.std.specs.Prelude.{◌≡◌, ◌≤◌, length, OnOk, OnErr, insert};

use std::alloc::AllocError;
use walrus_instr::{Instr, InstrLocId};

/// Inserts an instruction without a location. Asks for a position at most the sequence's length.
///
/// # Errors
///
/// Want of memory. The sequence stays as it was, and the instruction is dropped.
pub fn insert_at(
    instrs: &mut Vec<(Instr, InstrLocId)>,
    position: usize,
    instr: Instr,
) -> Result<(), AllocError>
    requires { position ≤ length instrs.old.items }
    ensures inserted { OnOk result (instrs.new.items ≡ insert instrs.old.items position (instr, record { 0 = 4294967295 })) }
    ensures refused { OnErr result (instrs.new.items ≡ instrs.old.items) }
{
    instrs.insert(position, (instr, InstrLocId::default()))?;
    Ok(())
}
