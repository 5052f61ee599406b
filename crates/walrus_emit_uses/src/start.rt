//! The start function (Core Specification, binary format: start section).

ghost use Rattle.walrus_index_maps.specs.Views.{indices};
ghost use Rattle.walrus_pairing.specs.Looks.{number_of};
ghost use Rattle.walrus_emit_parts.specs.Due.{Writes};
ghost use Rattle.walrus_emit_due.specs.Starts as starts;

use walrus_arena::FunctionId;
use walrus_emit_parts::{Part, write_section};
use walrus_emit_values::write_index;
use walrus_errors::{Result, Space};
use walrus_index_maps::IdsToIndices;

#[derive(Clone, Copy)]
struct Start(Option<u32>);

impl Part for Start {
    ghost use Rattle.wasm_formats.specs.declared.fault.Space.TheVariants as spaces;
    ghost use Rattle.walrus_emit_due.specs.Values.{index};

    ghost due = { λ w. index spaces.Function w.0 };

    fn write(&self, out: &mut Vec<u8>) -> Result<()> {
        write_index(out, Space::Function, self.0)
    }
}

/// Puts the start section behind the bytes, where there is a start function.
///
/// # Errors
///
/// `DeadReference` where it has no number; want of memory. What was there stands at the front.
#[tactic(auto, using(walrus_emit_parts::proofs::Lemmas::nothing))]
pub fn emit_start(out: &mut Vec<u8>, start: Option<FunctionId>, maps: &IdsToIndices) -> Result<()>
    ensures { Writes (starts.start (number_of (indices maps.now) 0) start) out.old.items out.new.items result }
{
    match start {
        Some(id) => write_section(out, 8, &Start(maps.get_func_index(id))),
        None => Ok(()),
    }
}
