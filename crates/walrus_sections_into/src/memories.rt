//! Memories.

ghost use Rattle.std.specs.Prelude.{◌≡◌, IfErr, OnOk, OnErr};
ghost use Rattle.walrus_known_sections.specs.Items.{memory_of};
ghost use Rattle.walrus_arena.specs.Arena.{next_id};
ghost use Rattle.walrus_collections.specs.Added.{Adds};
ghost use Rattle.walrus_collections.specs.walrus_module_items.Words.{own_memory};
ghost use Rattle.walrus_sections_into.specs.Slots.{Filled, FilledInPart, IsMemoryOf};
ghost use Rattle.walrus_sections_into.specs.declared.error.IntoError.TheVariants.{Memory as NoMemory};

use crate::error::IntoError;
use crate::ids::import_id;
use walrus_collections::ModuleMemories;
use walrus_known_sections::Memory;

fn add_memory(memory: &Memory, into: &mut ModuleMemories) -> Result<(), IntoError>
    ensures added { OnOk result (Adds (IsMemoryOf (next_id into.old) memory.now) into.old into.new) }
    ensures refused { OnErr result (into.new ≡ into.old) }
    ensures memory { IfErr result (λ e. e ≡ NoMemory) }
{
    let limits = memory.ty.limits;
    let shared = limits.is_shared();
    let wide = limits.is_wide();
    let page_size = memory.ty.page_size_log2;
    match memory.import {
        Some(import) => {
            let import = import_id(import)?;
            into.add_import(
                shared,
                wide,
                limits.minimum,
                limits.maximum,
                page_size,
                import,
            )?;
            Ok(())
        }
        None => {
            into.add_local(shared, wide, limits.minimum, limits.maximum, page_size)?;
            Ok(())
        }
    }
}

/// Adds the memories, imported ones too, in their order.
///
/// # Errors
///
/// Want of memory. The first of the memories may be there.
pub fn add_memories(memories: &[Memory], into: &mut ModuleMemories) -> Result<(), IntoError>
    ensures added { OnOk result (Filled IsMemoryOf memories.now into.old.slots into.new.slots) }
    ensures in_part { OnErr result (FilledInPart IsMemoryOf memories.now into.old.slots into.new.slots) }
    ensures memory { IfErr result (λ e. e ≡ NoMemory) }
{
    for memory in memories {
        add_memory(memory, into)?;
    }
    Ok(())
}
