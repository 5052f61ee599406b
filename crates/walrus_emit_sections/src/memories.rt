//! The memory section.

ghost use Rattle.std.specs.Prelude.{◌≡◌};
ghost use Rattle.walrus_item_meaning.specs.Meaning.{own_memory, slots_of};
ghost use Rattle.walrus_emit_parts.specs.Due.{Writes};
ghost use Rattle.walrus_emit_due.specs.Values.{optional};
ghost use Rattle.walrus_emit_due.specs.Items.{memories, memory, memory_flags};

use crate::own::{OwnEntry, write_limited};
use walrus_collections::ModuleMemories;
use walrus_collections::module_items::Memory;
use walrus_emit_parts::write_number;
use walrus_emit_values::write_limits;
use walrus_errors::{Limited, Result};

// What a reader takes at most.
const MAX: u64 = 100;

// The flags of its limits.
fn flags(memory: &Memory) -> u8
    ensures { result ≡ memory_flags (own_memory memory.now) }
{
    let maximum = if memory.maximum.is_some() { 1 } else { 0 };
    let shared = if memory.shared { 2 } else { 0 };
    let wide = if memory.memory64 { 4 } else { 0 };
    let page = if memory.page_size_log2.is_some() {
        8
    } else {
        0
    };
    maximum + shared + wide + page
}

// The logarithm of the page size, where it is written.
#[tactic(auto, using(walrus_emit_parts::proofs::Lemmas::nothing))]
fn write_page(out: &mut Vec<u8>, log: Option<u32>) -> Result<()>
    ensures { Writes (optional log) out.old.items out.new.items result }
{
    match log {
        Some(n) => write_number(out, u64::from(n)),
        None => Ok(()),
    }
}

/// The type of a memory.
///
/// # Errors
///
/// Want of memory. What was there stands at the front.
pub fn write_memory(out: &mut Vec<u8>, item: &Memory) -> Result<()>
    ensures { Writes (memory (own_memory item.now)) out.old.items out.new.items result }
{
    put!(write_limits(out, flags(item), item.initial, item.maximum));
    write_page(out, item.page_size_log2)
}

struct Memories;

impl OwnEntry<Memory> for Memories {
    ghost use Rattle.std.specs.Option.{is_none};
    ghost use Rattle.wasm_grammar.specs.Modules as grammar;
    ghost use Rattle.walrus_item_meaning.specs.Meaning.{own_memory};
    ghost use Rattle.walrus_emit_due.specs.Items.{memory};

    ghost Seen = { grammar.Memory };

    ghost see = { own_memory };

    ghost has_entry = { λ x. is_none x.imported };

    ghost due = { λ _. memory };

    fn has_entry(&self, item: &Memory) -> bool {
        item.import.is_none()
    }

    fn write(&self, out: &mut Vec<u8>, item: &Memory) -> Result<()> {
        write_memory(out, item)
    }
}

/// Puts the memory section behind the bytes: the module's own memories, by rising id; nothing where there is none.
///
/// # Errors
///
/// `OutputLimit` where more memories live than a reader takes; want of memory. What was there stands at the front.
pub fn emit_memories(out: &mut Vec<u8>, items: &ModuleMemories) -> Result<()>
    ensures { Writes (memories (slots_of own_memory items.now)) out.old.items out.new.items result }
{
    write_limited(out, 5, &Memories, items, MAX, Limited::Memories)
}
