//! The data section.

ghost use Rattle.std.specs.Prelude.{◌++◌};
ghost use Rattle.walrus_index_maps.specs.Views.{indices};
ghost use Rattle.walrus_pairing.specs.Looks.{number_of};
ghost use Rattle.walrus_item_meaning.specs.Meaning.{own_segment, slots_of};
ghost use Rattle.walrus_module_items.specs.Words.{own_expr};
ghost use Rattle.walrus_emit_parts.specs.Due.{Writes, number, text};
ghost use Rattle.walrus_emit_due.specs.Items.{active, contents, segment, segments};

use crate::own::{OwnEntry, write_limited};
use walrus_collections::ModuleData;
use walrus_collections::module_items::{Data, DataKind};
use walrus_emit_parts::{write_number, write_sized_bytes};
use walrus_emit_values::write_expr;
use walrus_errors::{Limited, ModuleError, Result};
use walrus_index_maps::IdsToIndices;
use walrus_instr::ConstExpr;
use wasm_formats::Space;

// What a reader takes at most.
const MAX: u64 = 100_000;

// An offset, and bytes.
#[tactic(auto, using(walrus_emit_parts::proofs::Lemmas::writes_on, walrus_emit_parts::proofs::Lemmas::refused_front))]
fn write_contents(
    out: &mut Vec<u8>,
    offset: &ConstExpr,
    bytes: &[u8],
    maps: &IdsToIndices,
) -> Result<()>
    ensures { Writes (contents (number_of (indices maps.now) 0) (own_expr offset.now) bytes.now) out.old.items out.new.items result }
{
    put!(write_expr(out, offset, maps));
    write_sized_bytes(out, bytes)
}

#[tactic(auto, using(walrus_emit_parts::proofs::Lemmas::writes_on, walrus_emit_parts::proofs::Lemmas::refused_front))]
fn write_first(
    out: &mut Vec<u8>,
    offset: &ConstExpr,
    bytes: &[u8],
    maps: &IdsToIndices,
) -> Result<()>
    ensures { Writes (number 0 ++ contents (number_of (indices maps.now) 0) (own_expr offset.now) bytes.now) out.old.items out.new.items result }
{
    put!(write_number(out, 0));
    write_contents(out, offset, bytes, maps)
}

#[tactic(auto, using(walrus_emit_parts::proofs::Lemmas::writes_on, walrus_emit_parts::proofs::Lemmas::refused_front))]
fn write_named(
    out: &mut Vec<u8>,
    memory: u32,
    offset: &ConstExpr,
    bytes: &[u8],
    maps: &IdsToIndices,
) -> Result<()>
    ensures { Writes (number memory ++ contents (number_of (indices maps.now) 0) (own_expr offset.now) bytes.now) out.old.items out.new.items result }
{
    put!(write_number(out, u64::from(memory)));
    write_contents(out, offset, bytes, maps)
}

#[tactic(auto, using(walrus_emit_parts::proofs::Lemmas::writes_on, walrus_emit_parts::proofs::Lemmas::refused_front))]
fn write_other(
    out: &mut Vec<u8>,
    memory: u32,
    offset: &ConstExpr,
    bytes: &[u8],
    maps: &IdsToIndices,
) -> Result<()>
    ensures { Writes (number 2 ++ (number memory ++ contents (number_of (indices maps.now) 0) (own_expr offset.now) bytes.now)) out.old.items out.new.items result }
{
    put!(write_number(out, 2));
    write_named(out, memory, offset, bytes, maps)
}

#[tactic(auto, using(walrus_emit_parts::proofs::Lemmas::writes_on, walrus_emit_parts::proofs::Lemmas::refused_front))]
fn write_passive(out: &mut Vec<u8>, bytes: &[u8]) -> Result<()>
    ensures { Writes (number 1 ++ text bytes.now) out.old.items out.new.items result }
{
    put!(write_number(out, 1));
    write_sized_bytes(out, bytes)
}

fn write_active(
    out: &mut Vec<u8>,
    memory: Option<u32>,
    offset: &ConstExpr,
    bytes: &[u8],
    maps: &IdsToIndices,
) -> Result<()>
    ensures { Writes (active (number_of (indices maps.now) 0) memory (own_expr offset.now) bytes.now) out.old.items out.new.items result }
{
    match memory {
        Some(number) => {
            if number == 0 {
                write_first(out, offset, bytes, maps)
            } else {
                write_other(out, number, offset, bytes, maps)
            }
        }
        None => Err(ModuleError::DeadReference {
            space: Space::Memory,
        }),
    }
}

fn write_segment(out: &mut Vec<u8>, item: &Data, maps: &IdsToIndices) -> Result<()>
    ensures { Writes (segment (number_of (indices maps.now) 0) (own_segment item.now)) out.old.items out.new.items result }
{
    match &item.kind {
        DataKind::Active { memory, offset } => {
            write_active(
                out,
                maps.get_memory_index(*memory),
                offset,
                item.value.as_slice(),
                maps,
            )
        }
        DataKind::Passive => write_passive(out, item.value.as_slice()),
    }
}

#[derive(Clone, Copy)]
struct Segments<'a>(&'a IdsToIndices);

impl<'a> OwnEntry<Data> for Segments<'a> {
    ghost use Rattle.std.specs.Prelude.{true};
    ghost use Rattle.wasm_grammar.specs.Modules as grammar;
    ghost use Rattle.walrus_index_maps.specs.Views.{indices};
    ghost use Rattle.walrus_pairing.specs.Looks.{number_of};
    ghost use Rattle.walrus_item_meaning.specs.Meaning.{own_segment};
    ghost use Rattle.walrus_emit_due.specs.Items.{segment};

    ghost Seen = { grammar.Segment };

    ghost see = { own_segment };

    ghost has_entry = { λ _. true };

    ghost due = { λ w. segment (number_of (indices w.0.now) 0) };

    fn has_entry(&self, _item: &Data) -> bool {
        true
    }

    fn write(&self, out: &mut Vec<u8>, item: &Data) -> Result<()> {
        write_segment(out, item, self.0)
    }
}

/// Puts the data section behind the bytes, by rising id; nothing where there is no segment.
///
/// # Errors
///
/// `OutputLimit` where more segments live than a reader takes; `DeadReference` where something that one names has no number;
/// `Unsupported` of exact types; want of memory. What was there stands at the front.
pub fn emit_data(out: &mut Vec<u8>, items: &ModuleData, maps: &IdsToIndices) -> Result<()>
    ensures { Writes (segments (number_of (indices maps.now) 0) (slots_of own_segment items.now)) out.old.items out.new.items result }
{
    write_limited(out, 11, &Segments(maps), items, MAX, Limited::Data)
}
