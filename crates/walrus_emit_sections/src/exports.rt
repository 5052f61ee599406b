//! The export section.

ghost use Rattle.walrus_index_maps.specs.Views.{indices};
ghost use Rattle.walrus_pairing.specs.Looks.{number_of};
ghost use Rattle.walrus_item_meaning.specs.Meaning.{own_export, own_given, slots_of};
ghost use Rattle.walrus_emit_parts.specs.Due.{Writes};
ghost use Rattle.walrus_emit_due.specs.Items.{export, exports, kind_index};

use crate::own::{OwnEntry, write_limited};
use walrus_collections::ModuleExports;
use walrus_collections::module_items::{Export, ExportItem};
use walrus_emit_parts::{write_byte, write_name};
use walrus_emit_values::write_index;
use walrus_errors::{Limited, Result};
use walrus_index_maps::IdsToIndices;
use wasm_formats::Space;

// What a reader takes at most.
const MAX: u64 = 1_000_000;

// The kind of an item, and its number.
#[tactic(auto, using(walrus_emit_values::proofs::Lemmas::byte_on))]
fn write_item(out: &mut Vec<u8>, item: ExportItem, maps: &IdsToIndices) -> Result<()>
    ensures { Writes (kind_index (number_of (indices maps.now) 0) (own_given item).space (own_given item).number) out.old.items out.new.items result }
{
    match item {
        ExportItem::Function(id) => {
            put!(write_byte(out, 0));
            write_index(out, Space::Function, maps.get_func_index(id))
        }
        ExportItem::Table(id) => {
            put!(write_byte(out, 1));
            write_index(out, Space::Table, maps.get_table_index(id))
        }
        ExportItem::Memory(id) => {
            put!(write_byte(out, 2));
            write_index(out, Space::Memory, maps.get_memory_index(id))
        }
        ExportItem::Global(id) => {
            put!(write_byte(out, 3));
            write_index(out, Space::Global, maps.get_global_index(id))
        }
        ExportItem::Tag(id) => {
            put!(write_byte(out, 4));
            write_index(out, Space::Tag, maps.get_tag_index(id))
        }
    }
}

#[tactic(auto, using(walrus_emit_parts::proofs::Lemmas::writes_on, walrus_emit_parts::proofs::Lemmas::refused_front))]
fn write_export(out: &mut Vec<u8>, item: &Export, maps: &IdsToIndices) -> Result<()>
    ensures { Writes (export (number_of (indices maps.now) 0) (own_export item.now)) out.old.items out.new.items result }
{
    put!(write_name(out, item.name.as_str()));
    write_item(out, item.item, maps)
}

#[derive(Clone, Copy)]
struct Exports<'a>(&'a IdsToIndices);

impl<'a> OwnEntry<Export> for Exports<'a> {
    ghost use Rattle.std.specs.Prelude.{true};
    ghost use Rattle.wasm_grammar.specs.Modules as grammar;
    ghost use Rattle.walrus_index_maps.specs.Views.{indices};
    ghost use Rattle.walrus_pairing.specs.Looks.{number_of};
    ghost use Rattle.walrus_item_meaning.specs.Meaning.{own_export};
    ghost use Rattle.walrus_emit_due.specs.Items.{export};

    ghost Seen = { grammar.Export };

    ghost see = { own_export };

    ghost has_entry = { λ _. true };

    ghost due = { λ w. export (number_of (indices w.0.now) 0) };

    fn has_entry(&self, _item: &Export) -> bool {
        true
    }

    fn write(&self, out: &mut Vec<u8>, item: &Export) -> Result<()> {
        write_export(out, item, self.0)
    }
}

/// Puts the export section behind the bytes, by rising id; nothing where there is none.
///
/// # Errors
///
/// `OutputLimit` where more exports live than a reader takes, or a name is longer; `DeadReference` where an item has no number; want of
/// memory. What was there stands at the front.
pub fn emit_exports(out: &mut Vec<u8>, items: &ModuleExports, maps: &IdsToIndices) -> Result<()>
    ensures { Writes (exports (number_of (indices maps.now) 0) (slots_of own_export items.now)) out.old.items out.new.items result }
{
    write_limited(out, 7, &Exports(maps), items, MAX, Limited::Exports)
}
