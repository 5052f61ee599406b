//! The table section.

ghost use Rattle.std.specs.Prelude.{◌≡◌, ◌++◌, Some};
ghost use Rattle.walrus_index_maps.specs.Views.{indices};
ghost use Rattle.walrus_pairing.specs.Looks.{number_of};
ghost use Rattle.walrus_item_meaning.specs.Meaning.{own_table, slots_of};
ghost use Rattle.walrus_module_items.specs.Words.{own_expr};
ghost use Rattle.walrus_emit_parts.specs.Due.{Writes};
ghost use Rattle.walrus_emit_due.specs.Values.{expr};
ghost use Rattle.walrus_emit_due.specs.Items.{table, table_flags, table_of, table_type, tables};

use crate::own::{OwnEntry, write_limited};
use walrus_collections::ModuleTables;
use walrus_collections::module_items::Table;
use walrus_emit_parts::write_bytes;
use walrus_emit_values::{write_expr, write_limits, write_reference};
use walrus_errors::{Limited, Result};
use walrus_index_maps::IdsToIndices;
use walrus_instr::ConstExpr;
use walrus_item_meaning::table_init;

// What a reader takes at most.
const MAX: u64 = 100;

// The flags of its limits.
fn flags(table: &Table) -> u8
    ensures { result ≡ table_flags (own_table table.now) }
{
    let maximum = if table.maximum.is_some() { 1 } else { 0 };
    let wide = if table.table64 { 4 } else { 0 };
    maximum + wide
}

/// The type of a table.
///
/// # Errors
///
/// `DeadReference` of types; `Unsupported` of exact types; want of memory. What was there stands at the front.
#[tactic(auto, using(walrus_emit_parts::proofs::Lemmas::writes_on, walrus_emit_parts::proofs::Lemmas::refused_front))]
pub fn write_table_type(out: &mut Vec<u8>, item: &Table, maps: &IdsToIndices) -> Result<()>
    ensures { Writes (table_type (number_of (indices maps.now) 0) (own_table item.now)) out.old.items out.new.items result }
{
    put!(write_reference(out, item.element_ty, maps));
    write_limits(out, flags(item), item.initial, item.maximum)
}

// A type, and its elements at first.
#[tactic(auto, using(walrus_emit_parts::proofs::Lemmas::writes_on, walrus_emit_parts::proofs::Lemmas::refused_front))]
fn write_typed(out: &mut Vec<u8>, item: &Table, init: &ConstExpr, maps: &IdsToIndices) -> Result<()>
    ensures { Writes (table_type (number_of (indices maps.now) 0) (own_table item.now) ++ expr (number_of (indices maps.now) 0) (own_expr init.now)) out.old.items out.new.items result }
{
    put!(write_table_type(out, item, maps));
    write_expr(out, init, maps)
}

fn write_init(out: &mut Vec<u8>, item: &Table, init: &ConstExpr, maps: &IdsToIndices) -> Result<()>
    ensures { Writes (table_of (number_of (indices maps.now) 0) (own_table item.now) (Some (own_expr init.now))) out.old.items out.new.items result }
{
    put!(write_bytes(out, &[0x40, 0x00]));
    write_typed(out, item, init, maps)
}

// An initialiser is said by two bytes before the type.
fn write_table(out: &mut Vec<u8>, item: &Table, maps: &IdsToIndices) -> Result<()>
    ensures { Writes (table (number_of (indices maps.now) 0) (own_table item.now)) out.old.items out.new.items result }
{
    match table_init(item) {
        Some(init) => write_init(out, item, init, maps),
        None => write_table_type(out, item, maps),
    }
}

#[derive(Clone, Copy)]
struct Tables<'a>(&'a IdsToIndices);

impl<'a> OwnEntry<Table> for Tables<'a> {
    ghost use Rattle.std.specs.Option.{is_none};
    ghost use Rattle.wasm_grammar.specs.Modules as grammar;
    ghost use Rattle.walrus_index_maps.specs.Views.{indices};
    ghost use Rattle.walrus_pairing.specs.Looks.{number_of};
    ghost use Rattle.walrus_item_meaning.specs.Meaning.{own_table};
    ghost use Rattle.walrus_emit_due.specs.Items.{table};

    ghost Seen = { grammar.Table };

    ghost see = { own_table };

    ghost has_entry = { λ x. is_none x.imported };

    ghost due = { λ w. table (number_of (indices w.0.now) 0) };

    fn has_entry(&self, item: &Table) -> bool {
        item.import.is_none()
    }

    fn write(&self, out: &mut Vec<u8>, item: &Table) -> Result<()> {
        write_table(out, item, self.0)
    }
}

/// Puts the table section behind the bytes: the module's own tables, by rising id; nothing where there is none.
///
/// # Errors
///
/// `OutputLimit` where more tables live than a reader takes; `DeadReference` where something that one names has no number; `Unsupported`
/// of exact types; want of memory. What was there stands at the front.
pub fn emit_tables(out: &mut Vec<u8>, items: &ModuleTables, maps: &IdsToIndices) -> Result<()>
    ensures { Writes (tables (number_of (indices maps.now) 0) (slots_of own_table items.now)) out.old.items out.new.items result }
{
    write_limited(out, 4, &Tables(maps), items, MAX, Limited::Tables)
}
