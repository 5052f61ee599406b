//! Tables (Core Specification, tables).

ghost use Rattle.std.specs.Prelude.{◌≡◌, IfOk, IfErr, OnOk, OnErr};
ghost use Rattle.std.specs.List.{Any};
ghost use Rattle.walrus_sections_into.specs.walrus_collections.Added.{Adds};
ghost use Rattle.walrus_sections_into.specs.walrus_forms.walrus_arena.Arena.{next_id};
ghost use Rattle.walrus_sections_into.specs.walrus_index_maps.Views.{ids};
ghost use Rattle.walrus_sections_into.specs.Becomes.{look_of};
ghost use Rattle.walrus_sections_into.specs.Slots.{Filled, FilledInPart};
ghost use Rattle.walrus_sections_into.specs.declared.error.IntoError.TheVariants.{Unknown};
ghost use Rattle.walrus_tables_into.specs.Tables.{IsTableOf, InitBecomes, InitLacks, TableLacks};

use crate::types::read_ref;
use std::alloc::Global;
use walrus_sections_into::collections::ModuleTables;
use walrus_sections_into::index_maps::IndicesToIds;
use walrus_sections_into::instr::ConstExpr;
use walrus_sections_into::known_sections::Table;
use walrus_sections_into::operators::Operator;
use walrus_sections_into::{IntoError, import_id, read_expr};

// What its elements are at first.
fn read_init(
    alloc: Global,
    init: &Option<Vec<Operator>>,
    maps: &IndicesToIds,
) -> Result<Option<ConstExpr>, IntoError>
    ensures becomes { IfOk result (InitBecomes (look_of (ids maps.now)) init.now) }
    ensures unknown { IfErr result (λ e. e ≡ Unknown → InitLacks (look_of (ids maps.now)) init.now) }
{
    match init {
        Some(init) => {
            let init = read_expr(alloc, init.as_slice(), maps)?;
            Ok(Some(init))
        }
        None => Ok(None),
    }
}

// Adds a table. One that an import brings has no initialiser of its own.
fn add_table(
    alloc: Global,
    table: &Table,
    maps: &IndicesToIds,
    into: &mut ModuleTables,
) -> Result<(), IntoError>
    ensures added { OnOk result (Adds (IsTableOf (look_of (ids maps.now)) (next_id into.old) table.now) into.old into.new) }
    ensures refused { OnErr result (into.new ≡ into.old) }
    ensures unknown { IfErr result (λ e. e ≡ Unknown → TableLacks (look_of (ids maps.now)) table.now) }
{
    let limits = table.ty.limits;
    let wide = limits.is_wide();
    let element = read_ref(table.ty.element, maps)?;
    match table.import {
        Some(import) => match &table.init {
            Some(_) => Err(IntoError::Unknown),
            None => {
                let import = import_id(import)?;
                into.add_import(wide, limits.minimum, limits.maximum, element, import)?;
                Ok(())
            }
        },
        None => {
            let init = read_init(alloc, &table.init, maps)?;
            into.add_local_with_init(wide, limits.minimum, limits.maximum, element, init)?;
            Ok(())
        }
    }
}

/// Adds the tables, imported ones too, in their order.
///
/// # Errors
///
/// Want of memory; `Unknown` only where the type or the initialiser of one names nothing, an initialiser isn't constant, or an
/// imported one has an initialiser. The first of the tables may be there.
pub fn add_tables(
    alloc: Global,
    tables: &[Table],
    maps: &IndicesToIds,
    into: &mut ModuleTables,
) -> Result<(), IntoError>
    ensures added { OnOk result (Filled (IsTableOf (look_of (ids maps.now))) tables.now into.old.slots into.new.slots) }
    ensures in_part { OnErr result (FilledInPart (IsTableOf (look_of (ids maps.now))) tables.now into.old.slots into.new.slots) }
    ensures unknown { IfErr result (λ e. e ≡ Unknown → Any (TableLacks (look_of (ids maps.now))) tables.now) }
{
    for table in tables {
        add_table(alloc, table, maps, into)?;
    }
    Ok(())
}
