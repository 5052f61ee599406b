//! The types of functions (Core Specification, binary format: function section).

ghost use Rattle.std.specs.Prelude.{[], List};
ghost use Rattle.walrus_index_maps.specs.Views.{indices};
ghost use Rattle.walrus_items.specs.declared.local.Local.{Local};
ghost use Rattle.walrus_pairing.specs.Looks.{number_of};
ghost use Rattle.walrus_meaning.specs.Meaning.{own_function, slots_of};
ghost use Rattle.walrus_emit_parts.specs.Due.{Writes, entries};
ghost use Rattle.walrus_emit_due.specs.FunctionTypes.{function_types, type_in};

use walrus_arena::FunctionId;
use walrus_collections::ModuleFunctions;
use walrus_emit_parts::{Entry, Part, write_section, write_vec};
use walrus_emit_sections::check_live;
use walrus_emit_values::write_index;
use walrus_errors::{Limited, ModuleError, Result, Space};
use walrus_index_maps::IdsToIndices;

// What a reader takes at most.
const MAX: u64 = 1_000_000;

// The number of a function's type.
fn write_type(
    out: &mut Vec<u8>,
    items: &ModuleFunctions,
    id: FunctionId,
    maps: &IdsToIndices,
) -> Result<()>
    ensures { Writes (type_in (number_of (indices maps.now) 0) (slots_of (own_function []) items.now) id) out.old.items out.new.items result }
{
    if !items.contains(id) {
        let space = Space::Function;
        return Err(ModuleError::DeadReference { space });
    }
    write_index(out, Space::Type, maps.get_type_index(items.get(id).ty()))
}

#[derive(Clone, Copy)]
struct Functions<'a> {
    items: &'a ModuleFunctions,
    maps: &'a IdsToIndices,
}

impl<'a> Entry<FunctionId> for Functions<'a> {
    ghost use Rattle.std.specs.Prelude.{ℕ, []};
    ghost use Rattle.walrus_index_maps.specs.Views.{indices};
    ghost use Rattle.walrus_pairing.specs.Looks.{number_of};
    ghost use Rattle.walrus_meaning.specs.Meaning.{own_function, slots_of};
    ghost use Rattle.walrus_emit_due.specs.FunctionTypes.{type_in};

    ghost Seen = { ℕ };

    ghost see = { λ id. id };

    ghost due = { λ w. type_in (number_of (indices w.maps.now) 0) (slots_of (own_function []) w.items.now) };

    fn write(&self, out: &mut Vec<u8>, id: &FunctionId) -> Result<()> {
        write_type(out, self.items, *id, self.maps)
    }
}

#[derive(Clone, Copy)]
struct Contents<'a> {
    writer: Functions<'a>,
    order: &'a [FunctionId],
}

impl<'a> Part for Contents<'a> {
    ghost use Rattle.std.specs.Prelude.{[]};
    ghost use Rattle.walrus_index_maps.specs.Views.{indices};
    ghost use Rattle.walrus_pairing.specs.Looks.{number_of};
    ghost use Rattle.walrus_meaning.specs.Meaning.{own_function, slots_of};
    ghost use Rattle.walrus_emit_parts.specs.Due.{vec};
    ghost use Rattle.walrus_emit_due.specs.FunctionTypes.{type_in};

    ghost due = { λ w. vec (type_in (number_of (indices w.writer.maps.now) 0) (slots_of (own_function []) w.writer.items.now)) w.order.now };

    #[tactic(auto, using(crate::proofs::Lemmas::ids_written))]
    fn write(&self, out: &mut Vec<u8>) -> Result<()> {
        write_vec(out, &self.writer, self.order)
    }
}

// The section; nothing where there is no function.
fn write_types(
    out: &mut Vec<u8>,
    items: &ModuleFunctions,
    order: &[FunctionId],
    maps: &IdsToIndices,
) -> Result<()>
    ensures { Writes (entries 3 (type_in (number_of (indices maps.now) 0) (slots_of (own_function []) items.now)) order.now) out.old.items out.new.items result }
{
    if order.is_empty() {
        return Ok(());
    }
    let writer = Functions { items, maps };
    write_section(out, 3, &Contents { writer, order })
}

/// Puts the function section behind the bytes: the types of the functions with bodies in this order; nothing where there is none.
///
/// # Errors
///
/// `OutputLimit` where more functions live than a reader takes; `DeadReference` where one is deleted or its type has no number; want of
/// memory. What was there stands at the front.
pub fn emit_function_types(
    out: &mut Vec<u8>,
    items: &ModuleFunctions,
    order: &[FunctionId],
    maps: &IdsToIndices,
) -> Result<()>
    ensures { (locals : List Local) → Writes (function_types (number_of (indices maps.now) 0) (slots_of (own_function locals) items.now) order.now) out.old.items out.new.items result }
{
    put!(check_live(items, MAX, Limited::Functions));
    write_types(out, items, order, maps)
}
