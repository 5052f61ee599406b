//! The global section.

ghost use Rattle.std.specs.Prelude.{[], ◌∷◌};
ghost use Rattle.walrus_index_maps.specs.Views.{indices};
ghost use Rattle.walrus_pairing.specs.Looks.{number_of};
ghost use Rattle.walrus_item_meaning.specs.Meaning.{own_global, slots_of};
ghost use Rattle.walrus_module_items.specs.Words.{own_expr};
ghost use Rattle.walrus_emit_parts.specs.Due.{Writes, written};
ghost use Rattle.walrus_emit_due.specs.Values.{bit};
ghost use Rattle.wasm_grammar.specs.Modules as grammar;
ghost use Rattle.walrus_emit_due.specs.Items.{global, global_of, global_type, globals};

use crate::own::{OwnEntry, write_limited};
use walrus_collections::ModuleGlobals;
use walrus_collections::module_items::{Global, GlobalKind};
use walrus_emit_parts::write_byte;
use walrus_emit_values::{write_expr, write_value};
use walrus_errors::{Limited, Result};
use walrus_index_maps::IdsToIndices;
use walrus_instr::ConstExpr;

// What a reader takes at most.
const MAX: u64 = 1_000_000;

// Whether it can be written.
fn write_mutable(out: &mut Vec<u8>, mutable: bool) -> Result<()>
    ensures { Writes (written (bit 1 mutable ∷ [])) out.old.items out.new.items result }
{
    if mutable {
        write_byte(out, 1)
    } else {
        write_byte(out, 0)
    }
}

/// The type of a global.
///
/// # Errors
///
/// `DeadReference` of types; `Unsupported` of exact types; want of memory. What was there stands at the front.
#[tactic(auto, using(walrus_emit_parts::proofs::Lemmas::writes_on, walrus_emit_parts::proofs::Lemmas::refused_front))]
pub fn write_global_type(out: &mut Vec<u8>, item: &Global, maps: &IdsToIndices) -> Result<()>
    ensures { Writes (global_type (number_of (indices maps.now) 0) (own_global item.now)) out.old.items out.new.items result }
{
    put!(write_value(out, item.ty, maps));
    write_mutable(out, item.mutable)
}

#[tactic(auto, using(walrus_emit_parts::proofs::Lemmas::writes_on, walrus_emit_parts::proofs::Lemmas::refused_front))]
fn write_init(out: &mut Vec<u8>, item: &Global, init: &ConstExpr, maps: &IdsToIndices) -> Result<()>
    ensures { Writes (global_of (number_of (indices maps.now) 0) (own_global item.now) (grammar.Own (own_expr init.now))) out.old.items out.new.items result }
{
    put!(write_global_type(out, item, maps));
    write_expr(out, init, maps)
}

#[tactic(auto, using(walrus_emit_parts::proofs::Lemmas::nothing))]
fn write_global(out: &mut Vec<u8>, item: &Global, maps: &IdsToIndices) -> Result<()>
    ensures { Writes (global (number_of (indices maps.now) 0) (own_global item.now)) out.old.items out.new.items result }
{
    match &item.kind {
        GlobalKind::Import(_) => Ok(()),
        GlobalKind::Local(init) => write_init(out, item, init, maps),
    }
}

#[derive(Clone, Copy)]
struct Globals<'a>(&'a IdsToIndices);

impl<'a> OwnEntry<Global> for Globals<'a> {
    ghost use Rattle.wasm_grammar.specs.Modules as grammar;
    ghost use Rattle.walrus_index_maps.specs.Views.{indices};
    ghost use Rattle.walrus_pairing.specs.Looks.{number_of};
    ghost use Rattle.walrus_item_meaning.specs.Meaning.{own_global};
    ghost use Rattle.walrus_emit_due.specs.Items.{global, is_own};

    ghost Seen = { grammar.Global };

    ghost see = { own_global };

    ghost has_entry = { λ g. is_own g.origin };

    ghost due = { λ w. global (number_of (indices w.0.now) 0) };

    fn has_entry(&self, item: &Global) -> bool {
        matches!(item.kind, GlobalKind::Local(_))
    }

    fn write(&self, out: &mut Vec<u8>, item: &Global) -> Result<()> {
        write_global(out, item, self.0)
    }
}

/// Puts the global section behind the bytes: the module's own globals, by rising id; nothing where there is none.
///
/// # Errors
///
/// `OutputLimit` where more globals live than a reader takes; `DeadReference` where something that one names has no number; `Unsupported`
/// of exact types; want of memory. What was there stands at the front.
pub fn emit_globals(out: &mut Vec<u8>, items: &ModuleGlobals, maps: &IdsToIndices) -> Result<()>
    ensures { Writes (globals (number_of (indices maps.now) 0) (slots_of own_global items.now)) out.old.items out.new.items result }
{
    write_limited(out, 6, &Globals(maps), items, MAX, Limited::Globals)
}
