//! Types name none past their own groups.
ghost use Rattle.std.specs.Prelude.{◌≡◌, Contains, Decides, IfOk, ℕ};
ghost use Rattle.std.specs.Option.{option_map};
ghost use Rattle.walrus_items.specs.Items.{group_of};
ghost use Rattle.walrus_used.specs.walrus_module.Parts.{parts};
ghost use Rattle.walrus_refusals.specs.Grouped.{are_one, begin_alike};
ghost use Rattle.walrus_refusals.specs.Written.{AreInOneGroup, MayName, NamesNoLater, StaysInGroup};

use std::alloc::{AllocError, Global};
use walrus_arena::TypeId;
use walrus_items::RecGroup;
use walrus_roots::Item;
use walrus_types::ModuleTypes;
use walrus_used::Check;
use walrus_used::module::Module;
use wasm_formats::Space;

// Whether both lists begin, with one id.
fn begin_alike(ids: &[TypeId], others: &[TypeId]) -> bool
    ensures { result ≡ begin_alike ids.now others.now }
{
    match (ids, others) {
        ([first, ..], [other, ..]) => first.index() == other.index(),
        _ => false,
    }
}

// Whether both are there and are one.
fn are_one(group: Option<&RecGroup>, other: Option<&RecGroup>) -> bool
    ensures { result ≡ are_one (option_map (λ g. group_of g.now) group.entry) (option_map (λ g. group_of g.now) other.entry) }
{
    match (group, other) {
        (Some(group), Some(other)) => begin_alike(group.types.as_slice(), other.types.as_slice()),
        _ => false,
    }
}

// Whether the other is a member of the type's group.
fn is_in_group(types: &ModuleTypes, id: TypeId, name: TypeId) -> bool
    ensures { Decides result (AreInOneGroup types.now id name) }
{
    walrus_types::laws::types_are_grouped(types);
    are_one(types.rec_group_for_type(id), types.rec_group_for_type(name))
}

// Whether the type may name the other.
fn may_name(types: &ModuleTypes, id: TypeId, name: TypeId) -> bool
    ensures { Decides result (MayName types.now id name) }
{
    name.index() <= id.index() || is_in_group(types, id, name)
}

// Whether the type may name all of these.
fn may_name_all(types: &ModuleTypes, id: TypeId, names: &[TypeId]) -> bool
    ensures { Decides result ((name : ℕ) → Contains names.now name → MayName types.now id name) }
{
    for name in names {
        if !may_name(types, id, *name) {
            return false;
        }
    }
    true
}

// Whether the type, if it lives, names none past its own group.
fn names_no_later(alloc: Global, types: &ModuleTypes, id: TypeId) -> Result<bool, AllocError>
    ensures { IfOk result (λ ok. Decides ok (NamesNoLater types.now id)) }
{
    if !types.contains(id) {
        return Ok(true);
    }
    let mut names = Vec::new(alloc);
    types.get(id).referenced_types(&mut names)?;
    Ok(may_name_all(types, id, names.as_slice()))
}

/// Whether a type names none past its own group.
#[derive(Drop)]
pub(crate) struct Grouped<'a, B> {
    pub(crate) alloc: Global,
    pub(crate) input: &'a Module<B>,
}

impl<'a, B> Check for Grouped<'a, B> {
    ghost holds = { λ s x. StaysInGroup (parts s.input.now) x };

    fn check(&self, item: Item) -> Result<bool, AllocError>
        ensures { IfOk result (λ ok. Decides ok (StaysInGroup (parts self.now.input.now) item)) }
    {
        match item.space {
            Space::Type => names_no_later(self.alloc, &self.input.types, item.id()),
            _ => Ok(true),
        }
    }
}
