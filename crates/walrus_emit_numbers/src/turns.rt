//! Items that have the next number of their space.

ghost use Rattle.std.specs.Prelude.{◌≡◌, OnOk, fold};
ghost use Rattle.walrus_index_maps.specs.Maps.{Indices};
ghost use Rattle.walrus_index_maps.specs.Views.{indices};
ghost use Rattle.walrus_module.specs.walrus_collections.LookUps.{items};
ghost use Rattle.walrus_emit_numbers.specs.Numbers.{AreCounted, brought};

use crate::give::{give_element, give_func, give_global, give_memory, give_table, give_tag};
use std::alloc::AllocError;
use walrus_index_maps::IdsToIndices;
use walrus_module::collections::Collection;
use walrus_module::module_items::{Element, Global, GlobalKind, ImportKind, Memory, Table, Tag};
use walrus_module_items::{Import, TagKind};

/// What may have the next number of its space.
pub(crate) trait Numbered {
    /// The numbers with its own.
    ghost with: { Indices → Self → Indices };

    /// Gives it its number.
    fn number(&self, maps: &mut IdsToIndices) -> Result<(), AllocError>
        requires { AreCounted (indices maps.old) }
        ensures given { OnOk result (indices maps.new ≡ with (indices maps.old) self.now) }
        ensures counted { OnOk result (AreCounted (indices maps.new)) };
}

fn number_brought(maps: &mut IdsToIndices, kind: ImportKind) -> Result<(), AllocError>
    requires { AreCounted (indices maps.old) }
    ensures given { OnOk result (indices maps.new ≡ brought (indices maps.old) kind) }
    ensures counted { OnOk result (AreCounted (indices maps.new)) }
{
    match kind {
        ImportKind::Function(id) => give_func(maps, id),
        ImportKind::Table(id) => give_table(maps, id),
        ImportKind::Memory(id) => give_memory(maps, id),
        ImportKind::Global(id) => give_global(maps, id),
        ImportKind::Tag(id) => give_tag(maps, id),
    }
}

impl Numbered for Import {
    ghost use Rattle.walrus_emit_numbers.specs.Numbers.{import_in_turn};

    ghost with = { λ m i. import_in_turn m i };

    fn number(&self, maps: &mut IdsToIndices) -> Result<(), AllocError> {
        number_brought(maps, self.kind)
    }
}

impl Numbered for Table {
    ghost use Rattle.walrus_emit_numbers.specs.Numbers.{own_table};

    ghost with = { λ m t. own_table m t };

    fn number(&self, maps: &mut IdsToIndices) -> Result<(), AllocError> {
        if self.import.is_some() {
            return Ok(());
        }
        give_table(maps, self.id())
    }
}

impl Numbered for Memory {
    ghost use Rattle.walrus_emit_numbers.specs.Numbers.{own_memory};

    ghost with = { λ m t. own_memory m t };

    fn number(&self, maps: &mut IdsToIndices) -> Result<(), AllocError> {
        if self.import.is_some() {
            return Ok(());
        }
        give_memory(maps, self.id())
    }
}

impl Numbered for Tag {
    ghost use Rattle.walrus_emit_numbers.specs.Numbers.{own_tag};

    ghost with = { λ m t. own_tag m t };

    fn number(&self, maps: &mut IdsToIndices) -> Result<(), AllocError> {
        match self.kind {
            TagKind::Import(_) => Ok(()),
            TagKind::Local => give_tag(maps, self.id()),
        }
    }
}

impl Numbered for Global {
    ghost use Rattle.walrus_emit_numbers.specs.Numbers.{own_global};

    ghost with = { λ m g. own_global m g };

    fn number(&self, maps: &mut IdsToIndices) -> Result<(), AllocError> {
        match &self.kind {
            GlobalKind::Import(_) => Ok(()),
            GlobalKind::Local(_) => give_global(maps, self.id()),
        }
    }
}

impl Numbered for Element {
    ghost use Rattle.walrus_emit_numbers.specs.Numbers.{element_numbered};

    ghost with = { λ m e. element_numbered m e };

    fn number(&self, maps: &mut IdsToIndices) -> Result<(), AllocError> {
        give_element(maps, self.id())
    }
}

/// Gives the items their numbers, by rising id.
pub(crate) fn number_all<T: Numbered, S>(
    maps: &mut IdsToIndices,
    all: &Collection<T, S>,
) -> Result<(), AllocError>
    requires { AreCounted (indices maps.old) }
    ensures given { OnOk result (indices maps.new ≡ fold T.with (indices maps.old) (items all.now)) }
    ensures counted { OnOk result (AreCounted (indices maps.new)) }
{
    for item in all.iter() {
        item.number(maps)?;
    }
    Ok(())
}
