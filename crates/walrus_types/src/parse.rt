//! Adding the groups of a type section to a table.
ghost use Rattle.std.specs.Prelude.{◌≡◌, ◌+◌, ◌<◌, ◌++◌, ◌∷◌, false, [], All, IfOk, OnOk, OnErr, IfSome, length, map};
ghost use Rattle.walrus_type_arenas.specs.walrus_type_index.walrus_items.walrus_forms.Kinds.{Kind};
ghost use Rattle.walrus_type_arenas.specs.walrus_type_index.walrus_items.walrus_forms.Records.{record_kind, type_group};
ghost use Rattle.walrus_type_arenas.specs.walrus_type_index.walrus_items.walrus_forms.Renaming.{KindBelow};
ghost use Rattle.walrus_type_arenas.specs.Table.{next_id};
ghost use Rattle.walrus_types.specs.Parsing.{Parsed, parsed, parsed_group, unparsed, AreBelow, IsPartOf};

use crate::group::NewType;
use crate::table::ModuleTypes;
use std::alloc::AllocError;
use std::collections::VecDeque;
use walrus_type_arenas::type_index::arena::TypeId;
use walrus_type_arenas::type_index::forms::{GroupRecord, TypeRecord};
use walrus_type_arenas::{ids_from, is_single, resolve, resolve_all};

impl ModuleTypes {
    /// Adds the groups of a type section and gives, for each of its types, the id of the type that
    /// stands for it.
    ///
    /// A type of an unmarked record of its own merges with the latest equal type of the table, unless
    /// it names itself. Other records are added as explicit groups, marked or not; a record of no types
    /// adds nothing. Asks that each index is below the end of its group.
    ///
    /// # Errors
    ///
    /// Want of memory. The groups before the refused one stay added.
    pub fn parse_types(&mut self, groups: &[GroupRecord]) -> Result<Vec<TypeId>, AllocError>
        requires { AreBelow 0 (map type_group groups.now) }
        ensures ids { IfOk result (λ ids. ids.items ≡ (parsed (map type_group groups.now) (unparsed self.old)).ids) }
        ensures table { OnOk result (self.new ≡ (parsed (map type_group groups.now) (unparsed self.old)).table) }
        ensures refused { OnErr result (IsPartOf (map type_group groups.now) self.old self.new) }
    {
        self.reserve_index(groups.len());
        let mut ids = Vec::new(self.alloc());
        for group in groups {
            self.parse_group(group, &mut ids)?;
        }
        Ok(ids)
    }

    /// Adds the groups of a type section as [`parse_types`](ModuleTypes::parse_types) does, and lets go of each once it is added, so that its
    /// memory serves for what is added next.
    ///
    /// # Errors
    ///
    /// Want of memory. The groups before the refused one stay added.
    pub fn parse_own_types(&mut self, groups: Vec<GroupRecord>) -> Result<Vec<TypeId>, AllocError>
        requires { AreBelow 0 (map type_group groups.items) }
        ensures ids { IfOk result (λ ids. ids.items ≡ (parsed (map type_group groups.items) (unparsed self.old)).ids) }
        ensures table { OnOk result (self.new ≡ (parsed (map type_group groups.items) (unparsed self.old)).table) }
        ensures refused { OnErr result (IsPartOf (map type_group groups.items) self.old self.new) }
    {
        self.reserve_index(groups.len());
        let mut ids = Vec::new(self.alloc());
        let mut left = VecDeque::from_vec(groups);
        let mut seen = 0;
        while let Some(group) = left.pop_front() {
            seen = self.look_ahead(&left, seen);
            self.parse_group(&group, &mut ids)?;
        }
        Ok(ids)
    }

    // Adds a group, and to `ids` those of its types.
    fn parse_group(&mut self, group: &GroupRecord, ids: &mut Vec<TypeId>) -> Result<(), AllocError>
        requires { let g = type_group group.now in All (KindBelow (length ids.old.items + length g.kinds)) g.kinds }
        ensures ids { OnOk result (ids.new.items ≡ (parsed_group (type_group group.now) (record { ids = ids.old.items; table = self.old })).ids) }
        ensures table { OnOk result (self.new ≡ (parsed_group (type_group group.now) (record { ids = ids.old.items; table = self.old })).table) }
        ensures refused { OnErr result (self.new ≡ self.old) }
    {
        let types = group.types.as_slice();
        if is_single(group) {
            return self.parse_single(&types[0], ids);
        }
        let first = self.next_id();
        if types.len() > u32::MAX as usize - first.index() {
            return Err(AllocError);
        }
        let own = ids_from(self.alloc(), first, types.len())?;
        ids.extend_from_slice(own.as_slice())?;
        let members = resolve_all(self.alloc(), types, ids.as_slice())?;
        self.append_group(true, members)
    }

    // Adds a type that stands in no group, and to `ids` that of the type that stands for it.
    fn parse_single(&mut self, ty: &TypeRecord, ids: &mut Vec<TypeId>) -> Result<(), AllocError>
        requires { KindBelow (length ids.old.items + 1) (record_kind ty.now) }
        ensures ids { OnOk result (ids.new.items ≡ (parsed_group (record { marked = false; kinds = record_kind ty.now ∷ [] }) (record { ids = ids.old.items; table = self.old })).ids) }
        ensures table { OnOk result (self.new ≡ (parsed_group (record { marked = false; kinds = record_kind ty.now ∷ [] }) (record { ids = ids.old.items; table = self.old })).table) }
        ensures refused { OnErr result (self.new ≡ self.old) }
    {
        let before = ids.len();
        ids.push(self.next_id())?;
        let new = resolve(self.alloc(), ty, ids.as_slice())?;
        let NewType {
            kind,
            is_final,
            supertype,
        } = new;
        let id = self.insert(kind, is_final, supertype, false)?;
        ids.truncate(before);
        ids.push_reserved(id);
        Ok(())
    }
}
