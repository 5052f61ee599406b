//! Adding a function type and the type of its body's own block, both or neither.
ghost use Rattle.std.specs.Prelude.{◌≡◌, true, false, IfOk, OnErr, None};
ghost use Rattle.walrus_type_arenas.specs.walrus_type_index.walrus_items.walrus_forms.Forms.{form_of};
ghost use Rattle.walrus_type_arenas.specs.walrus_type_index.walrus_items.walrus_forms.Kinds.{function_kind, entry_kind, declared_kind};
ghost use Rattle.walrus_type_arenas.specs.walrus_type_index.walrus_items.Items.{kind_of};
ghost use Rattle.walrus_type_arenas.specs.Table.{next_id, equal_type};
ghost use Rattle.walrus_types.specs.Pairs.{MergesBoth};

use crate::table::ModuleTypes;
use std::alloc::AllocError;
use walrus_type_arenas::type_index::arena::TypeId;
use walrus_type_arenas::type_index::forms::{CompositeType, FunctionType, ValType};
use walrus_type_arenas::type_index::items::Type;
use walrus_type_arenas::type_index::settle;
use walrus_type_arenas::{look_up, one_member, push_single, reserve_singles};

impl ModuleTypes {
    /// The ids of the final function type without supertype of these parameters and results, and of the
    /// type of its body's own block, as `add` and then `add_entry_ty` give them.
    ///
    /// # Errors
    ///
    /// Want of memory. The table stays as it was: neither type is added without the other.
    pub fn add_with_entry_ty(
        &mut self,
        params: &[ValType],
        results: &[ValType],
    ) -> Result<(TypeId, TypeId), AllocError>
        ensures added { IfOk result (λ ids. MergesBoth (function_kind params.now results.now) ids.0 (entry_kind results.now) ids.1 self.old self.new) }
        ensures refused { OnErr result (self.new ≡ self.old) }
    {
        let alloc = self.alloc();
        let params = Vec::from_slice(alloc, params)?;
        let entry_results = Vec::from_slice(alloc, results)?;
        let results = Vec::from_slice(alloc, results)?;
        let ty = FunctionType::new(params, results);
        let entry = FunctionType::new(Vec::new(alloc), entry_results);
        self.insert_with_entry(CompositeType::Function(ty), CompositeType::Function(entry))
    }

    // The ids of the types that stand for a final type of the first form without supertype, and then for
    // an entry type of the second, which are added where there are none.
    fn insert_with_entry(
        &mut self,
        kind: CompositeType,
        entry: CompositeType,
    ) -> Result<(TypeId, TypeId), AllocError>
        ensures inserted { IfOk result (λ ids. MergesBoth (declared_kind (form_of kind) true None) ids.0 (record { form = form_of entry; final = true; supertype = None; entry = true }) ids.1 self.old self.new) }
        ensures refused { OnErr result (self.new ≡ self.old) }
    {
        settle(&mut self.index, &mut self.lent, &self.types);
        let id = self.types.next_id();
        let ty = Type::new(id, kind, true, None, false);
        if let Some(found) = look_up(&self.index, &self.types, &ty, id) {
            let entry_id = self.insert(entry, true, None, true)?;
            return Ok((found, entry_id));
        }
        self.add_then_entry(ty, entry)
    }

    // Adds a type that equals no live one, under the next id, and then an entry type of this form, unless
    // one stands for it. Answers the ids.
    fn add_then_entry(
        &mut self,
        ty: Type,
        entry: CompositeType,
    ) -> Result<(TypeId, TypeId), AllocError>
        requires unnamed { ty.name ≡ None }
        requires id { ty.id ≡ next_id self.old }
        requires new { equal_type (kind_of ty) self.old ≡ None }
        ensures inserted { IfOk result (λ ids. MergesBoth (kind_of ty) ids.0 (record { form = form_of entry; final = true; supertype = None; entry = true }) ids.1 self.old self.new) }
        ensures refused { OnErr result (self.new ≡ self.old) }
    {
        let id = self.types.next_id();
        let Some(next) = (id.index() as u32).checked_add(1) else {
            return Err(AllocError);
        };
        let entry_id = TypeId::from_index(next as usize);
        let members = one_member(self.alloc, id)?;
        let entry_members = one_member(self.alloc, entry_id)?;
        settle(&mut self.index, &mut self.lent, &self.types);
        reserve_singles(
            self.alloc,
            &mut self.types,
            &mut self.groups,
            &mut self.homes,
            &mut self.index,
            2,
        )?;
        let entry = Type::new(entry_id, entry, true, None, true);
        push_single(
            &mut self.types,
            &mut self.groups,
            &mut self.homes,
            &mut self.index,
            ty,
            members,
        );
        if let Some(found) = look_up(&self.index, &self.types, &entry, entry_id) {
            return Ok((id, found));
        }
        push_single(
            &mut self.types,
            &mut self.groups,
            &mut self.homes,
            &mut self.index,
            entry,
            entry_members,
        );
        Ok((id, entry_id))
    }
}
