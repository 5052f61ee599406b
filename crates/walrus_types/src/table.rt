//! The type table of a module.
ghost use Rattle.std.specs.Prelude.{◌≡◌, ◌↔◌, ◌+◌, ◌<◌, ◌^◌, length, ℕ, true, not, Contains, [], map, IfOk, IfErr, OnOk, OnErr, IfSome, MatchOption, IsTrue, Some, None};
ghost use Rattle.std.specs.Bool.{OnTrue, OnFalse};
ghost use Rattle.std.specs.Borrow.{sem};
ghost use Rattle.walrus_type_arenas.specs.walrus_type_index.walrus_items.walrus_forms.Forms.{form_of, params_of, results_of};
ghost use Rattle.walrus_type_arenas.specs.walrus_type_index.walrus_items.walrus_forms.Kinds.{function_kind, entry_kind, struct_kind, array_kind, declared_kind};
ghost use Rattle.walrus_type_arenas.specs.walrus_type_index.walrus_items.Items.{Group, item_of, group_of};
ghost use Rattle.walrus_type_arenas.specs.Table.{next_id, type_at, IsLive, IsFunctionType, equal_type, found_type, named_type, entries, Merges, HasMember, Deletes, DeletesAll, DeletesGroup, group_at, is_named_in, IsSpared, marked};
ghost use Rattle.walrus_type_arenas.specs.walrus_type_index.walrus_items.walrus_arena.Arena.{entries_from};
ghost use Rattle.std.specs.Fn.{FnOnceTakesAt, FnOnceReturnsAt};
ghost use Rattle.std.specs.List.{range_with_len};
ghost use Rattle.walrus_type_arenas.specs.Groups.{AddsGroup, IsBuilt, IsCause, member_kind};
ghost use Rattle.walrus_type_arenas.specs.TypeLaws.{AreGrouped};
ghost use Rattle.walrus_types.specs.Last.{IsHighest};
ghost use Rattle.walrus_types.specs.TableLends.{lends_type};

use crate::error::IrError;
use crate::group::NewType;
use crate::iter::{RecGroups, Types};
use std::alloc::{AllocError, Global};
use std::collections::VecDeque;
use std::marker::Model;
use std::mem;
use walrus_type_arenas::type_index::arena::{
    RecGroupId, RecGroupSpace, TombstoneArena, TypeId, TypeSpace,
};
use walrus_type_arenas::type_index::forms::{
    ArrayType, CompositeType, FieldType, FunctionType, GroupRecord, StructType, ValType,
};
use walrus_type_arenas::type_index::items::{RecGroup, Type};
use walrus_type_arenas::type_index::{AHEAD, Index, group_hash, lend, settle, type_hash};
use walrus_type_arenas::{
    append_counted, append_members, clear_each, clear_unkept, found_function, home_of, ids_from,
    leave_group, look_up_entry, look_up_hashed, members_name, one_member, push_single_hashed,
    reserve_singles, sweep,
};

/// The types of a module by id, each in one recursion group.
///
/// A new type that equals a live one is not added: the live one's id is answered. Where several live
/// types are equal, the latest one stands for the new one. A type that names itself equals no other.
#[derive(Drop)]
pub struct ModuleTypes {
    pub(crate) alloc: Global,
    pub(crate) types: TombstoneArena<Type, TypeSpace>,
    pub(crate) groups: TombstoneArena<RecGroup, RecGroupSpace>,
    // The group of each type ever added.
    pub(crate) homes: Vec<RecGroupId>,
    // The live types in the order of the index, the lent one aside, with room for each type ever added.
    pub(crate) index: Index,
    // The type that was lent for writing last, until the index takes it back.
    pub(crate) lent: Option<TypeId>,
}

impl Model for ModuleTypes {
    ghost use Rattle.walrus_type_arenas.specs.walrus_type_index.Places.{kinds_in};
    ghost use Rattle.walrus_type_arenas.specs.Table.{Table, table_of, IsSound};

    ghost Value = { Table };

    ghost view = { λ t. table_of t.types.slots t.groups.slots };

    ghost invariant = { λ t. IsSound t.lent t.index (kinds_in t.types.slots) (table_of t.types.slots t.groups.slots) t.homes.items };
}

// The hashes come first, so that the looks, which wait for memory, wait at once.
fn look_ahead(index: &mut Index, groups: &VecDeque<GroupRecord>)
    ensures { index.new ≡ index.old }
{
    let mut hashes = [0; AHEAD];
    for at in 0..AHEAD {
        let Some(group) = groups.get(at) else {
            break;
        };
        hashes[at] = group_hash(group);
    }
    index.look_ahead(&hashes);
}

impl ModuleTypes {
    /// No types. Takes no memory.
    pub fn new(alloc: Global) -> Self
        ensures { result ≡ record { types = []; groups = [] } }
    {
        ModuleTypes {
            alloc,
            types: TombstoneArena::new(alloc),
            groups: TombstoneArena::new(alloc),
            homes: Vec::new(alloc),
            index: Index::new(alloc),
            lent: None,
        }
    }

    /// Whether the id's type lives.
    pub fn contains(&self, id: TypeId) -> bool
        ensures { IsTrue result ↔ IsLive self.now id }
    {
        self.types.contains(id)
    }

    /// The type of a live id.
    pub fn get(&self, id: TypeId) -> &Type
        requires { IsLive self.now id }
        ensures { type_at self.now id ≡ Some (item_of result.now) }
    {
        self.types.get(id).unwrap()
    }

    /// The type of a live id, for writing.
    pub fn get_mut(&mut self, id: TypeId) -> &mut Type
        requires { IsLive self.old id }
        ensures* writes_back { sem 𝓛 (lends_type self.entry id result) }
        ensures value { type_at self.old id ≡ Some (item_of result.now) }
    {
        lend(&mut self.index, &mut self.lent, &self.types, id);
        &mut self.types[id]
    }

    /// Deletes a live type. Its group keeps the other members, and goes where there is none.
    pub fn delete(&mut self, id: TypeId)
        requires { IsLive self.old id }
        ensures { Deletes id self.old self.new }
    {
        let home = home_of(self.homes.as_slice(), id);
        lend(&mut self.index, &mut self.lent, &self.types, id);
        self.lent = None;
        leave_group(&mut self.groups, home, id);
        self.types.delete(id);
    }

    /// Deletes a live type unless another member of its group names it. Answers whether it was deleted;
    /// where not, nothing changes.
    pub fn try_delete(&mut self, id: TypeId) -> bool
        requires { IsLive self.old id }
        ensures named { (place : ℕ) (group : Group) → group_at self.old place ≡ Some group → Contains group.types id
            → result ≡ not (is_named_in self.old id group) }
        ensures kept { OnFalse result (self.new ≡ self.old) }
        ensures deleted { OnTrue result (Deletes id self.old self.new) }
    {
        if self.is_named_by_sibling(id) {
            return false;
        }
        self.delete(id);
        true
    }

    // Whether another member of the type's group names it.
    fn is_named_by_sibling(&self, id: TypeId) -> bool
        ensures { (place : ℕ) (group : Group) → group_at self.now place ≡ Some group → Contains group.types id
            → result ≡ is_named_in self.now id group }
    {
        match self.rec_group_for_type(id) {
            Some(group) => members_name(&self.types, group, id),
            None => false,
        }
    }

    /// Deletes the group of a live type with all its members.
    pub fn delete_entire_group(&mut self, id: TypeId)
        requires { IsLive self.old id }
        ensures { DeletesGroup id self.old self.new }
    {
        let home = home_of(self.homes.as_slice(), id);
        let group = &mut self.groups[home];
        let members = mem::replace(&mut group.types, Vec::new(self.alloc));
        settle(&mut self.index, &mut self.lent, &self.types);
        clear_each(&mut self.types, &mut self.index, members.as_slice());
        self.groups.delete(home);
    }

    /// Deletes the types of the marked ids, those of them that live, but for entry types that are in no explicit group, from which
    /// it takes the marks. Each group keeps the other members, and goes where there is none. Ids past the marks aren't marked.
    /// Takes no memory.
    pub fn delete_unkept(&mut self, marks: &mut [bool])
        ensures left { (id : ℕ) → Contains (marked marks.new) id ↔ (Contains (marked marks.old) id × (IsSpared self.old id → ⊥)) }
        ensures gone { DeletesAll (marked marks.new) self.old self.new }
    {
        settle(&mut self.index, &mut self.lent, &self.types);
        clear_unkept(
            &mut self.types,
            &self.groups,
            self.homes.as_slice(),
            &mut self.index,
            marks,
        );
        sweep(&mut self.groups, marks);
    }

    /// The highest id of a live type. It is looked for from the last id that was given out, so that types aren't gone through.
    pub fn highest(&self) -> Option<TypeId>
        ensures { MatchOption result ((id : ℕ) → IsLive self.now id → ⊥) (IsHighest self.now) }
    {
        let count = self.next_id().index();
        for past in 0..count {
            let id = TypeId::from_index(count - 1 - past);
            if self.contains(id) {
                return Some(id);
            }
        }
        None
    }

    // Where its lists take their memory.
    pub(crate) fn alloc(&self) -> Global {
        self.alloc
    }

    // The id that the next new type gets.
    pub(crate) fn next_id(&self) -> TypeId
        ensures { result ≡ next_id self.now }
    {
        self.types.next_id()
    }

    // Lets the index have room for so many more types, as far as there is memory: each that is added asks for its own again.
    pub(crate) fn reserve_index(&mut self, count: usize)
        ensures { self.new ≡ self.old }
    {
        let _ = self.index.reserve(self.alloc, &self.types, count);
    }

    // Looks where the first types of the next groups would stand, unless it has done so for some of them; answers for how many it has then,
    // the first aside.
    pub(crate) fn look_ahead(&mut self, groups: &VecDeque<GroupRecord>, seen: usize) -> usize
        ensures { self.new ≡ self.old }
    {
        if seen > 0 {
            return seen - 1;
        }
        look_ahead(&mut self.index, groups);
        AHEAD
    }

    // The id of the type that stands for one of this kind, which is added where there is none.
    pub(crate) fn insert(
        &mut self,
        kind: CompositeType,
        is_final: bool,
        supertype: Option<TypeId>,
        entry: bool,
    ) -> Result<TypeId, AllocError>
        ensures inserted { IfOk result (λ id. Merges (record { form = form_of kind; final = is_final; supertype = supertype; entry = entry }) id self.old self.new) }
        ensures refused { OnErr result (self.new ≡ self.old) }
    {
        settle(&mut self.index, &mut self.lent, &self.types);
        let id = self.types.next_id();
        let ty = Type::new(id, kind, is_final, supertype, entry);
        let hash = type_hash(&ty);
        if let Some(found) = look_up_hashed(&self.index, &self.types, &ty, hash, id) {
            return Ok(found);
        }
        let members = one_member(self.alloc, id)?;
        reserve_singles(
            self.alloc,
            &mut self.types,
            &mut self.groups,
            &mut self.homes,
            &mut self.index,
            1,
        )?;
        push_single_hashed(
            &mut self.types,
            &mut self.groups,
            &mut self.homes,
            &mut self.index,
            ty,
            hash,
            members,
        );
        Ok(id)
    }

    /// The parameters of a live function type.
    pub fn params(&self, id: TypeId) -> &[ValType]
        requires { IsFunctionType self.now id }
        ensures { IfSome (type_at self.now id) (λ item. result.now ≡ params_of item.kind.form) }
    {
        self.get(id).params()
    }

    /// The results of a live function type.
    pub fn results(&self, id: TypeId) -> &[ValType]
        requires { IsFunctionType self.now id }
        ensures { IfSome (type_at self.now id) (λ item. result.now ≡ results_of item.kind.form) }
    {
        self.get(id).results()
    }

    /// The parameters and the results of a live function type.
    pub fn params_results(&self, id: TypeId) -> (&[ValType], &[ValType])
        requires { IsFunctionType self.now id }
        ensures params { IfSome (type_at self.now id) (λ item. result.0.now ≡ params_of item.kind.form) }
        ensures results { IfSome (type_at self.now id) (λ item. result.1.now ≡ results_of item.kind.form) }
    {
        let ty = self.get(id);
        (ty.params(), ty.results())
    }

    /// The lowest live type of this name.
    pub fn by_name(&self, name: &str) -> Option<TypeId>
        ensures { result ≡ named_type name.now self.now }
    {
        for (id, ty) in self.types.iter() {
            if ty.is_named(name) {
                return Some(id);
            }
        }
        None
    }

    /// The latest final function type without supertype of just these parameters and results.
    pub fn find(&self, params: &[ValType], results: &[ValType]) -> Option<TypeId>
        ensures { result ≡ found_type params.now results.now self.now }
    {
        found_function(&self.index, self.lent, &self.types, params, results)
    }

    /// The live types, by rising id.
    pub fn iter(&self) -> Types<'_>
        ensures { result ≡ map (λ e. e.1) (entries self.now) }
    {
        Types::new(self.types.iter())
    }

    /// The live groups, by rising id. Each live type stands in exactly one of them, once, and the types of
    /// a later one have the higher ids.
    pub fn rec_groups(&self) -> RecGroups<'_>
        ensures groups { result ≡ map (λ e. e.1) (entries_from 0 self.now.groups) }
        ensures grouped { AreGrouped self.now }
    {
        RecGroups::new(self.groups.iter())
    }

    /// The group of a live type, or `None` where the type is dead or was never added.
    pub fn rec_group_for_type(&self, id: TypeId) -> Option<&RecGroup>
        ensures { MatchOption result (type_at self.now id ≡ None) (λ group. HasMember self.now id (group_of group.now)) }
    {
        if !self.types.contains(id) {
            return None;
        }
        self.groups.get(self.homes[id.index()])
    }

    /// The id of the final function type without supertype of these parameters and results: of the
    /// latest equal live type, or else of one that is added.
    ///
    /// # Errors
    ///
    /// Want of memory. The table stays as it was.
    pub fn add(&mut self, params: &[ValType], results: &[ValType]) -> Result<TypeId, AllocError>
        ensures added { IfOk result (λ id. Merges (function_kind params.now results.now) id self.old self.new) }
        ensures refused { OnErr result (self.new ≡ self.old) }
    {
        let params = Vec::from_slice(self.alloc, params)?;
        let results = Vec::from_slice(self.alloc, results)?;
        let ty = FunctionType::new(params, results);
        self.insert(CompositeType::Function(ty), true, None, false)
    }

    /// The type of the own block of a body of this live function type, if there is one: what [`add_entry_ty`](ModuleTypes::add_entry_ty)
    /// would answer without adding one. Takes no memory.
    pub fn entry_ty(&mut self, id: TypeId) -> Option<TypeId>
        requires { IsFunctionType self.old id }
        ensures found { IfSome (type_at self.old id) (λ item. result ≡ equal_type (entry_kind (results_of item.kind.form)) self.old) }
        ensures same { self.new ≡ self.old }
    {
        settle(&mut self.index, &mut self.lent, &self.types);
        let results = self.results(id);
        look_up_entry(&self.index, &self.types, results, self.types.next_id())
    }

    /// The id of the type of a body's own block with these results, which is never written.
    ///
    /// # Errors
    ///
    /// Want of memory. The table stays as it was.
    pub fn add_entry_ty(&mut self, results: &[ValType]) -> Result<TypeId, AllocError>
        ensures added { IfOk result (λ id. Merges (entry_kind results.now) id self.old self.new) }
        ensures refused { OnErr result (self.new ≡ self.old) }
    {
        let results = Vec::from_slice(self.alloc, results)?;
        let ty = FunctionType::new(Vec::new(self.alloc), results);
        self.insert(CompositeType::Function(ty), true, None, true)
    }

    /// The id of the final structure type without supertype of these fields: of the latest equal live
    /// type, or else of one that is added.
    ///
    /// # Errors
    ///
    /// Want of memory. The table stays as it was.
    pub fn add_struct(&mut self, fields: Vec<FieldType>) -> Result<TypeId, AllocError>
        ensures added { IfOk result (λ id. Merges (struct_kind fields.items) id self.old self.new) }
        ensures refused { OnErr result (self.new ≡ self.old) }
    {
        self.insert(
            CompositeType::Struct(StructType { fields }),
            true,
            None,
            false,
        )
    }

    /// The id of the final array type without supertype of this field: of the latest equal live type,
    /// or else of one that is added.
    ///
    /// # Errors
    ///
    /// Want of memory. The table stays as it was.
    pub fn add_array(&mut self, field: FieldType) -> Result<TypeId, AllocError>
        ensures added { IfOk result (λ id. Merges (array_kind field) id self.old self.new) }
        ensures refused { OnErr result (self.new ≡ self.old) }
    {
        self.insert(CompositeType::Array(ArrayType { field }), true, None, false)
    }

    /// The id of the type of this form, finality and supertype: of the latest equal live type, or else
    /// of one that is added.
    ///
    /// # Errors
    ///
    /// Want of memory. The table stays as it was.
    pub fn add_composite(
        &mut self,
        kind: CompositeType,
        is_final: bool,
        supertype: Option<TypeId>,
    ) -> Result<TypeId, AllocError>
        ensures added { IfOk result (λ id. Merges (declared_kind (form_of kind) is_final supertype) id self.old self.new) }
        ensures refused { OnErr result (self.new ≡ self.old) }
    {
        self.insert(kind, is_final, supertype, false)
    }

    /// Adds an explicit recursion group of `count` types, which `build` makes of their ids, and gives
    /// the ids. No group is added for no types. Members of explicit groups stand for themselves.
    ///
    /// # Errors
    ///
    /// `WrongCount` where `build` made another count of types, `Memory` for want of memory, and what
    /// `build` answered. The table stays as it was.
    pub fn add_rec_group<F: FnOnce(&[TypeId]) -> Result<Vec<NewType>, IrError> + Drop>(
        &mut self,
        count: usize,
        build: F,
    ) -> Result<Vec<TypeId>, IrError>
        requires { FnOnceTakesAt F.FnOnce build (range_with_len (next_id self.old) count) }
        ensures ids { IfOk result (λ ids. ids.items ≡ range_with_len (next_id self.old) count) }
        ensures added { OnOk result (IsBuilt (FnOnceReturnsAt F.FnOnce build (range_with_len (next_id self.old) count)) count self.old self.new) }
        ensures cause { IfErr result (IsCause (FnOnceReturnsAt F.FnOnce build (range_with_len (next_id self.old) count)) count) }
        ensures refused { OnErr result (self.new ≡ self.old) }
    {
        let first = self.types.next_id();
        if count > u32::MAX as usize - first.index() {
            return Err(IrError::Memory);
        }
        let ids = ids_from(self.alloc, first, count)?;
        let members = build(ids.as_slice())?;
        settle(&mut self.index, &mut self.lent, &self.types);
        append_counted(
            self.alloc,
            &mut self.types,
            &mut self.groups,
            &mut self.homes,
            &mut self.index,
            count,
            members,
        )?;
        Ok(ids)
    }

    // Adds a group of these types, which is written as one or not. Asks that their ids fit.
    pub(crate) fn append_group(
        &mut self,
        explicit: bool,
        members: Vec<NewType>,
    ) -> Result<(), AllocError>
        requires { next_id self.old + length members.items < 2 ^ 32 }
        ensures added { OnOk result (AddsGroup explicit (map member_kind members.items) self.old self.new) }
        ensures refused { OnErr result (self.new ≡ self.old) }
    {
        settle(&mut self.index, &mut self.lent, &self.types);
        append_members(
            self.alloc,
            &mut self.types,
            &mut self.groups,
            &mut self.homes,
            &mut self.index,
            explicit,
            members,
        )
    }
}
