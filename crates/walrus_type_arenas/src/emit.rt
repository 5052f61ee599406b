//! The groups of a table as the records of a type section: their order, their indices, and what is wrong with them.
ghost use Rattle.std.specs.Prelude.{◌≡◌, ◌+◌, ◌<◌, ◌≤◌, ◌^◌, ◌++◌, [], Some, None, false, IfOk, OnOk, IfErr, All, length, map, slice_index_or};
ghost use Rattle.std.specs.List.{list_any};
ghost use Rattle.std.specs.Option.{option_map};
ghost use Rattle.walrus_type_index.specs.walrus_items.walrus_forms.Order.{kind_cmp};
ghost use Rattle.walrus_type_order.specs.Order.{IsEmissionOrder};
ghost use Rattle.walrus_type_index.specs.walrus_items.Items.{kind_of, group_of};
ghost use Rattle.walrus_type_arenas.specs.Table.{table_of};
ghost use Rattle.walrus_type_arenas.specs.Emission.{written_kind, is_written, written_groups, key_of, no_group, AreInOrder, written_in, written_types, AreIndices, index_at, fault_at, first_fault, group_names, groups_fault, described_group};
ghost use Rattle.walrus_type_arenas.specs.Ranks.{ranked};
ghost use Rattle.walrus_type_index.specs.walrus_items.walrus_forms.Kinds.{kind_names};
ghost use Rattle.walrus_type_index.specs.walrus_items.walrus_forms.Records.{record_kind, type_group};
ghost use Rattle.walrus_type_index.specs.walrus_items.walrus_forms.Renaming.{renamed_kind};

use crate::error::IrError;
use crate::rank::with_rank;
use std::alloc::{AllocError, Global};
use walrus_type_index::arena::{RecGroupSpace, TombstoneArena, TypeId, TypeSpace};
use walrus_type_index::forms::{GroupRecord, TypeRecord, index_of};
use walrus_type_index::items::{RecGroup, Type};
use walrus_type_order::emission_order;

// The type of this id, if it is written: entry types never are.
fn written_type(types: &TombstoneArena<Type, TypeSpace>, id: TypeId) -> Option<&Type>
    ensures { option_map (λ ty. kind_of ty.now) result ≡ written_kind (table_of types.now.slots []) id }
{
    match types.get(id) {
        Some(ty) if !ty.is_entry() => Some(ty),
        _ => None,
    }
}

fn is_group_written(types: &TombstoneArena<Type, TypeSpace>, group: &RecGroup) -> bool
    ensures { result ≡ list_any (is_written (table_of types.now.slots [])) group.now.types.items }
{
    group
        .types
        .iter()
        .any(|id| written_type(types, *id).is_some())
}

// The groups with a type that is written, by rising id.
fn groups_of<'a>(
    alloc: Global,
    types: &TombstoneArena<Type, TypeSpace>,
    groups: &'a TombstoneArena<RecGroup, RecGroupSpace>,
) -> Result<Vec<&'a RecGroup>, AllocError>
    ensures { IfOk result (λ found. map (λ g. group_of g.now) found.items ≡ written_groups (table_of types.now.slots groups.now.slots)) }
{
    let mut found = Vec::new(alloc);
    for (_, group) in groups.iter() {
        if is_group_written(types, group) {
            found.push(group)?;
        }
    }
    Ok(found)
}

// The type by which a group is sorted: a single one that names no type. Others are anchors.
fn key_of<'a>(
    types: &'a TombstoneArena<Type, TypeSpace>,
    group: &RecGroup,
    names: &mut Vec<TypeId>,
) -> Result<Option<&'a Type>, AllocError>
    ensures { IfOk result (λ key. option_map (λ ty. kind_of ty.now) key ≡ key_of (table_of types.now.slots []) (group_of group.now)) }
{
    if group.is_explicit() {
        return Ok(None);
    }
    let [id] = group.types.as_slice() else {
        return Ok(None);
    };
    let Some(ty) = types.get(*id) else {
        return Ok(None);
    };
    names.clear();
    ty.referenced_types(names)?;
    Ok(if names.is_empty() { Some(ty) } else { None })
}

// The types by which these groups are sorted, with their ranks.
fn keys_of<'a>(
    alloc: Global,
    types: &'a TombstoneArena<Type, TypeSpace>,
    groups: &[&RecGroup],
) -> Result<Vec<Option<(u64, &'a Type)>>, AllocError>
    ensures { IfOk result (λ keys. map (option_map (λ k. (k.0, kind_of k.1.now))) keys.items
        ≡ map (option_map ranked) (map (key_of (table_of types.now.slots [])) (map (λ g. group_of g.now) groups.now))) }
{
    let mut names = Vec::new(alloc);
    let mut keys = Vec::with_capacity(alloc, groups.len())?;
    for group in groups {
        keys.push(with_rank(key_of(types, group, &mut names)?))?;
    }
    Ok(keys)
}

// The positions of these groups as they are written.
fn order_of(
    alloc: Global,
    types: &TombstoneArena<Type, TypeSpace>,
    groups: &[&RecGroup],
) -> Result<Vec<usize>, AllocError>
    ensures { IfOk result (λ order. IsEmissionOrder kind_cmp (map (key_of (table_of types.now.slots [])) (map (λ g. group_of g.now) groups.now)) order.items) }
{
    let keys = keys_of(alloc, types, groups)?;
    emission_order(alloc, keys.as_slice())
}

// The groups at these positions.
fn groups_at<'a>(
    alloc: Global,
    groups: &[&'a RecGroup],
    positions: &[usize],
) -> Result<Vec<&'a RecGroup>, AllocError>
    requires { All (λ i. i < length groups.now) positions.now }
    ensures { IfOk result (λ found. map (λ g. group_of g.now) found.items
        ≡ map (λ i. slice_index_or (map (λ g. group_of g.now) groups.now) i no_group) positions.now) }
{
    let mut found = Vec::with_capacity(alloc, positions.len())?;
    for position in positions {
        found.push(groups[*position])?;
    }
    Ok(found)
}

/// The groups of a table as they are written.
pub fn groups_in_order<'a>(
    alloc: Global,
    types: &TombstoneArena<Type, TypeSpace>,
    groups: &'a TombstoneArena<RecGroup, RecGroupSpace>,
) -> Result<Vec<&'a RecGroup>, AllocError>
    ensures { IfOk result (λ found. AreInOrder (table_of types.now.slots groups.now.slots) (map (λ g. group_of g.now) found.items)) }
{
    let groups = groups_of(alloc, types, groups)?;
    let order = order_of(alloc, types, groups.as_slice())?;
    groups_at(alloc, groups.as_slice(), order.as_slice())
}

// Adds the types of the group that are written.
fn push_written(
    types: &TombstoneArena<Type, TypeSpace>,
    group: &RecGroup,
    written: &mut Vec<TypeId>,
) -> Result<(), AllocError>
    ensures { OnOk result (written.new.items ≡ written.old.items ++ written_in (table_of types.now.slots []) (group_of group.now)) }
{
    for id in &group.types {
        if written_type(types, *id).is_some() {
            written.push(*id)?;
        }
    }
    Ok(())
}

/// The types of these groups that are written.
pub fn written_of(
    alloc: Global,
    types: &TombstoneArena<Type, TypeSpace>,
    groups: &[&RecGroup],
) -> Result<Vec<TypeId>, AllocError>
    ensures { IfOk result (λ written. written.items ≡ written_types (table_of types.now.slots []) (map (λ g. group_of g.now) groups.now)) }
{
    let mut written = Vec::new(alloc);
    for group in groups {
        push_written(types, group, &mut written)?;
    }
    Ok(written)
}

/// The index of each of these types, `None` for others below `count`.
pub fn indices_of(
    alloc: Global,
    count: usize,
    written: &[TypeId],
) -> Result<Vec<Option<u32>>, AllocError>
    requires within { All (λ id. id < count) written.now }
    requires fits { length written.now ≤ 2 ^ 32 }
    ensures { IfOk result (λ indices. AreIndices count written.now indices.items) }
{
    let mut indices = vec![in alloc; None; count]?;
    for (index, id) in written.iter().enumerate() {
        indices[id.index()] = Some(index as u32);
    }
    Ok(indices)
}

// What is wrong with a type that a group names which ends before the index `end`.
fn fault_of(
    types: &TombstoneArena<Type, TypeSpace>,
    indices: &[Option<u32>],
    end: usize,
    name: TypeId,
) -> Option<IrError>
    ensures { result ≡ fault_at (table_of types.now.slots []) (index_at indices.now) end name }
{
    match types.get(name) {
        None => Some(IrError::Dead),
        Some(ty) if ty.is_entry() => Some(IrError::EntryOnly),
        Some(_) if (index_of(indices, name) as usize) < end => None,
        Some(_) => Some(IrError::Later),
    }
}

// What is wrong with the first of these names with which anything is.
fn first_fault(
    types: &TombstoneArena<Type, TypeSpace>,
    indices: &[Option<u32>],
    end: usize,
    names: &[TypeId],
) -> Option<IrError>
    ensures { result ≡ first_fault (fault_at (table_of types.now.slots []) (index_at indices.now) end) names.now }
{
    for name in names {
        if let Some(fault) = fault_of(types, indices, end, *name) {
            return Some(fault);
        }
    }
    None
}

// What is wrong with the first name of a type with which anything is.
fn type_fault(
    types: &TombstoneArena<Type, TypeSpace>,
    indices: &[Option<u32>],
    end: usize,
    ty: &Type,
    names: &mut Vec<TypeId>,
) -> Result<Option<IrError>, AllocError>
    ensures { IfOk result (λ fault. fault ≡ first_fault (fault_at (table_of types.now.slots []) (index_at indices.now) end) (kind_names (kind_of ty.now))) }
{
    names.clear();
    ty.referenced_types(names)?;
    Ok(first_fault(types, indices, end, names.as_slice()))
}

// What is wrong with the first name in a group with which anything is.
fn group_fault(
    types: &TombstoneArena<Type, TypeSpace>,
    indices: &[Option<u32>],
    end: usize,
    group: &RecGroup,
    names: &mut Vec<TypeId>,
) -> Result<Option<IrError>, AllocError>
    ensures { IfOk result (λ fault. fault ≡ first_fault (fault_at (table_of types.now.slots []) (index_at indices.now) end) (group_names (table_of types.now.slots []) (group_of group.now))) }
{
    for id in &group.types {
        let Some(ty) = written_type(types, *id) else {
            continue;
        };
        if let Some(fault) = type_fault(types, indices, end, ty, names)? {
            return Ok(Some(fault));
        }
    }
    Ok(None)
}

// How many types of the group are written.
fn written_count(types: &TombstoneArena<Type, TypeSpace>, group: &RecGroup) -> usize
    ensures { result ≡ length (written_in (table_of types.now.slots []) (group_of group.now)) }
{
    let mut count = 0;
    for id in &group.types {
        if written_type(types, *id).is_some() {
            count += 1;
        }
    }
    count
}

// What is wrong with the first name in these groups with which anything is. Where nothing is, `end` goes
// from the index at which the first group begins past their types.
fn groups_fault(
    alloc: Global,
    types: &TombstoneArena<Type, TypeSpace>,
    indices: &[Option<u32>],
    end: &mut usize,
    groups: &[&RecGroup],
) -> Result<Option<IrError>, AllocError>
    requires { end.old + length (written_types (table_of types.now.slots []) (map (λ g. group_of g.now) groups.now)) < 2 ^ 64 }
    ensures fault { IfOk result (λ fault. fault ≡ groups_fault (table_of types.now.slots []) (index_at indices.now) end.old (map (λ g. group_of g.now) groups.now)) }
    ensures end { IfOk result (λ fault. fault ≡ None → end.new ≡ end.old + length (written_types (table_of types.now.slots []) (map (λ g. group_of g.now) groups.now))) }
{
    let mut names = Vec::new(alloc);
    for group in groups {
        *end += written_count(types, group);
        if let Some(fault) = group_fault(types, indices, *end, group, &mut names)? {
            return Ok(Some(fault));
        }
    }
    Ok(None)
}

// The record of a type, in which each type is named by its index.
fn type_record(alloc: Global, ty: &Type, indices: &[Option<u32>]) -> Result<TypeRecord, AllocError>
    ensures { IfOk result (λ r. record_kind r ≡ record (renamed_kind (index_at indices.now) (kind_of ty.now)) { entry = false }) }
{
    let kind = ty.kind().describe(alloc, indices)?;
    let supertype = match ty.supertype {
        Some(id) => Some(index_of(indices, id)),
        None => None,
    };
    Ok(TypeRecord {
        kind,
        is_final: ty.is_final,
        supertype,
    })
}

// The record of a group.
fn group_record(
    alloc: Global,
    types: &TombstoneArena<Type, TypeSpace>,
    indices: &[Option<u32>],
    group: &RecGroup,
) -> Result<GroupRecord, AllocError>
    ensures { IfOk result (λ r. type_group r ≡ described_group (table_of types.now.slots []) (index_at indices.now) (group_of group.now)) }
{
    let mut records = Vec::with_capacity(alloc, group.types.len())?;
    for id in &group.types {
        let Some(ty) = written_type(types, *id) else {
            continue;
        };
        records.push(type_record(alloc, ty, indices)?)?;
    }
    Ok(GroupRecord {
        marked: group.is_explicit(),
        types: records,
    })
}

// Adds the records of these groups.
fn push_records(
    alloc: Global,
    types: &TombstoneArena<Type, TypeSpace>,
    indices: &[Option<u32>],
    groups: &[&RecGroup],
    records: &mut Vec<GroupRecord>,
) -> Result<(), AllocError>
    ensures { OnOk result (map type_group records.new.items ≡ map type_group records.old.items
        ++ map (described_group (table_of types.now.slots []) (index_at indices.now)) (map (λ g. group_of g.now) groups.now)) }
{
    for group in groups {
        records.push(group_record(alloc, types, indices, group)?)?;
    }
    Ok(())
}

// How many groups are looked through before they are described: the caches hold their types.
const BLOCK: usize = 256;

/// The records of these groups, or what is wrong with the first name in them with which anything is.
pub fn group_records(
    alloc: Global,
    types: &TombstoneArena<Type, TypeSpace>,
    indices: &[Option<u32>],
    groups: &[&RecGroup],
) -> Result<Result<Vec<GroupRecord>, IrError>, AllocError>
    requires { length (written_types (table_of types.now.slots []) (map (λ g. group_of g.now) groups.now)) < 2 ^ 64 }
    ensures sound { IfOk result (λ made. IfOk made (λ records. groups_fault (table_of types.now.slots []) (index_at indices.now) 0 (map (λ g. group_of g.now) groups.now) ≡ None)) }
    ensures described { IfOk result (λ made. IfOk made (λ records. map type_group records.items
        ≡ map (described_group (table_of types.now.slots []) (index_at indices.now)) (map (λ g. group_of g.now) groups.now))) }
    ensures faulty { IfOk result (λ made. IfErr made (λ fault. groups_fault (table_of types.now.slots []) (index_at indices.now) 0 (map (λ g. group_of g.now) groups.now) ≡ Some fault)) }
{
    let mut records = Vec::with_capacity(alloc, groups.len())?;
    let mut end = 0;
    let mut start = 0;
    while start < groups.len() {
        let stop = groups.len().min(start.saturating_add(BLOCK));
        let block = &groups[start..stop];
        if let Some(fault) = groups_fault(alloc, types, indices, &mut end, block)? {
            return Ok(Err(fault));
        }
        push_records(alloc, types, indices, block, &mut records)?;
        start = stop;
    }
    Ok(Ok(records))
}
