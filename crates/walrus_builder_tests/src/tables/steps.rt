//! What is done to a table of types, step by step, each a word: a call, what it is given behind a `:`, and behind an `@` what it is to give.

use crate::tables::chains::is_low;
use crate::tables::forms::{form, function};
use crate::tables::unmarked::reads_pair;
use crate::tables::values::{Word, list};
use crate::tables::words::{are_ids, is_id, number};
use std::alloc::{AllocError, Global};
use test_words::{cut, head};
use walrus_arena::TypeId;
use walrus_types::{
    CompositeType, FieldType, HeapType, IrError, ModuleTypes, NewType, RefType, StorageType,
    StructType, ValType,
};

// An immutable field that refers to the type.
fn link(to: TypeId) -> FieldType {
    FieldType {
        element_type: StorageType::Val(ValType::Ref(RefType {
            nullable: true,
            heap_type: HeapType::Concrete(to),
        })),
        mutable: false,
    }
}

// The fields of a structure that refers to the type, or of one without fields.
fn fields(alloc: Global, to: Option<TypeId>) -> Result<Vec<FieldType>, AllocError> {
    match to {
        Some(to) => Ok(Vec::from_slice(alloc, &[link(to)])?),
        None => Ok(Vec::new(alloc)),
    }
}

// A final structure that refers to the type, or one without fields.
fn member(alloc: Global, to: Option<TypeId>) -> Result<NewType, AllocError> {
    let fields = fields(alloc, to)?;
    Ok(NewType {
        kind: CompositeType::Struct(StructType { fields }),
        is_final: true,
        supertype: None,
    })
}

// A copy of it.
fn copied_member(alloc: Global, to: Option<TypeId>) -> Result<NewType, AllocError> {
    member(alloc, to)?.clone()
}

// By its step, the members of a group: `ring`s of structures each refer to the next, and the last to the first, those of `group`s have no
// fields, and from `half` the first is left out.
fn members(alloc: Global, ids: &[TypeId], step: u8) -> Result<Vec<NewType>, IrError> {
    let mut members = Vec::new(alloc);
    for k in 0..ids.len() {
        let next = if k + 1 < ids.len() { k + 1 } else { 0 };
        let to = if step == b'g' { None } else { Some(ids[next]) };
        if step != b'h' || k > 0 {
            members.push(copied_member(alloc, to)?)?;
        }
    }
    Ok(members)
}

// Whether a group of so many types is added, with these ids; a `half` is refused.
fn adds_group(alloc: Global, types: &mut ModuleTypes, call: &[u8], wanted: &[u8]) -> bool {
    let step = head(call);
    match types.add_rec_group(number(call) as usize, |ids| members(alloc, ids, step)) {
        Ok(ids) => wanted.is_empty() || are_ids(ids.as_slice(), wanted),
        Err(refused) => step == b'h' && refused == IrError::WrongCount,
    }
}

// Adds the function type, or the type of a body's own block with these results.
fn add_function(
    alloc: Global,
    types: &mut ModuleTypes,
    step: u8,
    args: &[u8],
) -> Result<TypeId, AllocError> {
    let ty = function(alloc, args)?;
    if step == b'f' {
        types.add(ty.params(), ty.results())
    } else {
        types.add_entry_ty(ty.results())
    }
}

// Adds it by the call for its form, or by that for all forms where it is told whether it is final.
fn add(alloc: Global, types: &mut ModuleTypes, call: &[u8]) -> Result<TypeId, AllocError> {
    let (plain, mark) = cut(call, b'/');
    let (_, args) = cut(plain, b':');
    if !mark.is_empty() {
        return add_composite(alloc, types, plain, mark);
    }
    match head(call) {
        b's' => types.add_struct(list(alloc, args)?),
        b'a' => types.add_array(FieldType::of(args)),
        step => add_function(alloc, types, step, args),
    }
}

fn add_composite(
    alloc: Global,
    types: &mut ModuleTypes,
    plain: &[u8],
    mark: &[u8],
) -> Result<TypeId, AllocError> {
    let (_, below) = cut(mark, b'<');
    let supertype = if below.is_empty() {
        None
    } else {
        Some(TypeId::from_index(number(below) as usize))
    };
    types.add_composite(form(alloc, plain)?, head(mark) == b'f', supertype)
}

// Whether the type is added, or an equal one found, under this id, which is live then.
fn adds(
    alloc: Global,
    types: &mut ModuleTypes,
    call: &[u8],
    wanted: &[u8],
) -> Result<bool, AllocError> {
    let id = add(alloc, types, call)?;
    Ok(types.contains(id) && (wanted.is_empty() || is_id(id, wanted)))
}

// Whether the type and that of its body's own block are added, or found, under these ids.
fn adds_both(
    alloc: Global,
    types: &mut ModuleTypes,
    args: &[u8],
    wanted: &[u8],
) -> Result<bool, AllocError> {
    let ty = function(alloc, args)?;
    let (id, entry) = types.add_with_entry_ty(ty.params(), ty.results())?;
    let (first, second) = cut(wanted, b',');
    Ok(is_id(id, first) && is_id(entry, second))
}

// Adds a structure without fields, and then so many each of which refers to the one before.
fn add_chain(alloc: Global, types: &mut ModuleTypes, count: u32) -> Result<(), AllocError> {
    let mut last = types.add_struct(fields(alloc, None)?)?;
    for _ in 0..count {
        last = types.add_struct(fields(alloc, Some(last))?)?;
    }
    Ok(())
}

// Whether a copy of each type names as many types as the type.
fn are_copied(alloc: Global, types: &ModuleTypes) -> Result<bool, AllocError> {
    let mut agree = true;
    for ty in types.iter() {
        let mut names = Vec::new(alloc);
        let mut copied = Vec::new(alloc);
        ty.referenced_types(&mut names)?;
        ty.clone()?.referenced_types(&mut copied)?;
        agree &= names.len() == copied.len();
    }
    for group in types.rec_groups() {
        agree &= group.clone()?.types.len() == group.types.len();
    }
    Ok(agree)
}

/// Takes a step, and answers whether it gave what it is to give:
///
/// - `func`, `struct`, `array`, `entry`: adds the type, which then has this id;
/// - `both`: adds the function type with the type of its body's own block, of these ids;
/// - `ring`, `group`, `half`: adds a marked group (see `members`), and copies all types and groups;
/// - `pair`: reads a group of two types that has no mark, which get these ids (see `unmarked`);
/// - `chain`: adds so many structures, each of which refers to the one before, behind one without fields;
/// - `long`: a long chain of function types is found by a low index (see `chains`).
pub(crate) fn take(alloc: Global, types: &mut ModuleTypes, step: &[u8]) -> Result<bool, IrError> {
    let (call, wanted) = cut(step, b'@');
    let (_, args) = cut(call, b':');
    match head(call) {
        b'f' | b's' | b'a' | b'e' => Ok(adds(alloc, types, call, wanted)?),
        b'b' => Ok(adds_both(alloc, types, args, wanted)?),
        b'r' | b'g' | b'h' => {
            let is_added = adds_group(alloc, types, call, wanted);
            Ok(is_added && are_copied(alloc, types)?)
        }
        b'p' => Ok(reads_pair(alloc, types, wanted)?),
        b'c' => {
            add_chain(alloc, types, number(args))?;
            Ok(true)
        }
        _ => Ok(is_low(types)?),
    }
}
