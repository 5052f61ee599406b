//! Changing the indices that the forms of types name, for the crates above.

ghost use Rattle.std.specs.Prelude.{MatchResult, Ok, Err};
ghost use Rattle.std.specs.Fn.{CalledAtMut};
ghost use Rattle.wasm_composite_types.specs.Remap.{VisitsIndex, VisitsReference, VisitsValue, VisitsField, VisitsEach, VisitsFunc, VisitsForm};

use crate::field::{FieldType, StorageType};
use crate::form::{ArrayType, CompositeInnerType, ContType, FuncType};
use crate::list::TypeList;
use wasm_ref_types::{PackedIndex, RefType, ValType};

/// The index that a call of `map` leaves. Asks that it may always be called.
///
/// # Errors
///
/// What the call refuses with.
pub fn remap_index<E, F: FnMut(&mut PackedIndex) -> Result<(), E>>(
    index: PackedIndex,
    map: &mut F,
) -> Result<PackedIndex, E>
    requires { F.IsAlwaysCallable map.old }
    ensures visits { MatchResult result (λ new. VisitsIndex (CalledAtMut F.FnMut) map.old index (Ok tt) map.new new) (λ e. VisitsIndex (CalledAtMut F.FnMut) map.old index (Err e) map.new index) }
    ensures callable { F.IsAlwaysCallable map.new }
{
    let mut index = index;
    map(&mut index)?;
    Ok(index)
}

fn remap_reference<E, F: FnMut(&mut PackedIndex) -> Result<(), E>>(
    ty: RefType,
    map: &mut F,
) -> Result<RefType, E>
    requires { F.IsAlwaysCallable map.old }
    ensures visits { MatchResult result (λ new. VisitsReference (CalledAtMut F.FnMut) map.old ty (Ok tt) map.new new) (λ e. VisitsReference (CalledAtMut F.FnMut) map.old ty (Err e) map.new ty) }
    ensures callable { F.IsAlwaysCallable map.new }
{
    let Some(index) = ty.type_index() else {
        return Ok(ty);
    };
    let index = remap_index(index, map)?;
    if ty.is_exact_type_ref() {
        return Ok(RefType::exact(ty.is_nullable(), index));
    }
    Ok(RefType::concrete(ty.is_nullable(), index))
}

fn remap_value<E, F: FnMut(&mut PackedIndex) -> Result<(), E>>(
    ty: ValType,
    map: &mut F,
) -> Result<ValType, E>
    requires { F.IsAlwaysCallable map.old }
    ensures visits { MatchResult result (λ new. VisitsValue (CalledAtMut F.FnMut) map.old ty (Ok tt) map.new new) (λ e. VisitsValue (CalledAtMut F.FnMut) map.old ty (Err e) map.new ty) }
    ensures callable { F.IsAlwaysCallable map.new }
{
    match ty {
        ValType::Ref(reference) => Ok(ValType::Ref(remap_reference(reference, map)?)),
        ValType::I32 | ValType::I64 | ValType::F32 | ValType::F64 | ValType::V128 => Ok(ty),
    }
}

fn remap_field<E, F: FnMut(&mut PackedIndex) -> Result<(), E>>(
    field: FieldType,
    map: &mut F,
) -> Result<FieldType, E>
    requires { F.IsAlwaysCallable map.old }
    ensures visits { MatchResult result (λ new. VisitsField (CalledAtMut F.FnMut) map.old field (Ok tt) map.new new) (λ e. VisitsField (CalledAtMut F.FnMut) map.old field (Err e) map.new field) }
    ensures callable { F.IsAlwaysCallable map.new }
{
    let FieldType {
        element_type,
        mutable,
    } = field;
    let element_type = match element_type {
        StorageType::Val(ty) => StorageType::Val(remap_value(ty, map)?),
        StorageType::I8 => StorageType::I8,
        StorageType::I16 => StorageType::I16,
    };
    Ok(FieldType {
        element_type,
        mutable,
    })
}

fn remap_values<E, F: FnMut(&mut PackedIndex) -> Result<(), E>>(
    types: &mut TypeList<ValType>,
    map: &mut F,
) -> Result<(), E>
    requires { F.IsAlwaysCallable map.old }
    ensures visits { VisitsEach (CalledAtMut F.FnMut) (VisitsValue (CalledAtMut F.FnMut)) map.old types.old result map.new types.new }
    ensures callable { F.IsAlwaysCallable map.new }
{
    for i in 0..types.as_slice().len() {
        let ty = remap_value(types.as_slice()[i], map)?;
        types.set(i, ty);
    }
    Ok(())
}

fn remap_fields<E, F: FnMut(&mut PackedIndex) -> Result<(), E>>(
    fields: &mut TypeList<FieldType>,
    map: &mut F,
) -> Result<(), E>
    requires { F.IsAlwaysCallable map.old }
    ensures visits { VisitsEach (CalledAtMut F.FnMut) (VisitsField (CalledAtMut F.FnMut)) map.old fields.old result map.new fields.new }
    ensures callable { F.IsAlwaysCallable map.new }
{
    for i in 0..fields.as_slice().len() {
        let field = remap_field(fields.as_slice()[i], map)?;
        fields.set(i, field);
    }
    Ok(())
}

fn remap_func<E, F: FnMut(&mut PackedIndex) -> Result<(), E>>(
    ty: &mut FuncType,
    map: &mut F,
) -> Result<(), E>
    requires { F.IsAlwaysCallable map.old }
    ensures visits { VisitsFunc (CalledAtMut F.FnMut) map.old ty.old result map.new ty.new }
    ensures callable { F.IsAlwaysCallable map.new }
{
    remap_values(&mut ty.params, map)?;
    remap_values(&mut ty.results, map)
}

/// Calls `map` at each index that a form names, in the order of its bytes, up to the first call that refuses. Asks that it may
/// always be called.
///
/// # Errors
///
/// What a call of `map` refuses with. Its index and those behind it stay.
pub fn remap_form<E, F: FnMut(&mut PackedIndex) -> Result<(), E>>(
    form: &mut CompositeInnerType,
    map: &mut F,
) -> Result<(), E>
    requires { F.IsAlwaysCallable map.old }
    ensures visits { VisitsForm (CalledAtMut F.FnMut) map.old form.old result map.new form.new }
    ensures callable { F.IsAlwaysCallable map.new }
{
    match form {
        CompositeInnerType::Func(ty) => remap_func(ty, map),
        CompositeInnerType::Struct(ty) => remap_fields(&mut ty.fields, map),
        CompositeInnerType::Array(ty) => {
            *ty = ArrayType(remap_field(ty.0, map)?);
            Ok(())
        }
        CompositeInnerType::Cont(ty) => {
            *ty = ContType(remap_index(ty.0, map)?);
            Ok(())
        }
    }
}
