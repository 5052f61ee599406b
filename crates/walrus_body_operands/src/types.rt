//! The types that operators name.

ghost use Rattle.std.specs.Prelude.{◌≡◌, Ok, Some};
ghost use Rattle.wasm_operators.specs.Items.{Types};
ghost use Rattle.walrus_pairing.specs.wasm_operators.Names.{block_names, heap_names, index_names, value_names};
ghost use Rattle.walrus_pairing.specs.Types as pairing;
ghost use Rattle.walrus_body_steps.specs.walrus_body_rules.Sights.{function_block, look, written_block};
ghost use Rattle.walrus_body_operands.specs.Asked.{IsTested, Meets, heap_test, index_test, is_filed, is_filed_value, named, of_module, tests_of, value_named, value_test, written_test};

use crate::faults::{fault_of, no_item, unsupported};
use crate::scope::Scope;
use walrus_arena::TypeId;
use walrus_body_env::BodyError;
use walrus_forms::{HeapType, ValType};
use walrus_instr::InstrSeqType;
use walrus_pairing::{read_heap, read_value};
use wasm_formats::{Form, Space};
use wasm_operators::BlockType;
use wasm_ref_types as written;
use wasm_ref_types::UnpackedIndex;

fn of_module(index: UnpackedIndex) -> bool
    ensures { result ≡ of_module index }
{
    match index {
        UnpackedIndex::Module(_) => true,
        UnpackedIndex::RecGroup(_) => false,
        UnpackedIndex::Id(_) => false,
    }
}

// Whether files have the type.
fn is_filed(ty: written::HeapType) -> bool
    ensures { result ≡ is_filed ty }
{
    match ty {
        written::HeapType::Abstract { .. } => true,
        written::HeapType::Concrete(index) => of_module(index),
        written::HeapType::Exact(index) => of_module(index),
    }
}

fn is_filed_value(ty: written::ValType) -> bool
    ensures { result ≡ is_filed_value ty }
{
    match ty {
        written::ValType::Ref(ty) => is_filed(ty.heap_type()),
        _ => true,
    }
}

// The type that an index names.
fn type_id<S: Scope>(scope: &S, index: u32, offset: u64) -> Result<TypeId, BodyError>
    ensures { Meets result (index_test (S.sight scope.now) Types index) offset (λ id. look (S.sight scope.now) Types index ≡ Some id) }
{
    match scope.indices().get_type(index) {
        Ok(id) => Ok(id),
        Err(_) => Err(no_item(Space::Type, offset)),
    }
}

fn check_index<S: Scope>(scope: &S, index: UnpackedIndex, offset: u64) -> Result<(), BodyError>
    ensures { IsTested result (named (S.sight scope.now) (index_names index)) offset }
{
    match index {
        UnpackedIndex::Module(index) => {
            type_id(scope, index, offset)?;
            Ok(())
        }
        UnpackedIndex::RecGroup(_) => Ok(()),
        UnpackedIndex::Id(_) => Ok(()),
    }
}

/// The type that a heap type names is there.
pub(crate) fn check_heap<S: Scope>(
    scope: &S,
    ty: written::HeapType,
    offset: u64,
) -> Result<(), BodyError>
    ensures { IsTested result (named (S.sight scope.now) (heap_names ty)) offset }
{
    match ty {
        written::HeapType::Abstract { .. } => Ok(()),
        written::HeapType::Concrete(index) => check_index(scope, index, offset),
        written::HeapType::Exact(index) => check_index(scope, index, offset),
    }
}

/// The type that a value type names is there.
pub(crate) fn check_value<S: Scope>(
    scope: &S,
    ty: written::ValType,
    offset: u64,
) -> Result<(), BodyError>
    ensures { IsTested result (named (S.sight scope.now) (value_names ty)) offset }
{
    match ty {
        written::ValType::Ref(ty) => check_heap(scope, ty.heap_type(), offset),
        written::ValType::I32 => Ok(()),
        written::ValType::I64 => Ok(()),
        written::ValType::F32 => Ok(()),
        written::ValType::F64 => Ok(()),
        written::ValType::V128 => Ok(()),
    }
}

/// The types that value types name are there.
pub(crate) fn check_values<S: Scope>(
    scope: &S,
    types: &[written::ValType],
    offset: u64,
) -> Result<(), BodyError>
    ensures { IsTested result (tests_of (value_named (S.sight scope.now)) types.now) offset }
{
    for ty in types {
        check_value(scope, *ty, offset)?;
    }
    Ok(())
}

/// The type that a block type names is there.
pub(crate) fn check_block<S: Scope>(scope: &S, ty: BlockType, offset: u64) -> Result<(), BodyError>
    ensures { IsTested result (named (S.sight scope.now) (block_names ty)) offset }
{
    match ty {
        BlockType::Empty => Ok(()),
        BlockType::Value(ty) => check_value(scope, ty, offset),
        BlockType::Type(index) => {
            type_id(scope, index, offset)?;
            Ok(())
        }
    }
}

/// The heap type that is written so.
pub(crate) fn heap_type<S: Scope>(
    scope: &S,
    ty: written::HeapType,
    offset: u64,
) -> Result<HeapType, BodyError>
    ensures { Meets result (heap_test (S.sight scope.now) ty) offset (λ own. pairing.read_heap (look (S.sight scope.now) Types) ty ≡ Ok own) }
{
    if !is_filed(ty) {
        return Err(unsupported(Form::SharedType, offset));
    }
    match read_heap(ty, scope.indices()) {
        Ok(own) => Ok(own),
        Err(error) => Err(fault_of(error, offset)),
    }
}

/// The value type that is written so.
pub(crate) fn value_type<S: Scope>(
    scope: &S,
    ty: written::ValType,
    offset: u64,
) -> Result<ValType, BodyError>
    ensures { Meets result (value_test (S.sight scope.now) ty) offset (λ own. pairing.read_value (look (S.sight scope.now) Types) ty ≡ Ok own) }
{
    let read = ty;
    if !is_filed_value(ty) {
        return Err(unsupported(Form::SharedType, offset));
    }
    match read_value(read, scope.indices()) {
        Ok(own) => Ok(own),
        Err(error) => Err(fault_of(error, offset)),
    }
}

// The type of a block that is written by a function type.
fn function_block<S: Scope>(scope: &S, ty: TypeId) -> Option<InstrSeqType>
    ensures { result ≡ function_block (S.sight scope.now) (Some ty) }
{
    let params = scope.params(ty)?;
    let results = scope.results(ty)?;
    scope.block_type(params, results)
}

/// The type of a block that is written so.
#[inline(always)]
pub(crate) fn block_type<S: Scope>(
    scope: &S,
    ty: BlockType,
    offset: u64,
) -> Result<InstrSeqType, BodyError>
    ensures { Meets result (written_test (S.sight scope.now) ty) offset (λ own. written_block (S.sight scope.now) ty ≡ Some own) }
{
    match ty {
        BlockType::Empty => Ok(InstrSeqType::Simple(None)),
        BlockType::Value(ty) => {
            let own = value_type(scope, ty, offset)?;
            Ok(InstrSeqType::Simple(Some(own)))
        }
        BlockType::Type(index) => {
            let id = type_id(scope, index, offset)?;
            match function_block(scope, id) {
                Some(own) => Ok(own),
                None => Err(BodyError::TypeForm {
                    offset: Some(offset),
                }),
            }
        }
    }
}
