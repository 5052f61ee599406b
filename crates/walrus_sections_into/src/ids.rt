//! Ids of what is named by number: a collection that is filled in the order of a file gives each item its number as its id.

ghost use Rattle.std.specs.Prelude.{◌≡◌, ◌≤◌, ◌^◌, IfOk, IfErr, Some, None};
ghost use Rattle.std.specs.Option.{ok_or};
ghost use Rattle.wasm_operators.specs.Items.{Functions, Globals, Memories, Tables, Tags, Types};
ghost use Rattle.walrus_index_maps.specs.Views.{ids};
ghost use Rattle.walrus_sections_into.specs.Becomes.{look_of};
ghost use Rattle.walrus_sections_into.specs.declared.error.IntoError.TheVariants.{Memory, Unknown};

use crate::error::IntoError;
use walrus_arena::{FunctionId, GlobalId, ImportId, MemoryId, TableId, TagId, TypeId};
use walrus_index_maps::IndicesToIds;

/// The import of this number. 2^32 of them can't be held.
pub fn import_id(number: usize) -> Result<ImportId, IntoError>
    ensures found { IfOk result (λ id. id ≡ number) }
    ensures refused { IfErr result (λ e. (e ≡ Memory) × (2 ^ 32 ≤ number)) }
{
    if number > u32::MAX as usize {
        return Err(IntoError::Memory);
    }
    Ok(ImportId::from_index(number))
}

/// The memory of this number.
#[tactic(auto, using(crate::proofs::Lookups::found, crate::proofs::Lookups::missing))]
pub fn memory_id(number: u32, maps: &IndicesToIds) -> Result<MemoryId, IntoError>
    ensures found { IfOk result (λ id. look_of (ids maps.now) Memories number ≡ Some id) }
    ensures unknown { IfErr result (λ e. (e ≡ Unknown) × (look_of (ids maps.now) Memories number ≡ None)) }
{
    match maps.get_memory(number) {
        Ok(id) => Ok(id),
        Err(_) => Err(IntoError::Unknown),
    }
}

/// The function of this number.
#[tactic(auto, using(crate::proofs::Lookups::found, crate::proofs::Lookups::missing))]
pub fn function_id(number: u32, maps: &IndicesToIds) -> Result<FunctionId, IntoError>
    ensures found { IfOk result (λ id. look_of (ids maps.now) Functions number ≡ Some id) }
    ensures unknown { IfErr result (λ e. (e ≡ Unknown) × (look_of (ids maps.now) Functions number ≡ None)) }
{
    match maps.get_func(number) {
        Ok(id) => Ok(id),
        Err(_) => Err(IntoError::Unknown),
    }
}

/// The table of this number.
#[tactic(auto, using(crate::proofs::Lookups::found, crate::proofs::Lookups::missing))]
pub fn table_id(number: u32, maps: &IndicesToIds) -> Result<TableId, IntoError>
    ensures found { IfOk result (λ id. look_of (ids maps.now) Tables number ≡ Some id) }
    ensures unknown { IfErr result (λ e. (e ≡ Unknown) × (look_of (ids maps.now) Tables number ≡ None)) }
{
    match maps.get_table(number) {
        Ok(id) => Ok(id),
        Err(_) => Err(IntoError::Unknown),
    }
}

/// The global of this number.
#[tactic(auto, using(crate::proofs::Lookups::found, crate::proofs::Lookups::missing))]
pub fn global_id(number: u32, maps: &IndicesToIds) -> Result<GlobalId, IntoError>
    ensures found { IfOk result (λ id. look_of (ids maps.now) Globals number ≡ Some id) }
    ensures unknown { IfErr result (λ e. (e ≡ Unknown) × (look_of (ids maps.now) Globals number ≡ None)) }
{
    match maps.get_global(number) {
        Ok(id) => Ok(id),
        Err(_) => Err(IntoError::Unknown),
    }
}

/// The tag of this number.
#[tactic(auto, using(crate::proofs::Lookups::found, crate::proofs::Lookups::missing))]
pub fn tag_id(number: u32, maps: &IndicesToIds) -> Result<TagId, IntoError>
    ensures found { IfOk result (λ id. look_of (ids maps.now) Tags number ≡ Some id) }
    ensures unknown { IfErr result (λ e. (e ≡ Unknown) × (look_of (ids maps.now) Tags number ≡ None)) }
{
    match maps.get_tag(number) {
        Ok(id) => Ok(id),
        Err(_) => Err(IntoError::Unknown),
    }
}

/// The type of this number.
#[tactic(auto, using(crate::proofs::Lookups::found, crate::proofs::Lookups::missing, crate::proofs::Lookups::found_as, crate::proofs::Lookups::missing_as))]
pub fn type_id(number: u32, maps: &IndicesToIds) -> Result<TypeId, IntoError>
    ensures found { IfOk result (λ id. look_of (ids maps.now) Types number ≡ Some id) }
    ensures unknown { IfErr result (λ e. (e ≡ Unknown) × (look_of (ids maps.now) Types number ≡ None)) }
    ensures exact { result ≡ ok_or (look_of (ids maps.now) Types number) Unknown }
{
    match maps.get_type(number) {
        Ok(id) => Ok(id),
        Err(_) => Err(IntoError::Unknown),
    }
}

/// A number of 32 bits. No greater one names anything.
pub fn small(number: usize) -> Result<u32, IntoError>
    ensures found { IfOk result (λ n. n ≡ number) }
    ensures past { IfErr result (λ e. (e ≡ Unknown) × (2 ^ 32 ≤ number)) }
{
    if number > u32::MAX as usize {
        return Err(IntoError::Unknown);
    }
    Ok(number as u32)
}
