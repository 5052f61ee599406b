//! What a name of a file is given to.

ghost use Rattle.std.specs.Prelude.{◌≡◌, slice_get};
ghost use Rattle.std.specs.Option.{option_map};
ghost use Rattle.walrus_index_maps.specs.Views.{ids};
ghost use Rattle.wasm_formats.specs.declared.fault.Space.TheVariants as spaces;
ghost use Rattle.wasm_name_payloads.specs.Names.{item_in};
ghost use Rattle.walrus_payload_readers.specs.Bearers.{bearer_of};
ghost use Rattle.walrus_payloads_into.specs.Numbered.{ids_in, locals_in};
ghost use Rattle.walrus_item_names.specs.Sent.{sent};
ghost use Rattle.walrus_item_names.specs.Targets.{target_bearer};

use walrus_arena::{
    DataId, ElementId, FunctionId, GlobalId, LocalId, MemoryId, TableId, TagId, TypeId,
};
use walrus_index_maps::IndicesToIds;
use walrus_payload_readers::Bearer;
use wasm_formats::Space;

/// What has a name in a module in memory.
#[derive(Clone, Copy)]
pub enum Target {
    /// The module.
    Module,
    Type(TypeId),
    Function(FunctionId),
    Table(TableId),
    Memory(MemoryId),
    Tag(TagId),
    Global(GlobalId),
    Element(ElementId),
    Data(DataId),
    Local(LocalId),
}

// The item of this number.
#[tactic(auto, using(crate::proofs::Lookups::found, crate::proofs::Lookups::missing))]
fn find_item(space: Space, number: u32, maps: &IndicesToIds) -> Option<Target>
    ensures { option_map target_bearer result ≡ option_map (item_in space) (slice_get (ids_in (ids maps.now) space) number) }
{
    match space {
        Space::Type => match maps.get_type(number) {
            Ok(id) => Some(Target::Type(id)),
            Err(_) => None,
        },
        Space::Function => match maps.get_func(number) {
            Ok(id) => Some(Target::Function(id)),
            Err(_) => None,
        },
        Space::Table => match maps.get_table(number) {
            Ok(id) => Some(Target::Table(id)),
            Err(_) => None,
        },
        Space::Memory => match maps.get_memory(number) {
            Ok(id) => Some(Target::Memory(id)),
            Err(_) => None,
        },
        Space::Tag => match maps.get_tag(number) {
            Ok(id) => Some(Target::Tag(id)),
            Err(_) => None,
        },
        Space::Global => match maps.get_global(number) {
            Ok(id) => Some(Target::Global(id)),
            Err(_) => None,
        },
        Space::Element => match maps.get_element(number) {
            Ok(id) => Some(Target::Element(id)),
            Err(_) => None,
        },
        Space::Data => match maps.get_data(number) {
            Ok(id) => Some(Target::Data(id)),
            Err(_) => None,
        },
        Space::Local => None,
        Space::Label => None,
    }
}

// The local of this number in a function.
#[tactic(auto, using(crate::proofs::Lookups::found, crate::proofs::Lookups::missing))]
fn find_local(function: u32, number: u32, maps: &IndicesToIds) -> Option<Target>
    ensures { option_map target_bearer result ≡ option_map (item_in spaces.Local) (slice_get (locals_in (ids maps.now) function) number) }
{
    match maps.get_func(function) {
        Ok(id) => match maps.get_local(id, number) {
            Ok(local) => Some(Target::Local(local)),
            Err(_) => None,
        },
        Err(_) => None,
    }
}

// What bears the name, if it is there.
pub(crate) fn find(bearer: Bearer, maps: &IndicesToIds) -> Option<Target>
    ensures { option_map target_bearer result ≡ sent (ids maps.now) (bearer_of bearer) }
{
    match bearer {
        Bearer::Module => Some(Target::Module),
        Bearer::Item(space, number) => find_item(space, number, maps),
        Bearer::Local(function, number) => find_local(function, number, maps),
    }
}
