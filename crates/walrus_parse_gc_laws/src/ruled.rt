//! Modules that are read mean modules that meet the rules: laws as functions with nothing to do but to call others.

ghost use Rattle.walrus_parse_gc_laws.specs.Handed.{HandedModulesMeanTheirFiles};
ghost use Rattle.walrus_parse_gc_laws.specs.Ruled.{MeaningsAreMerged, ReadModulesMeanRuledOnes};
ghost use Rattle.walrus_parse_gc_laws.specs.RuledSent.{ReadModulesAreHandedOn, SentModulesMeanRuledOnes};

use walrus_errors::Result;
use walrus_index_maps::IndicesToIds;
use walrus_instr::InstrLocId;
use walrus_module::Module;
use walrus_parse_laws::meaning::modules_that_are_read_mean_their_files;
use walrus_types::laws::parsing_carries_same;
use wasm_merged_modules::laws::{merged_files_are_ruled, new_kinds_stand_behind};
use wasm_merged_modules::normal_modules::laws::{
    normal_forms_of_read_modules_are_ruled, numbered_operators_are_normal,
};
use wasm_merged_modules::ruled_normal::laws::normal_operators_are_ruled;

/// What a module means that was read from a file, its locals numbered function by function, is the normal form of the file's module, its types merged, with
/// the types of handlers behind them.
pub fn meanings_of_read_modules_are_merged<B>()
    ensures { MeaningsAreMerged B }
{
    parsing_carries_same();
    numbered_operators_are_normal();
    normal_forms_of_read_modules_are_ruled();
}

/// A module that was read means one that meets the rules: each block type is its own pick, sizes with addresses of 32 bits are below 2^32, and no custom section
/// is named as those of names and of producers are.
pub fn modules_that_are_read_mean_ruled_ones<B>()
    ensures { ReadModulesMeanRuledOnes B }
{
    meanings_of_read_modules_are_merged::<B>();
    modules_that_are_read_mean_their_files::<B>();
    parsing_carries_same();
    normal_operators_are_ruled();
    normal_forms_of_read_modules_are_ruled();
    new_kinds_stand_behind();
    merged_files_are_ruled();
}

/// What means a module that meets the rules means one when its locations are sent through a callback.
pub fn sent_modules_mean_ruled_ones<F: FnMut(u32) -> InstrLocId, B>()
    ensures { SentModulesMeanRuledOnes F.step B }
{}

/// A module that was read and whose locations were then sent through a callback, as the one is that `parse_with` hands on, is linked and means a module that
/// meets the rules; the one that was read means the module of its file, and this one the same, but that each operator stands at the answer for its place.
pub fn read_modules_are_handed_on<F: FnMut(u32) -> InstrLocId, B>()
    ensures { ReadModulesAreHandedOn F.step B }
{
    modules_that_are_read_mean_their_files::<B>();
    modules_that_are_read_mean_ruled_ones::<B>();
}

/// What `parse_with` hands its `on_parse`, whatever that answers: a linked module that means the module of the file, each operator at the answer for its place, and
/// meets the rules, with the ids that the file's indices name. So it is of a module that is answered, and of one that `on_parse` refuses.
pub fn handed_modules_mean_their_files<
    G: FnMut(u32) -> InstrLocId,
    F: FnOnce(&mut Module<B>, &IndicesToIds) -> Result<()>,
    B,
>()
    ensures { HandedModulesMeanTheirFiles G.step F.FnOnce }
{
    read_modules_are_handed_on::<G, B>();
}
