//! All bodies of a file, one after another.

ghost use Rattle.std.specs.Prelude.{◌≡◌, ◌⊎◌, All, IfErr, OnOk};
ghost use Rattle.walrus_index_maps.specs.Views.{ids};
ghost use Rattle.walrus_module_env.specs.walrus_body_parser.walrus_body_stack.walrus_body_env.declared.error.BodyError.TheVariants.{Memory as WantsMemory};
ghost use Rattle.walrus_module_bodies.specs.Reading.{TagsStand};
ghost use Rattle.walrus_module_bodies.specs.Steps.{AreApart, IsFiledLater, IsPlaced, IsReady, Steps, StopsIn, state};

use crate::body::read_body;
use crate::file::FileEnv;
use std::alloc::Global;
use walrus_function_types::laws::{found_types_stay, tables_grow_on};
use walrus_index_maps::IndicesToIds;
use walrus_module_env::body_env::BodyError;
use walrus_module_env::body_env::instr::type_table::{ModuleLocals, ModuleTypes};
use walrus_module_env::collections::ModuleFunctions;
use walrus_module_env::functions_into::FunctionBody;
use wasm_features::WasmFeatures;

/// Reads bodies in turn, each for a function that has none yet, and gives them to these (Core Specification, binary format: code
/// section): before its body a function gets a local for each parameter, and its body's own block an entry type of its results. Types
/// that handlers of a legacy `try` lack are added to the module, in the order of the file.
///
/// Asks for a module that the sections of the file were read into, whose tags have live function types, for functions that are apart, each
/// with a live function type and no locals, and for bytes that lie in the file.
///
/// # Errors
///
/// The first that is due in the first body that has one; want of memory. What was read before it stays.
pub fn read_bodies(
    alloc: Global,
    file: FileEnv<'_>,
    features: WasmFeatures,
    types: &mut ModuleTypes,
    indices: &mut IndicesToIds,
    locals: &mut ModuleLocals,
    functions: &mut ModuleFunctions,
    bodies: &[FunctionBody<'_>],
) -> Result<(), BodyError>
    requires placed { All (IsPlaced file) bodies.now }
    requires ready { All (IsReady (state types.old locals.old (ids indices.old) functions.old)) bodies.now }
    requires apart { AreApart bodies.now }
    requires filed { IsFiledLater file features types.old (ids indices.old) }
    requires tags { TagsStand file.tags.now types.old (ids indices.old) }
    ensures stops { IfErr result (λ e. (e ≡ WantsMemory) ⊎ StopsIn file.entry features bodies.now (state types.old locals.old (ids indices.old) functions.old) e) }
    ensures read { OnOk result (Steps file.entry features bodies.now (state types.old locals.old (ids indices.old) functions.old) (state types.new locals.new (ids indices.new) functions.new)) }
{
    found_types_stay();
    tables_grow_on();
    for body in bodies {
        read_body(
            alloc, &file, features, types, indices, locals, functions, body,
        )?;
    }
    Ok(())
}
