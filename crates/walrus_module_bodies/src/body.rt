//! One body, read for its function.

ghost use Rattle.std.specs.Prelude.{◌≡◌, ◌⊎◌, ◌<◌, ◌+◌, All, IfErr, IfOk, OnOk, length};
ghost use Rattle.wasm_reader.specs.Cursor.{IsWithin, rest};
ghost use Rattle.walrus_index_maps.specs.Views.{ids};
ghost use Rattle.walrus_module_env.specs.walrus_body_parser.walrus_body_stack.walrus_body_env.declared.error.BodyError.TheVariants.{Memory as WantsMemory};
ghost use Rattle.walrus_module_bodies.specs.Reading.{TagsStand};
ghost use Rattle.walrus_module_bodies.specs.Steps.{Fails, IsFiledLater, IsPlaced, IsReady, IsStep, ReadsFor, state};

use crate::arguments::{add_arguments, entry_type, params_of};
use crate::file::FileEnv;
use crate::handled::read_handled;
use std::alloc::Global;
use walrus_function_types::laws::{entry_types_grow, found_types_stay, tables_grow_on};
use walrus_index_maps::IndicesToIds;
use walrus_module_env::body_env::BodyError;
use walrus_module_env::body_env::instr::InstrSeqType;
use walrus_module_env::body_env::instr::type_table::{ModuleLocals, ModuleTypes};
use walrus_module_env::collections::ModuleFunctions;
use walrus_module_env::collections::local_function::LocalFunction;
use walrus_module_env::functions_into::{FunctionBody, give_body};
use wasm_features::WasmFeatures;
use wasm_reader::BinaryReader;

// A body's bytes, whose first one has this place behind the beginning of the code section's contents.
fn reader_of<'a>(
    file: &FileEnv<'_>,
    features: WasmFeatures,
    place: u64,
    bytes: &'a [u8],
) -> BinaryReader<'a>
    requires { file.now.code_start + place + length bytes.now < 4294967295 }
    ensures begins { result ≡ record { window = record { bytes = bytes.now; start = file.now.code_start + place; features = features }; position = 0 } }
    ensures within { IsWithin result }
    ensures bytes { All (λ b. b < 256) (rest result) }
{
    BinaryReader::new_features(bytes, file.code_start + place, features)
}

/// Reads the body of a function that has none yet (Core Specification, binary format: code section): before it the function gets a local
/// for each parameter, and the body's own block an entry type of its results. Types that handlers of a legacy `try` lack are added to the
/// module, in the order of the file. Nobody has the body then but the caller.
///
/// Asks for a module that the sections of the file were read into, whose tags have live function types, for a function that lives, has a
/// live function type and no locals, and for bytes that lie in the file.
///
/// # Errors
///
/// The first that is due in the body; want of memory. What was added stays.
pub fn read_function(
    alloc: Global,
    file: &FileEnv<'_>,
    features: WasmFeatures,
    types: &mut ModuleTypes,
    indices: &mut IndicesToIds,
    locals: &mut ModuleLocals,
    functions: &ModuleFunctions,
    body: &FunctionBody<'_>,
) -> Result<LocalFunction, BodyError>
    requires placed { IsPlaced file.now body.now }
    requires ready { IsReady (state types.old locals.old (ids indices.old) functions.now) body.now }
    requires filed { IsFiledLater file.now features types.old (ids indices.old) }
    requires tags { TagsStand file.now.tags.now types.old (ids indices.old) }
    ensures stops { IfErr result (λ e. (e ≡ WantsMemory) ⊎ Fails file.now features body.now (state types.old locals.old (ids indices.old) functions.now) e) }
    ensures read { IfOk result (ReadsFor file.now features body.now (state types.old locals.old (ids indices.old) functions.now) types.new locals.new (ids indices.new)) }
{
    entry_types_grow();
    found_types_stay();
    tables_grow_on();
    let function = body.function();
    let ty = functions.get(function).ty();
    let entry = entry_type(alloc, types, ty)?;
    let env = file.beside(&*types);
    let args = add_arguments(alloc, params_of(&env, ty), function, indices, locals)?;
    let reader = reader_of(file, features, body.chunk.place, body.chunk.bytes);
    let read = read_handled(
        alloc,
        *file,
        types,
        indices,
        locals,
        function,
        ty,
        InstrSeqType::MultiValue(entry),
        args,
        reader,
    )?;
    Ok(read)
}

/// Reads the body of a function that has none yet, and gives it to it.
pub(crate) fn read_body(
    alloc: Global,
    file: &FileEnv<'_>,
    features: WasmFeatures,
    types: &mut ModuleTypes,
    indices: &mut IndicesToIds,
    locals: &mut ModuleLocals,
    functions: &mut ModuleFunctions,
    body: &FunctionBody<'_>,
) -> Result<(), BodyError>
    requires placed { IsPlaced file.now body.now }
    requires ready { IsReady (state types.old locals.old (ids indices.old) functions.old) body.now }
    requires filed { IsFiledLater file.now features types.old (ids indices.old) }
    requires tags { TagsStand file.now.tags.now types.old (ids indices.old) }
    ensures stops { IfErr result (λ e. (e ≡ WantsMemory) ⊎ Fails file.now features body.now (state types.old locals.old (ids indices.old) functions.old) e) }
    ensures read { OnOk result (IsStep file.now features body.now (state types.old locals.old (ids indices.old) functions.old) (state types.new locals.new (ids indices.new) functions.new)) }
{
    let read = read_function(
        alloc, file, features, types, indices, locals, functions, body,
    )?;
    give_body(functions, body.function(), read);
    Ok(())
}
