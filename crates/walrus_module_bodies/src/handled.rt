//! A body is read, and its handlers are given their types.

ghost use Rattle.std.specs.Prelude.{◌≡◌, ◌⊎◌, ◌<◌, ◌≤◌, ◌+◌, length, All, None, IfErr, IfOk, OnOk};
ghost use Rattle.wasm_reader.specs.Cursor.{IsWithin, end_of, rest};
ghost use Rattle.walrus_index_maps.specs.Views.{ids};
ghost use Rattle.walrus_function_types.specs.Growth.{Grows};
ghost use Rattle.walrus_module_env.specs.walrus_body_parser.walrus_body_stack.walrus_body_env.declared.error.BodyError.TheVariants.{Memory as WantsMemory};
ghost use Rattle.walrus_module_env.specs.walrus_body_parser.walrus_body_rules.wasm_body_grammar.Rules.{Around};
ghost use Rattle.walrus_module_env.specs.walrus_body_parser.walrus_body_stack.walrus_builder.Built.{contents};
ghost use Rattle.walrus_module_env.specs.declared.env.ModuleEnv.{ModuleEnv};
ghost use Rattle.walrus_module_env.specs.Around.{IsFiled};
ghost use Rattle.walrus_module_env.specs.walrus_collections.walrus_local_function.walrus_body_locals.Locals.{Leaves};
ghost use Rattle.walrus_module_bodies.specs.Envs.{IsEnv};
ghost use Rattle.walrus_module_bodies.specs.Reading.{GivesHandlers, IsBodyFault, IsHandledBody, TagsStand};

use crate::aside::read_tree;
use crate::file::FileEnv;
use crate::tries::Tries;
use std::alloc::Global;
use walrus_arena::{FunctionId, LocalId, TypeId};
use walrus_index_maps::IndicesToIds;
use walrus_module_env::body_env::BodyError;
use walrus_module_env::body_env::instr::InstrSeqType;
use walrus_module_env::body_env::instr::type_table::{ModuleLocals, ModuleTypes};
use walrus_module_env::collections::local_function::LocalFunction;
use walrus_module_env::handler_types::give_types;
use walrus_module_env::handlers::handlers_if;
use walrus_module_env::laws::{handled_bodies_stand, picks_are_seen};
use wasm_reader::BinaryReader;

/// Reads the body of a function of this type and these arguments (Core Specification, binary format: code section), which its first
/// indices of locals name; its own block has the type `entry`. The locals that it declares are added to the module, and the next indices
/// of the function name them. Handlers of a legacy `try` get their types from the module, to which those that it lacks are added, in the
/// order of the handlers. Its tree is in normal form, each location is the operator's place from the beginning of the code section's
/// contents, in bytes.
///
/// Asks for a module that the sections of a file were read into, whose tags have live function types, and for bytes that begin behind the
/// beginning of the code section's contents, and end less than 4294967295 behind it.
///
/// # Errors
///
/// The first that is due, from left to right, as the bytes are read as a body of that file; want of memory. Locals and types that were
/// added stay.
pub(crate) fn read_handled(
    alloc: Global,
    file: FileEnv<'_>,
    types: &mut ModuleTypes,
    indices: &mut IndicesToIds,
    locals: &mut ModuleLocals,
    function: FunctionId,
    ty: TypeId,
    entry: InstrSeqType,
    args: Vec<LocalId>,
    body: BinaryReader<'_>,
) -> Result<LocalFunction, BodyError>
    requires begins { file.code_start ≤ body.window.start + body.position }
    requires ends { end_of body < file.code_start + 4294967295 }
    requires filed { (e : ModuleEnv) × (a : Around) × IsEnv file types.old e × IsFiled e (ids indices.old) function (length args.items) body.window.features a }
    requires within { IsWithin body }
    requires tags { TagsStand file.tags.now types.old (ids indices.old) }
    requires bytes { All (λ b. b < 256) (rest body) }
    ensures read { IfOk result (λ f. IsHandledBody file.entry types.old types.new function (length args.items) body.entry (ids indices.old) (ids indices.new) locals.old locals.new (contents f.builder.builder)) }
    ensures handled { IfOk result (λ f. GivesHandlers file.entry types.old types.new function (length args.items) body.entry (ids indices.old) (ids indices.new) locals.old locals.new (contents f.builder.builder)) }
    ensures stops { IfErr result (λ e. (e ≡ WantsMemory) ⊎ ((g : ModuleEnv) × IsEnv file.entry types.old g × IsBodyFault g function (length args.items) body.entry (ids indices.old) e)) }
    ensures grown { Grows types.old types.new }
    ensures ty { IfOk result (λ f. f.builder.ty ≡ ty) }
    ensures name { IfOk result (λ f. f.builder.name ≡ None) }
    ensures args { IfOk result (λ f. f.args ≡ args) }
    ensures kept { OnOk result (Leaves function locals.old locals.new (ids indices.old) (ids indices.new)) }
{
    picks_are_seen();
    handled_bodies_stand();
    let env = file.beside(&*types);
    let mut tries = Tries { any: false };
    let mut read = read_tree(
        alloc, &env, indices, locals, function, ty, entry, args, body, &mut tries,
    )?;
    let told = handlers_if(alloc, &env, read.builder(), tries.any)?;
    give_types(alloc, told.as_slice(), types, read.builder_mut())?;
    Ok(read)
}
