//! A body is read beside some type for each handler.

ghost use Rattle.std.specs.Prelude.{◌≡◌, ◌⊎◌, ◌<◌, ◌≤◌, ◌+◌, length, All, None, false, IfOk, IfErr, OnOk};
ghost use Rattle.wasm_reader.specs.Cursor.{IsWithin, end_of, rest};
ghost use Rattle.walrus_index_maps.specs.Views.{ids};
ghost use Rattle.walrus_module_env.specs.walrus_body_parser.walrus_body_stack.walrus_body_env.declared.error.BodyError.TheVariants.{Memory as WantsMemory};
ghost use Rattle.walrus_module_env.specs.walrus_body_parser.walrus_body_rules.wasm_body_grammar.Rules.{Around};
ghost use Rattle.walrus_module_env.specs.walrus_handler_types.walrus_handlers.Gathering.{have_try};
ghost use Rattle.walrus_module_env.specs.walrus_handler_types.walrus_tree.Trees.{IsTree};
ghost use Rattle.walrus_module_env.specs.walrus_body_parser.walrus_body_stack.walrus_builder.Built.{contents};
ghost use Rattle.walrus_module_env.specs.walrus_body_parser.walrus_body_stack.walrus_builder.Functions.{seqs_of};
ghost use Rattle.walrus_module_env.specs.Around.{IsFiled};
ghost use Rattle.walrus_module_env.specs.walrus_collections.walrus_local_function.walrus_body_locals.Locals.{Leaves};
ghost use Rattle.walrus_module_bodies.specs.Reading.{IsBodyAside, IsBodyFault, TagsStand};

use crate::tries::Tries;
use std::alloc::Global;
use walrus_arena::{FunctionId, LocalId, TypeId};
use walrus_body_trees::laws::bodies_are_trees;
use walrus_index_maps::IndicesToIds;
use walrus_module_env::ModuleEnv;
use walrus_module_env::body_env::BodyError;
use walrus_module_env::body_env::instr::InstrSeqType;
use walrus_module_env::body_env::instr::type_table::ModuleLocals;
use walrus_module_env::collections::local_function::LocalFunction;
use walrus_module_env::handlers::AnyHandler;
use walrus_module_env::laws::files_are_seen;
use wasm_reader::BinaryReader;

// Reads the body of a function of this type and these arguments, beside some type for each handler. Where no operator opened a legacy `try`,
// it has none.
pub(crate) fn read_aside(
    alloc: Global,
    env: &ModuleEnv<'_>,
    indices: &mut IndicesToIds,
    locals: &mut ModuleLocals,
    function: FunctionId,
    ty: TypeId,
    entry: InstrSeqType,
    args: Vec<LocalId>,
    body: BinaryReader<'_>,
    tries: &mut Tries,
) -> Result<LocalFunction, BodyError>
    requires begins { env.now.code_start ≤ body.window.start + body.position }
    requires ends { end_of body < env.now.code_start + 4294967295 }
    requires within { IsWithin body }
    requires tags { TagsStand env.now.tags.now env.now.types.now (ids indices.old) }
    ensures read { IfOk result (λ f. IsBodyAside env.now function (length args.items) body.entry (ids indices.old) (ids indices.new) locals.old locals.new (contents f.builder.builder)) }
    ensures tries { IfOk result (λ f. tries.new.any ≡ false → have_try (seqs_of f.builder) ≡ false) }
    ensures ty { IfOk result (λ f. f.builder.ty ≡ ty) }
    ensures name { IfOk result (λ f. f.builder.name ≡ None) }
    ensures args { IfOk result (λ f. f.args ≡ args) }
    ensures stops { IfErr result (λ e. (e ≡ WantsMemory) ⊎ IsBodyFault env.now function (length args.items) body.entry (ids indices.old) e) }
    ensures kept { OnOk result (Leaves function locals.old locals.new (ids indices.old) (ids indices.new)) }
{
    files_are_seen();
    let any = AnyHandler::new(env);
    LocalFunction::parse(
        alloc, &any, indices, locals, function, ty, entry, args, body, tries,
    )
}

// Reads it so into a module that a file was read into: its sequences form a tree.
pub(crate) fn read_tree(
    alloc: Global,
    env: &ModuleEnv<'_>,
    indices: &mut IndicesToIds,
    locals: &mut ModuleLocals,
    function: FunctionId,
    ty: TypeId,
    entry: InstrSeqType,
    args: Vec<LocalId>,
    body: BinaryReader<'_>,
    tries: &mut Tries,
) -> Result<LocalFunction, BodyError>
    requires begins { env.now.code_start ≤ body.window.start + body.position }
    requires ends { end_of body < env.now.code_start + 4294967295 }
    requires within { IsWithin body }
    requires tags { TagsStand env.now.tags.now env.now.types.now (ids indices.old) }
    requires filed { (a : Around) × IsFiled env.now (ids indices.old) function (length args.items) body.window.features a }
    requires bytes { All (λ b. b < 256) (rest body) }
    ensures read { IfOk result (λ f. IsBodyAside env.now function (length args.items) body.entry (ids indices.old) (ids indices.new) locals.old locals.new (contents f.builder.builder)) }
    ensures tree { IfOk result (λ f. IsTree (seqs_of f.builder) 0) }
    ensures tries { IfOk result (λ f. tries.new.any ≡ false → have_try (seqs_of f.builder) ≡ false) }
    ensures ty { IfOk result (λ f. f.builder.ty ≡ ty) }
    ensures name { IfOk result (λ f. f.builder.name ≡ None) }
    ensures args { IfOk result (λ f. f.args ≡ args) }
    ensures stops { IfErr result (λ e. (e ≡ WantsMemory) ⊎ IsBodyFault env.now function (length args.items) body.entry (ids indices.old) e) }
    ensures kept { OnOk result (Leaves function locals.old locals.new (ids indices.old) (ids indices.new)) }
{
    bodies_are_trees();
    read_aside(
        alloc, env, indices, locals, function, ty, entry, args, body, tries,
    )
}
