//! The body of a function is read.

ghost use Rattle.std.specs.Prelude.{◌≡◌, ◌<◌, ◌≤◌, ◌+◌, length, None, IfOk, IfErr, MatchResult};
ghost use Rattle.wasm_reader.specs.Cursor.{end_of};
ghost use Rattle.walrus_function_parser.specs.walrus_body_parser.walrus_body_stack.walrus_builder.Built.{contents};
ghost use Rattle.walrus_index_maps.specs.Views.{ids};
ghost use Rattle.walrus_function_parser.specs.walrus_body_locals.Locals.{Leaves};
ghost use Rattle.walrus_function_parser.specs.Parsed.{Parses, sight_of, telling};
ghost use Rattle.walrus_local_function.specs.Refusals.{IsRefusal};

use crate::local_function::LocalFunction;
use std::alloc::Global;
use walrus_arena::{FunctionId, LocalId, TypeId};
use walrus_body_names::body_env::{BodyEnv, BodyError, Validator};
use walrus_function_parser::parse_function;
use walrus_index_maps::IndicesToIds;
use walrus_instr::InstrSeqType;
use walrus_items::ModuleLocals;
use wasm_reader::BinaryReader;

impl LocalFunction {
    /// Reads the body of a function of this type and these arguments. The locals that the function's indices name stand in front of those
    /// that the body declares: they are its parameters. Its own block has the type `entry`. The locals that it declares are added to the
    /// module, and the next indices of the function name them. Its tree is in normal form, each location is the operator's place from the
    /// beginning of the code section's contents, in bytes. The validator is told of each run of locals and of each operator that was read,
    /// and of the end.
    ///
    /// Asks for bytes that begin behind the beginning of the code section's contents, and end less than 4294967295 behind it.
    ///
    /// # Errors
    ///
    /// The first that is due, from left to right: where the bytes spell no body (Core Specification, binary format: code section), where
    /// a rule for bodies is broken, also in code that is dropped, or as the validator refuses; `TypeForm` where the environment has no
    /// type for a handler that is reached; want of memory. Locals that were added stay in the module, and no index names them: the map
    /// is as it was. The validator was told of the runs and operators in front of the fault, and of what it refuses itself, of nothing
    /// else.
    pub fn parse<E: BodyEnv, V: Validator>(
        alloc: Global,
        env: &E,
        indices: &mut IndicesToIds,
        locals: &mut ModuleLocals,
        function: FunctionId,
        ty: TypeId,
        entry: InstrSeqType,
        args: Vec<LocalId>,
        body: BinaryReader<'_>,
        validator: &mut V,
    ) -> Result<LocalFunction, BodyError>
        requires begins { E.code_start env.now ≤ body.window.start + body.position }
        requires ends { end_of body < E.code_start env.now + 4294967295 }
        ensures parsed { IfOk result (λ f. Parses (sight_of E.type_params E.type_results E.block_type E.handler_type E.tag_type E.is_wide E.has_data_count env.now function (ids indices.old)) (telling V.locals_step V.op_step V.finish_step) (length ((ids indices.old).locals function)) (E.code_start env.now) body.entry entry locals.old locals.new (ids indices.new) validator.old validator.new (contents f.builder.builder)) }
        ensures ty { IfOk result (λ f. f.builder.ty ≡ ty) }
        ensures name { IfOk result (λ f. f.builder.name ≡ None) }
        ensures args { IfOk result (λ f. f.args ≡ args) }
        ensures refused { IfErr result (λ e. IsRefusal (sight_of E.type_params E.type_results E.block_type E.handler_type E.tag_type E.is_wide E.has_data_count env.now function (ids indices.old)) (telling V.locals_step V.op_step V.finish_step) (length ((ids indices.old).locals function)) (E.code_start env.now) body.entry locals.old locals.new validator.old validator.new e) }
        ensures kept { MatchResult result (λ _. Leaves function locals.old locals.new (ids indices.old) (ids indices.new)) (λ _. ids indices.new ≡ ids indices.old) }
    {
        let params = indices.local_count(function);
        match parse_function(
            alloc, env, indices, locals, function, ty, entry, params, body, validator,
        ) {
            Ok(builder) => Ok(LocalFunction::new(args, builder)),
            Err(fault) => {
                indices.keep_locals(function, params);
                Err(fault)
            }
        }
    }
}
