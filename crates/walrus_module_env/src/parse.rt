//! Bodies are read into their module.

ghost use Rattle.std.specs.Prelude.{◌≡◌, ◌<◌, ◌≤◌, ◌+◌, length, None, IfOk, IfErr, MatchResult};
ghost use Rattle.wasm_reader.specs.Cursor.{end_of};
ghost use Rattle.walrus_handler_types.specs.walrus_tree.walrus_builder.Built.{contents};
ghost use Rattle.walrus_index_maps.specs.Views.{ids};
ghost use Rattle.walrus_functions_into.specs.walrus_collections.walrus_local_function.walrus_body_locals.Locals.{Leaves};
ghost use Rattle.walrus_functions_into.specs.walrus_collections.walrus_local_function.walrus_function_parser.Parsed.{Parses, telling};
ghost use Rattle.walrus_functions_into.specs.walrus_collections.walrus_local_function.Refusals.{IsRefusal};
ghost use Rattle.walrus_module_env.specs.Around.{sight_in};
ghost use Rattle.walrus_module_env.specs.Parsed.{IsBodyOfFile, IsFaultOfFile};

use crate::env::ModuleEnv;
use std::alloc::Global;
use walrus_arena::{FunctionId, LocalId, TypeId};
use walrus_body_env::instr::InstrSeqType;
use walrus_body_env::{BodyError, Validator};
use walrus_functions_into::local_function::LocalFunction;
use walrus_index_maps::IndicesToIds;
use walrus_types::ModuleLocals;
use wasm_reader::BinaryReader;

impl<'a> ModuleEnv<'a> {
    /// Reads the body of a function of this type and these arguments (Core Specification, binary format: code section). The locals that
    /// the function's indices name stand in front of those that the body declares: they are its parameters. Its own block has the type
    /// `entry`. The locals that it declares are added to the module, and the next indices of the function name them. Its tree is in normal
    /// form, and block types are the file's picks; each location is the operator's place from the beginning of the code section's
    /// contents, in bytes. The validator is told of each run of locals and of each operator that was read, and of the end.
    ///
    /// Asks for bytes that begin behind the beginning of the code section's contents, and end less than 4294967295 behind it.
    ///
    /// # Errors
    ///
    /// The first that is due, from left to right: where the bytes spell no body, where a rule for bodies is broken, also in code that is
    /// dropped, or as the validator refuses; `TypeForm` where the module has no type for a handler that is reached; want of memory. Locals
    /// that were added stay in the module, and no index names them: the map is as it was. The validator was told of the runs and operators
    /// in front of the fault, and of what it refuses itself, of nothing else.
    pub fn parse_body<V: Validator>(
        &self,
        alloc: Global,
        indices: &mut IndicesToIds,
        locals: &mut ModuleLocals,
        function: FunctionId,
        ty: TypeId,
        entry: InstrSeqType,
        args: Vec<LocalId>,
        body: BinaryReader<'_>,
        validator: &mut V,
    ) -> Result<LocalFunction, BodyError>
        requires begins { self.now.code_start ≤ body.window.start + body.position }
        requires ends { end_of body < self.now.code_start + 4294967295 }
        ensures parsed { IfOk result (λ f. Parses (sight_in self.now function (ids indices.old)) (telling V.locals_step V.op_step V.finish_step) (length ((ids indices.old).locals function)) self.now.code_start body.entry entry locals.old locals.new (ids indices.new) validator.old validator.new (contents f.builder.builder)) }
        ensures file { IfOk result (λ f. IsBodyOfFile self.now function (ids indices.old) (telling V.locals_step V.op_step V.finish_step) (length ((ids indices.old).locals function)) body.entry (ids indices.new) (contents f.builder.builder)) }
        ensures ty { IfOk result (λ f. f.builder.ty ≡ ty) }
        ensures name { IfOk result (λ f. f.builder.name ≡ None) }
        ensures args { IfOk result (λ f. f.args ≡ args) }
        ensures refused { IfErr result (λ e. IsRefusal (sight_in self.now function (ids indices.old)) (telling V.locals_step V.op_step V.finish_step) (length ((ids indices.old).locals function)) self.now.code_start body.entry locals.old locals.new validator.old validator.new e) }
        ensures stops { IfErr result (λ e. IsFaultOfFile self.now function (ids indices.old) (telling V.locals_step V.op_step V.finish_step) (length ((ids indices.old).locals function)) body.entry locals.old locals.new e) }
        ensures kept { MatchResult result (λ _. Leaves function locals.old locals.new (ids indices.old) (ids indices.new)) (λ _. ids indices.new ≡ ids indices.old) }
    {
        LocalFunction::parse(
            alloc, self, indices, locals, function, ty, entry, args, body, validator,
        )
    }
}
