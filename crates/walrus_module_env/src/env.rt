//! What a body asks of the module that its file is read into.

ghost use Rattle.std.specs.Prelude.{◌≡◌};
ghost use Rattle.walrus_module_env.specs.Env.{if_own, is_own};

use walrus_arena::{LocalId, MemoryId, TagId, TypeId};
use walrus_body_env::BodyEnv;
use walrus_body_env::instr::InstrSeqType;
use walrus_function_types::function_at;
use walrus_functions_into::collections::{ModuleMemories, ModuleTags};
use walrus_types::{ModuleTypes, ValType};

/// What bodies ask of the module that their file is read into (Core Specification, validation: contexts): its types, tags and memories,
/// which stand while bodies are read. Its locals aren't lent, as bodies add theirs.
#[derive(Clone, Copy)]
pub struct ModuleEnv<'a> {
    /// The types: those of the file, and behind them those that were added for handlers and for bodies' own blocks.
    pub types: &'a ModuleTypes,
    pub tags: &'a ModuleTags,
    pub memories: &'a ModuleMemories,
    /// How many ids the types of the file have. A block type picks among these alone.
    pub own_types: usize,
    /// Whether the file has a data count section.
    pub has_data_count: bool,
    /// Where the contents of the code section begin.
    pub code_start: u64,
}

// Whether it names none of the types behind the file's own.
fn is_own(own: usize, ty: InstrSeqType) -> bool
    ensures { result ≡ is_own own ty }
{
    match ty {
        InstrSeqType::Simple(_) => true,
        InstrSeqType::MultiValue(id) => id.index() < own,
    }
}

// The block type, unless it names a type behind the file's own.
fn if_own(own: usize, ty: Option<InstrSeqType>) -> Option<InstrSeqType>
    ensures { result ≡ if_own own ty }
{
    let kept = ty?;
    let found = kept;
    if is_own(own, found) { Some(kept) } else { None }
}

impl<'a> BodyEnv for ModuleEnv<'a> {
    ghost use Rattle.std.specs.Prelude.{None};
    ghost use Rattle.walrus_body_env.specs.walrus_instr.BlockTypes.{picked};
    ghost use Rattle.walrus_module_env.specs.Env.{is_wide_at, own_pick, params_at, results_at, tag_type_at};

    ghost type_params = { λ e ty. params_at e.types.now ty };

    ghost type_results = { λ e ty. results_at e.types.now ty };

    ghost block_type = { λ e params results. own_pick e.own_types e.types.now params results };

    ghost handler_type = { λ e params results. picked params results e.types.now };

    ghost local_type = { λ e local. None };

    ghost tag_type = { λ e tag. tag_type_at e.tags.now tag };

    ghost is_wide = { λ e memory. is_wide_at e.memories.now memory };

    ghost has_data_count = { λ e. e.has_data_count };

    ghost code_start = { λ e. e.code_start };

    fn params(&self, ty: TypeId) -> Option<&[ValType]> {
        match function_at(self.types, ty) {
            Some(ty) => Some(ty.params()),
            None => None,
        }
    }

    fn results(&self, ty: TypeId) -> Option<&[ValType]> {
        match function_at(self.types, ty) {
            Some(ty) => Some(ty.results()),
            None => None,
        }
    }

    fn block_type(&self, params: &[ValType], results: &[ValType]) -> Option<InstrSeqType> {
        let ty = InstrSeqType::existing(self.types, params, results);
        if_own(self.own_types, ty)
    }

    fn handler_type(&self, params: &[ValType], results: &[ValType]) -> Option<InstrSeqType> {
        InstrSeqType::existing(self.types, params, results)
    }

    // The module's locals are lent for writing while a body is read, and no part of reading asks for their types.
    fn local_type(&self, _local: LocalId) -> Option<ValType> {
        None
    }

    fn tag_type(&self, tag: TagId) -> Option<TypeId> {
        if self.tags.contains(tag) {
            Some(self.tags.get(tag).ty)
        } else {
            None
        }
    }

    fn is_memory64(&self, memory: MemoryId) -> bool {
        self.memories.contains(memory) && self.memories.get(memory).memory64
    }

    fn has_data_count(&self) -> bool {
        self.has_data_count
    }

    fn code_start(&self) -> u64 {
        self.code_start
    }
}
