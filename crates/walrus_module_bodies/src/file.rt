//! What stands while the bodies of a file are read.

ghost use Rattle.std.specs.Prelude.{◌≡◌};
ghost use Rattle.walrus_module_bodies.specs.Envs.{IsEnv};

use walrus_module_env::ModuleEnv;
use walrus_module_env::body_env::instr::type_table::ModuleTypes;
use walrus_module_env::collections::{ModuleMemories, ModuleTags};

/// What stands while the bodies of a file are read into their module; its types grow by those of handlers.
#[derive(Clone, Copy)]
pub struct FileEnv<'a> {
    pub tags: &'a ModuleTags,
    pub memories: &'a ModuleMemories,
    /// How many ids the types of the file have.
    pub own_types: usize,
    /// Whether the file has a data count section.
    pub has_data_count: bool,
    /// Where the contents of the code section begin.
    pub code_start: u64,
}

impl<'a> FileEnv<'a> {
    /// What bodies ask of their module, beside these types.
    pub fn beside(self, types: &'a ModuleTypes) -> ModuleEnv<'a>
        ensures { IsEnv self.entry types.now result }
    {
        ModuleEnv {
            types,
            tags: self.tags,
            memories: self.memories,
            own_types: self.own_types,
            has_data_count: self.has_data_count,
            code_start: self.code_start,
        }
    }
}
