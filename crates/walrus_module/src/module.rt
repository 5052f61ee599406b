//! The module: its collections, and what holds of it as a whole.
ghost use Rattle.std.specs.Prelude.{◌≡◌, [], None};
ghost use Rattle.walrus_arena.specs.Arena.{ids};
ghost use Rattle.walrus_collections.specs.Answers.{only};
ghost use Rattle.walrus_collections.specs.LookUps.{items};

use std::alloc::Global;
use walrus_arena::{FunctionId, FunctionSpace, MemoryId};
use walrus_collections::module_items::Function;
use walrus_collections::{
    Items, ModuleData, ModuleElements, ModuleExports, ModuleFunctions, ModuleGlobals,
    ModuleImports, ModuleMemories, ModuleTables, ModuleTags,
};
use walrus_config::ModuleConfig;
use walrus_customs::ModuleProducers;
use walrus_errors::{ModuleError, Result};
use walrus_items::ModuleLocals;
use walrus_sections::{CustomSection, Sections};
use walrus_types::ModuleTypes;

/// A WebAssembly module (Core Specification, modules), whose items are named by ids. Its custom sections are raw ones and boxes of `B`.
#[derive(Drop)]
pub struct Module<B = Box<dyn CustomSection>> {
    pub(crate) alloc: Global,
    config: ModuleConfig,
    pub imports: ModuleImports,
    pub tables: ModuleTables,
    pub types: ModuleTypes,
    pub funcs: ModuleFunctions,
    pub globals: ModuleGlobals,
    pub locals: ModuleLocals,
    pub exports: ModuleExports,
    pub memories: ModuleMemories,
    pub tags: ModuleTags,
    pub data_segments: ModuleData,
    pub elements: ModuleElements,
    /// The function that is called at instantiation, if one is.
    pub start: Option<FunctionId>,
    pub producers: ModuleProducers,
    pub customs: Sections<B>,
    /// The module's name.
    pub name: Option<String>,
}

impl<B> Module<B> {
    /// A module without items, which is written as the flags say. Takes no memory.
    pub fn with_config(alloc: Global, config: ModuleConfig) -> Self
        ensures config { result.config ≡ config }
        ensures imports { result.imports.slots ≡ [] }
        ensures tables { result.tables.slots ≡ [] }
        ensures types { result.types ≡ record { types = []; groups = [] } }
        ensures funcs { result.funcs.slots ≡ [] }
        ensures globals { result.globals.slots ≡ [] }
        ensures locals { result.locals ≡ [] }
        ensures exports { result.exports.slots ≡ [] }
        ensures memories { result.memories.slots ≡ [] }
        ensures tags { result.tags.slots ≡ [] }
        ensures data_segments { result.data_segments.slots ≡ [] }
        ensures elements { result.elements.slots ≡ [] }
        ensures start { result.start ≡ None }
        ensures producers { result.producers ≡ [] }
        ensures customs { result.customs.slots ≡ [] }
        ensures name { result.name ≡ None }
    {
        Module {
            alloc,
            config,
            imports: ModuleImports::new(alloc),
            tables: ModuleTables::new(alloc),
            types: ModuleTypes::new(alloc),
            funcs: ModuleFunctions::new(alloc),
            globals: ModuleGlobals::new(alloc),
            locals: ModuleLocals::new(alloc),
            exports: ModuleExports::new(alloc),
            memories: ModuleMemories::new(alloc),
            tags: ModuleTags::new(alloc),
            data_segments: ModuleData::new(alloc),
            elements: ModuleElements::new(alloc),
            start: None,
            producers: ModuleProducers::new(alloc),
            customs: Sections::new(alloc),
            name: None,
        }
    }

    /// The flags with which it is written.
    pub fn config(&self) -> &ModuleConfig
        ensures { result.now ≡ self.now.config }
    {
        &self.config
    }

    /// The live functions, by rising id.
    pub fn functions(&self) -> Items<'_, Function, FunctionSpace>
        ensures { result ≡ items self.now.funcs }
    {
        self.funcs.iter()
    }

    /// The only memory. Goes through the memories.
    ///
    /// # Errors
    ///
    /// `NotFound` where there is none, and `Several` where there are several.
    pub fn get_memory_id(&self) -> Result<MemoryId>
        ensures { result ≡ only (ids self.now.memories) }
    {
        let mut ids = self.memories.ids();
        match ids.next() {
            None => Err(ModuleError::NotFound),
            Some(id) => match ids.next() {
                None => Ok(id),
                Some(_) => Err(ModuleError::Several),
            },
        }
    }
}
