//! What number each id is written as.
ghost use Rattle.std.specs.Prelude.{◌≡◌, ◌+◌, ◌<◌, ◌^◌, None, IfOk, OnOk, OnErr};
ghost use Rattle.walrus_index_maps.specs.Maps.{no_indices, numbered, next_numbered, with_local};
ghost use Rattle.walrus_index_maps.specs.Views.{indices};

use crate::locals::LocalNumbers;
use crate::numbers::Numbers;
use std::alloc::{AllocError, Global};
use walrus_arena::{
    DataId, DataSpace, ElementId, ElementSpace, FunctionId, FunctionSpace, GlobalId, GlobalSpace,
    LocalId, MemoryId, MemorySpace, TableId, TableSpace, TagId, TagSpace, TypeId, TypeSpace,
};

/// The numbers that ids are written as: in each space, and in each function for its locals.
#[derive(Drop)]
pub struct IdsToIndices {
    types: Numbers<TypeSpace>,
    funcs: Numbers<FunctionSpace>,
    tables: Numbers<TableSpace>,
    memories: Numbers<MemorySpace>,
    tags: Numbers<TagSpace>,
    globals: Numbers<GlobalSpace>,
    elements: Numbers<ElementSpace>,
    segments: Numbers<DataSpace>,
    locals: LocalNumbers,
}

impl IdsToIndices {
    /// No id has a number. Takes no memory.
    pub fn new(alloc: Global) -> Self
        ensures { indices result ≡ no_indices }
    {
        IdsToIndices {
            types: Numbers::new(alloc),
            funcs: Numbers::new(alloc),
            tables: Numbers::new(alloc),
            memories: Numbers::new(alloc),
            tags: Numbers::new(alloc),
            globals: Numbers::new(alloc),
            elements: Numbers::new(alloc),
            segments: Numbers::new(alloc),
            locals: LocalNumbers::new(alloc),
        }
    }

    /// Gives a type the next number of its space. Asks that it has none, and that fewer than 2^32 were given.
    ///
    /// # Errors
    ///
    /// Want of memory. The map stays as it was.
    pub fn push_type(&mut self, id: TypeId) -> Result<u32, AllocError>
        requires is_new { (indices self.old).types.number id ≡ None }
        requires room { (indices self.old).types.given < 2 ^ 32 }
        ensures given { IfOk result (λ number. (number ≡ (indices self.old).types.given) × (indices self.new ≡ record (indices self.old) { types = next_numbered id (indices self.old).types })) }
        ensures refused { OnErr result (indices self.new ≡ indices self.old) }
    {
        self.types.push(id)
    }

    /// The number of a type, if it has one.
    pub fn get_type_index(&self, id: TypeId) -> Option<u32>
        ensures { result ≡ (indices self.now).types.number id }
    {
        self.types.get(id)
    }

    /// Gives a function the next number of its space. Asks that it has none, and that fewer than 2^32 were given.
    ///
    /// # Errors
    ///
    /// Want of memory. The map stays as it was.
    pub fn push_func(&mut self, id: FunctionId) -> Result<u32, AllocError>
        requires is_new { (indices self.old).functions.number id ≡ None }
        requires room { (indices self.old).functions.given < 2 ^ 32 }
        ensures given { IfOk result (λ number. (number ≡ (indices self.old).functions.given) × (indices self.new ≡ record (indices self.old) { functions = next_numbered id (indices self.old).functions })) }
        ensures refused { OnErr result (indices self.new ≡ indices self.old) }
    {
        self.funcs.push(id)
    }

    /// The number of a function, if it has one.
    pub fn get_func_index(&self, id: FunctionId) -> Option<u32>
        ensures { result ≡ (indices self.now).functions.number id }
    {
        self.funcs.get(id)
    }

    /// Gives a table the next number of its space. Asks that it has none, and that fewer than 2^32 were given.
    ///
    /// # Errors
    ///
    /// Want of memory. The map stays as it was.
    pub fn push_table(&mut self, id: TableId) -> Result<u32, AllocError>
        requires is_new { (indices self.old).tables.number id ≡ None }
        requires room { (indices self.old).tables.given < 2 ^ 32 }
        ensures given { IfOk result (λ number. (number ≡ (indices self.old).tables.given) × (indices self.new ≡ record (indices self.old) { tables = next_numbered id (indices self.old).tables })) }
        ensures refused { OnErr result (indices self.new ≡ indices self.old) }
    {
        self.tables.push(id)
    }

    /// The number of a table, if it has one.
    pub fn get_table_index(&self, id: TableId) -> Option<u32>
        ensures { result ≡ (indices self.now).tables.number id }
    {
        self.tables.get(id)
    }

    /// Gives a memory the next number of its space. Asks that it has none, and that fewer than 2^32 were given.
    ///
    /// # Errors
    ///
    /// Want of memory. The map stays as it was.
    pub fn push_memory(&mut self, id: MemoryId) -> Result<u32, AllocError>
        requires is_new { (indices self.old).memories.number id ≡ None }
        requires room { (indices self.old).memories.given < 2 ^ 32 }
        ensures given { IfOk result (λ number. (number ≡ (indices self.old).memories.given) × (indices self.new ≡ record (indices self.old) { memories = next_numbered id (indices self.old).memories })) }
        ensures refused { OnErr result (indices self.new ≡ indices self.old) }
    {
        self.memories.push(id)
    }

    /// The number of a memory, if it has one.
    pub fn get_memory_index(&self, id: MemoryId) -> Option<u32>
        ensures { result ≡ (indices self.now).memories.number id }
    {
        self.memories.get(id)
    }

    /// Gives a tag the next number of its space. Asks that it has none, and that fewer than 2^32 were given.
    ///
    /// # Errors
    ///
    /// Want of memory. The map stays as it was.
    pub fn push_tag(&mut self, id: TagId) -> Result<u32, AllocError>
        requires is_new { (indices self.old).tags.number id ≡ None }
        requires room { (indices self.old).tags.given < 2 ^ 32 }
        ensures given { IfOk result (λ number. (number ≡ (indices self.old).tags.given) × (indices self.new ≡ record (indices self.old) { tags = next_numbered id (indices self.old).tags })) }
        ensures refused { OnErr result (indices self.new ≡ indices self.old) }
    {
        self.tags.push(id)
    }

    /// The number of a tag, if it has one.
    pub fn get_tag_index(&self, id: TagId) -> Option<u32>
        ensures { result ≡ (indices self.now).tags.number id }
    {
        self.tags.get(id)
    }

    /// Gives a global the next number of its space. Asks that it has none, and that fewer than 2^32 were given.
    ///
    /// # Errors
    ///
    /// Want of memory. The map stays as it was.
    pub fn push_global(&mut self, id: GlobalId) -> Result<u32, AllocError>
        requires is_new { (indices self.old).globals.number id ≡ None }
        requires room { (indices self.old).globals.given < 2 ^ 32 }
        ensures given { IfOk result (λ number. (number ≡ (indices self.old).globals.given) × (indices self.new ≡ record (indices self.old) { globals = next_numbered id (indices self.old).globals })) }
        ensures refused { OnErr result (indices self.new ≡ indices self.old) }
    {
        self.globals.push(id)
    }

    /// The number of a global, if it has one.
    pub fn get_global_index(&self, id: GlobalId) -> Option<u32>
        ensures { result ≡ (indices self.now).globals.number id }
    {
        self.globals.get(id)
    }

    /// Gives an element segment the next number of its space. Asks that it has none, and that fewer than 2^32 were given.
    ///
    /// # Errors
    ///
    /// Want of memory. The map stays as it was.
    pub fn push_element(&mut self, id: ElementId) -> Result<u32, AllocError>
        requires is_new { (indices self.old).elements.number id ≡ None }
        requires room { (indices self.old).elements.given < 2 ^ 32 }
        ensures given { IfOk result (λ number. (number ≡ (indices self.old).elements.given) × (indices self.new ≡ record (indices self.old) { elements = next_numbered id (indices self.old).elements })) }
        ensures refused { OnErr result (indices self.new ≡ indices self.old) }
    {
        self.elements.push(id)
    }

    /// The number of an element segment, if it has one.
    pub fn get_element_index(&self, id: ElementId) -> Option<u32>
        ensures { result ≡ (indices self.now).elements.number id }
    {
        self.elements.get(id)
    }

    /// Gives a data segment this number, in place of the one that it had.
    ///
    /// # Errors
    ///
    /// Want of memory. The map stays as it was.
    pub fn set_data_index(&mut self, id: DataId, index: u32) -> Result<(), AllocError>
        ensures set { OnOk result (indices self.new ≡ record (indices self.old) { segments = numbered id index (indices self.old).segments }) }
        ensures refused { OnErr result (indices self.new ≡ indices self.old) }
    {
        self.segments.set(id, index)
    }

    /// The number of a data segment, if it has one.
    pub fn get_data_index(&self, id: DataId) -> Option<u32>
        ensures { result ≡ (indices self.now).segments.number id }
    {
        self.segments.get(id)
    }

    /// Gives a local this number in a function, in place of the one that it had there.
    ///
    /// # Errors
    ///
    /// Want of memory. The map stays as it was.
    pub fn set_local_index(
        &mut self,
        function: FunctionId,
        id: LocalId,
        index: u32,
    ) -> Result<(), AllocError>
        ensures set { OnOk result (indices self.new ≡ record (indices self.old) { locals = with_local function id index (indices self.old).locals }) }
        ensures refused { OnErr result (indices self.new ≡ indices self.old) }
    {
        self.locals.set(function, id, index)
    }

    /// The number of a local in a function, if it has one there.
    pub fn get_local_index(&self, function: FunctionId, id: LocalId) -> Option<u32>
        ensures { result ≡ (indices self.now).locals function id }
    {
        self.locals.get(function, id)
    }
}
