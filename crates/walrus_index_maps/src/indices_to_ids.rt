//! What each index of a file names.
ghost use Rattle.std.specs.Prelude.{◌≡◌, ◌<◌, ◌^◌, [], ◌∷◌, ◌++◌, length, slice_get, slice_set, IfOk, OnOk, OnErr, MatchResult};
ghost use Rattle.std.specs.Option.{ok_or};
ghost use Rattle.walrus_index_maps.specs.Maps.{no_ids, with_first, with_last, with_skipped};
ghost use Rattle.walrus_index_maps.specs.Views.{ids};
ghost use Rattle.walrus_index_maps.specs.declared.space.Space.TheVariants as spaces;

use crate::id_list::IdList;
use crate::local_list::LocalList;
use crate::space::Space;
use std::alloc::{AllocError, Global};
use thiserror::Error;
use walrus_arena::{
    DataId, DataSpace, ElementId, ElementSpace, FunctionId, FunctionSpace, GlobalId, GlobalSpace,
    LocalId, MemoryId, MemorySpace, TableId, TableSpace, TagId, TagSpace, TypeId,
};

/// An index that names nothing.
#[derive(Clone, Copy, Debug, PartialEq, Eq, Error)]
#[error("index of a {0} is out of range")]
pub struct UnknownIndex(pub Space);

/// The ids that indices name, a list a space, and a list a function for its locals: the first index of each is 0.
#[derive(Drop)]
pub struct IndicesToIds {
    alloc: Global,
    types: Vec<TypeId>,
    funcs: IdList<FunctionSpace>,
    tables: IdList<TableSpace>,
    memories: IdList<MemorySpace>,
    tags: IdList<TagSpace>,
    globals: IdList<GlobalSpace>,
    elements: IdList<ElementSpace>,
    segments: IdList<DataSpace>,
    // By the function's number.
    locals: Vec<LocalList>,
    all_locals: bool,
}

impl IndicesToIds {
    /// No index names anything. Takes no memory.
    pub fn new(alloc: Global) -> Self
        ensures { ids result ≡ no_ids }
    {
        IndicesToIds {
            alloc,
            types: Vec::new(alloc),
            funcs: IdList::new(alloc),
            tables: IdList::new(alloc),
            memories: IdList::new(alloc),
            tags: IdList::new(alloc),
            globals: IdList::new(alloc),
            elements: IdList::new(alloc),
            segments: IdList::new(alloc),
            locals: Vec::new(alloc),
            all_locals: false,
        }
    }

    /// The next index of a type names this one. Gives the index.
    ///
    /// # Errors
    ///
    /// Want of memory. The map stays as it was.
    pub fn push_type(&mut self, id: TypeId) -> Result<u32, AllocError>
        ensures { MatchResult result (λ index. (index ≡ length (ids self.old).types) × (ids self.new ≡ record (ids self.old) { types = (ids self.old).types ++ id ∷ [] })) (λ _. ids self.new ≡ ids self.old) }
    {
        // A list of 2^32 ids can't hold another.
        let index = self.types.len();
        if index > u32::MAX as usize {
            return Err(AllocError);
        }
        self.types.push(id)?;
        Ok(index as u32)
    }

    /// The type that an index names.
    ///
    /// # Errors
    ///
    /// It names none.
    pub fn get_type(&self, index: u32) -> Result<TypeId, UnknownIndex>
        ensures { result ≡ ok_or (slice_get (ids self.now).types index) (record { 0 = spaces.«Type» }) }
    {
        self.types
            .get(index as usize)
            .copied()
            .ok_or(UnknownIndex(Space::Type))
    }

    /// The next index of a function names this one. Gives the index.
    ///
    /// # Errors
    ///
    /// Want of memory. The map stays as it was.
    pub fn push_func(&mut self, id: FunctionId) -> Result<u32, AllocError>
        ensures { MatchResult result (λ index. (index ≡ length (ids self.old).functions) × (ids self.new ≡ record (ids self.old) { functions = (ids self.old).functions ++ id ∷ [] })) (λ _. ids self.new ≡ ids self.old) }
    {
        self.funcs.push(id)
    }

    /// The function that an index names.
    ///
    /// # Errors
    ///
    /// It names none.
    pub fn get_func(&self, index: u32) -> Result<FunctionId, UnknownIndex>
        ensures { result ≡ ok_or (slice_get (ids self.now).functions index) (record { 0 = spaces.Function }) }
    {
        self.funcs.get(index).ok_or(UnknownIndex(Space::Function))
    }

    /// The next index of a table names this one. Gives the index.
    ///
    /// # Errors
    ///
    /// Want of memory. The map stays as it was.
    pub fn push_table(&mut self, id: TableId) -> Result<u32, AllocError>
        ensures { MatchResult result (λ index. (index ≡ length (ids self.old).tables) × (ids self.new ≡ record (ids self.old) { tables = (ids self.old).tables ++ id ∷ [] })) (λ _. ids self.new ≡ ids self.old) }
    {
        self.tables.push(id)
    }

    /// The table that an index names.
    ///
    /// # Errors
    ///
    /// It names none.
    pub fn get_table(&self, index: u32) -> Result<TableId, UnknownIndex>
        ensures { result ≡ ok_or (slice_get (ids self.now).tables index) (record { 0 = spaces.Table }) }
    {
        self.tables.get(index).ok_or(UnknownIndex(Space::Table))
    }

    /// The next index of a memory names this one. Gives the index.
    ///
    /// # Errors
    ///
    /// Want of memory. The map stays as it was.
    pub fn push_memory(&mut self, id: MemoryId) -> Result<u32, AllocError>
        ensures { MatchResult result (λ index. (index ≡ length (ids self.old).memories) × (ids self.new ≡ record (ids self.old) { memories = (ids self.old).memories ++ id ∷ [] })) (λ _. ids self.new ≡ ids self.old) }
    {
        self.memories.push(id)
    }

    /// The memory that an index names.
    ///
    /// # Errors
    ///
    /// It names none.
    pub fn get_memory(&self, index: u32) -> Result<MemoryId, UnknownIndex>
        ensures { result ≡ ok_or (slice_get (ids self.now).memories index) (record { 0 = spaces.Memory }) }
    {
        self.memories.get(index).ok_or(UnknownIndex(Space::Memory))
    }

    /// The next index of a tag names this one. Gives the index.
    ///
    /// # Errors
    ///
    /// Want of memory. The map stays as it was.
    pub fn push_tag(&mut self, id: TagId) -> Result<u32, AllocError>
        ensures { MatchResult result (λ index. (index ≡ length (ids self.old).tags) × (ids self.new ≡ record (ids self.old) { tags = (ids self.old).tags ++ id ∷ [] })) (λ _. ids self.new ≡ ids self.old) }
    {
        self.tags.push(id)
    }

    /// The tag that an index names.
    ///
    /// # Errors
    ///
    /// It names none.
    pub fn get_tag(&self, index: u32) -> Result<TagId, UnknownIndex>
        ensures { result ≡ ok_or (slice_get (ids self.now).tags index) (record { 0 = spaces.Tag }) }
    {
        self.tags.get(index).ok_or(UnknownIndex(Space::Tag))
    }

    /// The next index of a global names this one. Gives the index.
    ///
    /// # Errors
    ///
    /// Want of memory. The map stays as it was.
    pub fn push_global(&mut self, id: GlobalId) -> Result<u32, AllocError>
        ensures { MatchResult result (λ index. (index ≡ length (ids self.old).globals) × (ids self.new ≡ record (ids self.old) { globals = (ids self.old).globals ++ id ∷ [] })) (λ _. ids self.new ≡ ids self.old) }
    {
        self.globals.push(id)
    }

    /// The global that an index names.
    ///
    /// # Errors
    ///
    /// It names none.
    pub fn get_global(&self, index: u32) -> Result<GlobalId, UnknownIndex>
        ensures { result ≡ ok_or (slice_get (ids self.now).globals index) (record { 0 = spaces.Global }) }
    {
        self.globals.get(index).ok_or(UnknownIndex(Space::Global))
    }

    /// The next index of a element segment names this one. Gives the index.
    ///
    /// # Errors
    ///
    /// Want of memory. The map stays as it was.
    pub fn push_element(&mut self, id: ElementId) -> Result<u32, AllocError>
        ensures { MatchResult result (λ index. (index ≡ length (ids self.old).elements) × (ids self.new ≡ record (ids self.old) { elements = (ids self.old).elements ++ id ∷ [] })) (λ _. ids self.new ≡ ids self.old) }
    {
        self.elements.push(id)
    }

    /// The element segment that an index names.
    ///
    /// # Errors
    ///
    /// It names none.
    pub fn get_element(&self, index: u32) -> Result<ElementId, UnknownIndex>
        ensures { result ≡ ok_or (slice_get (ids self.now).elements index) (record { 0 = spaces.Element }) }
    {
        self.elements.get(index).ok_or(UnknownIndex(Space::Element))
    }

    /// The next index of a data segment names this one. Gives the index.
    ///
    /// # Errors
    ///
    /// Want of memory. The map stays as it was.
    pub fn push_data(&mut self, id: DataId) -> Result<u32, AllocError>
        ensures { MatchResult result (λ index. (index ≡ length (ids self.old).segments) × (ids self.new ≡ record (ids self.old) { segments = (ids self.old).segments ++ id ∷ [] })) (λ _. ids self.new ≡ ids self.old) }
    {
        self.segments.push(id)
    }

    /// The data segment that an index names.
    ///
    /// # Errors
    ///
    /// It names none.
    pub fn get_data(&self, index: u32) -> Result<DataId, UnknownIndex>
        ensures { result ≡ ok_or (slice_get (ids self.now).segments index) (record { 0 = spaces.Data }) }
    {
        self.segments.get(index).ok_or(UnknownIndex(Space::Data))
    }

    /// The index names this type from now on, if it named one.
    pub fn remap_type(&mut self, index: u32, id: TypeId)
        ensures { ids self.new ≡ record (ids self.old) { types = slice_set (ids self.old).types index id } }
    {
        let at = index as usize;
        if at < self.types.len() {
            self.types[at] = id;
        }
    }

    /// The next index of a local of the function names this one. Gives the index.
    ///
    /// # Errors
    ///
    /// Want of memory. The map stays as it was.
    pub fn push_local(&mut self, function: FunctionId, id: LocalId) -> Result<u32, AllocError>
        ensures pushed { IfOk result (λ index. (index ≡ length ((ids self.old).locals function)) × (ids self.new ≡ record (ids self.old) { locals = with_last function id (ids self.old).locals })) }
        ensures refused { OnErr result (ids self.new ≡ ids self.old) }
    {
        let at = function.number() as usize;
        self.reach_function(at)?;
        let index = self.locals[at].push(id)?;
        Ok(index)
    }

    /// The next so many indices of locals of the function name none.
    ///
    /// # Errors
    ///
    /// Want of memory. The map stays as it was.
    pub fn skip_locals(&mut self, function: FunctionId, more: usize) -> Result<(), AllocError>
        ensures skipped { OnOk result (ids self.new ≡ record (ids self.old) { locals = with_skipped function more (ids self.old).locals }) }
        ensures refused { OnErr result (ids self.new ≡ ids self.old) }
    {
        let at = function.number() as usize;
        self.reach_function(at)?;
        self.locals[at].skip(more)?;
        Ok(())
    }

    // Has a list for the function of this number.
    fn reach_function(&mut self, at: usize) -> Result<(), AllocError>
        requires { at < 2 ^ 32 }
        ensures place { OnOk result (at < length self.new.locals.items) }
        ensures same { ids self.new ≡ ids self.old }
    {
        while self.locals.len() <= at {
            self.locals.push(LocalList::new(self.alloc))?;
        }
        Ok(())
    }

    /// The local that an index of the function names: where a body declares one that nothing names, the id 4294967295, which no local has.
    ///
    /// # Errors
    ///
    /// There is no such index.
    pub fn get_local(&self, function: FunctionId, index: u32) -> Result<LocalId, UnknownIndex>
        ensures { result ≡ ok_or (slice_get ((ids self.now).locals function) index) (record { 0 = spaces.Local }) }
    {
        match self.locals.get(function.index()) {
            Some(locals) => locals.get(index).ok_or(UnknownIndex(Space::Local)),
            None => Err(UnknownIndex(Space::Local)),
        }
    }

    /// How many indices of locals a function has.
    pub fn local_count(&self, function: FunctionId) -> usize
        ensures { result ≡ length ((ids self.now).locals function) }
    {
        match self.locals.get(function.index()) {
            Some(locals) => locals.len(),
            None => 0,
        }
    }

    /// Says whether each local that a body declares gets an id, also one that nothing names.
    pub fn want_all_locals(&mut self, wanted: bool)
        ensures { ids self.new ≡ record (ids self.old) { all_locals = wanted } }
    {
        self.all_locals = wanted;
    }

    /// Whether each local that a body declares gets an id, also one that nothing names.
    pub fn wants_all_locals(&self) -> bool
        ensures { result ≡ (ids self.now).all_locals }
    {
        self.all_locals
    }

    /// The first so many indices of locals name what they named in the function, and no other names anything. Takes no memory.
    pub fn keep_locals(&mut self, function: FunctionId, count: usize)
        ensures { ids self.new ≡ record (ids self.old) { locals = with_first function count (ids self.old).locals } }
    {
        let at = function.number() as usize;
        if at < self.locals.len() {
            self.locals[at].truncate(count);
        }
    }
}
