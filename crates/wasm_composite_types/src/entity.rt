//! The types of tables, memories, globals and tags (Core Specification, types: external types).

ghost use Rattle.std.specs.Prelude.{◌≡◌, ◌<◌, ◌^◌};
ghost use Rattle.wasm_composite_types.specs.Entities.{address_type, log_of};

use wasm_ref_types::{RefType, ValType};

/// The type of a table.
#[derive(Clone, Copy, PartialEq, Eq, Hash)]
pub struct TableType {
    /// What its elements are.
    pub element_type: RefType,
    /// Whether it is indexed by integers of 64 bits.
    pub table64: bool,
    /// How many elements it has at first.
    pub initial: u64,
    /// How many elements it may grow to.
    pub maximum: Option<u64>,
    /// Whether it may be shared between threads.
    pub shared: bool,
}

impl TableType {
    /// The type of its indices: i64 or i32.
    pub fn index_type(&self) -> ValType
        ensures { result ≡ address_type self.now.table64 }
    {
        address_type(self.table64)
    }
}

/// The type of a memory.
#[derive(Clone, Copy, PartialEq, Eq, Hash)]
pub struct MemoryType {
    /// Whether it is addressed by integers of 64 bits.
    pub memory64: bool,
    /// Whether it may be shared between threads.
    pub shared: bool,
    /// How many pages it has at first.
    pub initial: u64,
    /// How many pages it may grow to.
    pub maximum: Option<u64>,
    /// The binary logarithm of the bytes of a page, where it is given.
    pub page_size_log2: Option<u32>,
}

impl MemoryType {
    /// The type of its addresses: i64 or i32.
    pub fn index_type(&self) -> ValType
        ensures { result ≡ address_type self.now.memory64 }
    {
        address_type(self.memory64)
    }

    /// The binary logarithm of the bytes of a page: 16 where none is given.
    pub fn page_size_log2(&self) -> u32
        ensures { result ≡ log_of self.now.page_size_log2 }
    {
        self.page_size_log2.unwrap_or(16)
    }

    /// The bytes of a page. Asks that their logarithm is below 32.
    pub fn page_size(&self) -> u32
        requires { log_of self.now.page_size_log2 < 32 }
        ensures { result ≡ 2 ^ log_of self.now.page_size_log2 }
    {
        1 << self.page_size_log2()
    }
}

fn address_type(is_64: bool) -> ValType
    ensures { result ≡ address_type is_64 }
{
    if is_64 { ValType::I64 } else { ValType::I32 }
}

/// The type of a global.
#[derive(Clone, Copy, PartialEq, Eq, Hash)]
pub struct GlobalType {
    /// What it holds.
    pub content_type: ValType,
    /// Whether it can be written.
    pub mutable: bool,
    /// Whether it may be shared between threads.
    pub shared: bool,
}

/// What a tag is for.
#[derive(Clone, Copy, PartialEq, Eq, Hash)]
pub enum TagKind {
    /// Exceptions.
    Exception,
}

/// The type of a tag.
#[derive(Clone, Copy, PartialEq, Eq, Hash)]
pub struct TagType {
    /// What it is for.
    pub kind: TagKind,
    /// The index of the type of functions whose parameters it carries.
    pub func_type_idx: u32,
}
