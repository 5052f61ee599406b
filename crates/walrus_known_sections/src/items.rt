//! The items of a file as they are read: what they name are numbers of the file.

use walrus_forms::{RefRecord, ValRecord};
use walrus_operators::Operator;
use walrus_section_values::section_reader::Space;
use walrus_section_values::{Limits, MemoryType};

/// The type of a table.
#[derive(Clone, Copy, PartialEq, Eq)]
pub struct TableType {
    /// The type of its elements.
    pub element: RefRecord,
    /// Its limits, in elements.
    pub limits: Limits,
}

/// The type of a global.
#[derive(Clone, Copy, PartialEq, Eq)]
pub struct GlobalType {
    /// The type of what it holds.
    pub ty: ValRecord,
    /// 1 where it can be written, or else 0.
    pub mutability: u8,
}

/// An import.
#[derive(Clone, Copy)]
pub struct Import<'a> {
    /// The name of its module.
    pub module: &'a str,
    /// Its own name.
    pub name: &'a str,
    /// The space of the item that it brings.
    pub space: Space,
    /// The number of that item.
    pub index: usize,
}

/// A function: the number of its type, and that of its import, where one brings it.
#[derive(Clone, Copy)]
pub struct Function {
    pub ty: u32,
    pub import: Option<usize>,
}

/// A table.
#[derive(Drop)]
pub struct Table {
    /// Its type.
    pub ty: TableType,
    /// What its elements are to begin with, where it says so.
    pub init: Option<Vec<Operator>>,
    /// The number of its import, where one brings it.
    pub import: Option<usize>,
}

/// A memory, and the number of its import, where one brings it.
#[derive(Clone, Copy)]
pub struct Memory {
    pub ty: MemoryType,
    pub import: Option<usize>,
}

/// A tag: the number of its type, and that of its import, where one brings it.
#[derive(Clone, Copy)]
pub struct Tag {
    pub ty: u32,
    pub import: Option<usize>,
}

/// An export: its name, and the space and the number of what it exports.
#[derive(Clone, Copy)]
pub struct Export<'a> {
    pub name: &'a str,
    pub space: Space,
    pub index: u32,
}

/// When a segment is copied.
#[derive(Drop)]
pub enum Mode {
    /// Where an instruction says so.
    Passive,
    /// Never: it only declares what it holds.
    Declared,
    /// At instantiation, into the table or memory of this number, at this offset.
    Active(u32, Vec<Operator>),
}

/// What an element segment holds.
#[derive(Drop)]
pub enum ElementItems {
    /// References to the functions of these numbers.
    Functions(Vec<u32>),
    /// What these expressions give, of this type.
    Expressions(RefRecord, Vec<Vec<Operator>>),
}

/// An element segment.
#[derive(Drop)]
pub struct Element {
    pub mode: Mode,
    pub items: ElementItems,
}

/// A data segment.
#[derive(Drop)]
pub struct Data<'a> {
    pub mode: Mode,
    pub bytes: &'a [u8],
}

/// A custom section.
#[derive(Clone, Copy)]
pub struct Custom<'a> {
    pub name: &'a str,
    pub bytes: &'a [u8],
}

/// The bytes of a body, and their place from the function count of the code section on.
#[derive(Clone, Copy)]
pub struct Chunk<'a> {
    pub place: u64,
    pub bytes: &'a [u8],
}
