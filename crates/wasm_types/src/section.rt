//! The type section, group by group (Core Specification, binary format, modules: type section).

ghost use Rattle.std.specs.Prelude.{◌≡◌, ℕ, ◌-◌, ◌≤◌, IfOk, IfErr, Ok, Err, Some};
ghost use Rattle.std.specs.Iterator.{at_most};
ghost use Rattle.wasm_reader.specs.Cursor.{rest, end_of};
ghost use Rattle.wasm_reader.specs.Reading.{Reads, plain, fault};
ghost use Rattle.wasm_reader.specs.Numbers.{unsigned_at};
ghost use Rattle.wasm_types.specs.Section.{GivesGroup, ending, gc_fault, GivesFunction, most_left, function_or, plain_function};

use crate::group::RecGroup;
use std::alloc::Global;
use std::marker::Model;
use wasm_composite_types::FuncType;
use wasm_features::WasmFeatures;
use wasm_reader::{BinaryReader, Error, ErrorKind, FromReader, Result};

/// Reads the groups of a type section, and gives nothing more behind a fault.
#[derive(Drop)]
pub struct TypeSectionReader<'a> {
    reader: BinaryReader<'a>,
    alloc: Global,
    // `None` once the section has ended or a fault was given.
    remaining: Option<u32>,
}

impl<'a> Model for TypeSectionReader<'a> {
    ghost use Rattle.wasm_types.specs.Section.{Section};

    ghost Value = { Section };

    ghost view = { λ section. record { cursor = section.reader; remaining = section.remaining } };
}

impl<'a> TypeSectionReader<'a> {
    /// Reads the number of groups. The groups take memory of `alloc`.
    ///
    /// # Errors
    ///
    /// Those of the number.
    pub fn new(alloc: Global, mut reader: BinaryReader<'a>) -> Result<Self>
        ensures count { IfOk result (λ section. (n : ℕ) × (section.remaining ≡ Some n) × Reads (unsigned_at 32) plain reader.entry section.cursor (Ok n)) }
        ensures refused { IfErr result (λ e. (unsigned_at 32 (rest reader.entry) ≡ Err (fault e.kind (end_of reader.entry - e.offset))) × (e.offset ≤ end_of reader.entry)) }
    {
        let count = reader.read_var_u32()?;
        Ok(TypeSectionReader {
            reader,
            alloc,
            remaining: Some(count),
        })
    }

    // The fault of the bytes that are left, if some are.
    fn trailing(&self) -> Option<Result<RecGroup>>
        ensures { result ≡ ending self.now.cursor (rest self.now.cursor) }
    {
        if self.reader.eof() {
            return None;
        }
        let offset = self.reader.original_position();
        Some(Err(Error::new(ErrorKind::Trailing, offset)))
    }

    /// The function types of a section of one-type groups, each of a final function without supertype. For any other
    /// group `Feature` is given, at the group's first byte.
    pub fn into_iter_err_on_gc_types(self) -> FuncTypes<'a>
        ensures { result ≡ self.entry }
    {
        FuncTypes { groups: self }
    }
}

impl<'a> Iterator for TypeSectionReader<'a> {
    type Item = Result<RecGroup>;

    ghost next_gives = { GivesGroup };

    ghost remaining = { λ section. at_most (most_left section.remaining) };

    /// The next group, or the fault of its bytes or of memory. Behind the last group `Trailing`, where bytes are left.
    fn next(&mut self) -> Option<Result<RecGroup>> {
        let remaining = self.remaining?;
        self.remaining = None;
        if remaining == 0 {
            return self.trailing();
        }
        let group = RecGroup::from_reader(self.alloc, &mut self.reader);
        if group.is_ok() {
            self.remaining = Some(remaining - 1);
        }
        Some(group)
    }
}

/// The function types of a section, where forms of garbage collection are refused.
#[derive(Drop)]
pub struct FuncTypes<'a> {
    groups: TypeSectionReader<'a>,
}

impl<'a> Model for FuncTypes<'a> {
    ghost use Rattle.wasm_types.specs.Section.{Section};

    ghost Value = { Section };

    ghost view = { λ it. it.groups };
}

impl<'a> Iterator for FuncTypes<'a> {
    type Item = Result<FuncType>;

    ghost next_gives = { GivesFunction };

    ghost remaining = { λ section. at_most (most_left section.remaining) };

    fn next(&mut self) -> Option<Result<FuncType>> {
        let offset = self.groups.reader.original_position();
        match self.groups.next()? {
            Ok(group) => Some(into_function(group, offset)),
            Err(e) => Some(Err(e)),
        }
    }
}

fn into_function(group: RecGroup, offset: u64) -> Result<FuncType>
    ensures { result ≡ function_or offset (plain_function group.types) }
{
    let mut types = group.into_types();
    if types.len() != 1 {
        return Err(gc_fault(offset));
    }
    match types.next() {
        Some(ty) => ty.into_function().ok_or(gc_fault(offset)),
        None => Err(gc_fault(offset)),
    }
}

fn gc_fault(offset: u64) -> Error
    ensures { result ≡ gc_fault offset }
{
    Error::new(ErrorKind::Feature(WasmFeatures::GC_TYPES), offset)
}
