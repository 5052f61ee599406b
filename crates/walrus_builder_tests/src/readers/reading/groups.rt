//! Steps over groups of types, over sections of them, and over types that are made.

use crate::readers::told::{Told, tell, tell_fault};
use std::alloc::{AllocError, Global};
use test_words::{Words, place};
use wasm_composite_types::FuncType;
use wasm_reader::{BinaryReader, Result};
use wasm_ref_types::PackedIndex;
use wasm_types::{FuncTypes, IntoTypes, IntoTypesAndOffsets, RecGroup, SubType, TypeSectionReader};

impl Told for (u64, SubType) {
    fn tell(&self, words: &mut Words<'_>) {
        words.tell_number(i128::from(self.0));
        self.1.tell(words);
    }
}

fn tell_places(group: RecGroup, words: &mut Words<'_>) {
    let mut types = group.into_types_and_offsets();
    types.len().tell(words);
    for _ in 0..3 {
        tell(types.next(), words);
    }
}

// How many types a group has, the first two of them with their places, what is behind them, and the same of a copy.
fn tell_places_of_both(group: RecGroup, words: &mut Words<'_>) {
    let mut again = *words;
    match group.clone() {
        Ok(copy) => tell_places(copy, &mut again),
        Err(_) => again.ask(false),
    }
    tell_places(group, words);
    words.ask(again.agree);
}

// How many types a group has, the first two, and what is behind them.
fn tell_types(group: RecGroup, words: &mut Words<'_>) {
    let mut types = group.into_types();
    types.len().tell(words);
    for _ in 0..3 {
        tell(types.next(), words);
    }
}

// Numbers indices from 10 on, below `end`.
fn renumbered(group: &mut RecGroup, end: u32) -> Result<(), u32> {
    let mut next = 10u32;
    let mut number = |index: &mut PackedIndex| -> Result<(), u32> {
        match PackedIndex::from_module_index(next) {
            Some(new) if next < end => {
                *index = new;
                next = next.wrapping_add(1);
                Ok(())
            }
            _ => Err(next),
        }
    };
    group.remap_indices(&mut number)
}

// What is answered for the group, and its types then.
fn tell_renumbered(mut group: RecGroup, words: &mut Words<'_>) {
    let end = words.size();
    match renumbered(&mut group, end) {
        Ok(()) => words.tell(b"ok"),
        Err(number) => {
            words.tell(b"refused");
            number.tell(words);
        }
    }
    tell_types(group, words);
}

// In the order of the arms below.
const GROUPS: &str = "places types renumbered";

/// Tells of a group, if the step does, and says so.
pub fn read_group(
    alloc: Global,
    reader: &mut BinaryReader<'_>,
    step: &[u8],
    words: &mut Words<'_>,
) -> bool {
    let number = place(GROUPS.as_bytes(), step);
    if number > 2 {
        return false;
    }
    match reader.read::<RecGroup>(alloc) {
        Ok(group) => match number {
            0 => tell_places_of_both(group, words),
            1 => tell_types(group, words),
            _ => tell_renumbered(group, words),
        },
        Err(_) => words.ask(false),
    }
    true
}

// The subtype of a function type that is made anew.
fn made(alloc: Global, ty: &FuncType, shared: bool) -> Result<SubType, AllocError> {
    let (params, results) = (ty.params().iter().copied(), ty.results().iter().copied());
    SubType::func(FuncType::new(alloc, params, results)?, shared)
}

fn read_made(alloc: Global, reader: &mut BinaryReader<'_>, shared: bool, words: &mut Words<'_>) {
    match reader.read::<FuncType>(alloc) {
        Ok(ty) => match made(alloc, &ty, shared) {
            Ok(sub) => sub.tell(words),
            Err(_) => words.ask(false),
        },
        Err(_) => words.ask(false),
    }
}

// How many are asked for, and what comes.
fn tell_groups(groups: &mut TypeSectionReader<'_>, words: &mut Words<'_>) {
    for _ in 0..words.size() {
        tell(groups.next(), words);
    }
}

fn tell_functions(types: &mut FuncTypes<'_>, words: &mut Words<'_>) {
    for _ in 0..words.size() {
        tell(types.next(), words);
    }
}

fn read_section(
    alloc: Global,
    reader: &BinaryReader<'_>,
    only_functions: bool,
    words: &mut Words<'_>,
) {
    match TypeSectionReader::new(alloc, reader.shrink()) {
        Ok(mut groups) => {
            if only_functions {
                tell_functions(&mut groups.into_iter_err_on_gc_types(), words);
            } else {
                tell_groups(&mut groups, words);
            }
        }
        Err(e) => tell_fault(e, words),
    }
}

// In the order of the arms below.
const MANY: &str = "made made-shared section functions";

/// Makes a type of one that it reads, or reads a section, if the step does, and says so.
pub fn read_many(
    alloc: Global,
    reader: &mut BinaryReader<'_>,
    step: &[u8],
    words: &mut Words<'_>,
) -> bool {
    match place(MANY.as_bytes(), step) {
        0 => read_made(alloc, reader, false, words),
        1 => read_made(alloc, reader, true, words),
        2 => read_section(alloc, reader, false, words),
        3 => read_section(alloc, reader, true, words),
        _ => return false,
    }
    true
}
