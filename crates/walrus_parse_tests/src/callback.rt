//! What a callback is handed of a file, and what it answers.

use crate::files::{EMPTY, NOP, RETURNS};
use crate::helpers::{Ask, has, refused};
use crate::locations::later;
use std::alloc::Global;
use walrus_config::ModuleConfig;
use walrus_counts::count;
use walrus_errors::{ModuleError, Result};
use walrus_index_maps::IndicesToIds;
use walrus_instr::InstrLocId;
use walrus_module::Module;
use walrus_parse::Parse;

// Refuses a module of another number of functions, and one with other indices than 0, 1 and on for them.
fn check(alloc: Global, module: &Module<()>, indices: &IndicesToIds, functions: u32) -> Result<()> {
    let counts = count(alloc, module)?;
    if counts.functions != u64::from(functions) || indices.get_func(functions).is_ok() {
        return Err(ModuleError::NoTree);
    }
    for index in 0..functions {
        if indices.get_func(index).is_err() {
            return Err(ModuleError::NoTree);
        }
    }
    Ok(())
}

/// What a callback does.
#[derive(Clone, Copy)]
pub(crate) enum Act {
    Nothing,
    /// It refuses a module that hasn't so many functions.
    Sees(u32),
    /// It takes the function of this index as the start.
    Starts(u32),
}

fn call(alloc: Global, module: &mut Module<()>, indices: &IndicesToIds, act: Act) -> Result<()> {
    match act {
        Act::Nothing => {}
        Act::Sees(functions) => check(alloc, module, indices, functions)?,
        Act::Starts(index) => module.start = indices.get_func(index).ok(),
    }
    Ok(())
}

/// The file, read with that callback, where each location is answered by one so many numbers later.
pub(crate) fn read_with(alloc: Global, bytes: &[u8], by: u32, act: Act) -> Result<Module<()>> {
    ModuleConfig::new().parse_with(
        alloc,
        bytes,
        |place: u32| later(place, by),
        |module: &mut Module<()>, indices: &IndicesToIds| call(alloc, module, indices, act),
    )
}

// Whether the callback sees so many functions.
fn sees(alloc: Global, bytes: &[u8], functions: u32) -> bool {
    refused(read_with(alloc, bytes, 0, Act::Sees(functions))).is_none()
}

const SEEN: [(&[u8], u32, bool); 4] = [
    (RETURNS, 2, true),
    (RETURNS, 1, false),
    (NOP, 1, true),
    (EMPTY, 0, true),
];

#[test]
fn a_callback_sees_the_module(rt: HostRuntime) {
    for (bytes, functions, wanted) in SEEN {
        assert!(rt; sees(rt.alloc(), bytes, functions) == wanted);
    }
}

// Why the module of a callback that refuses isn't answered, if it isn't.
fn refusal(alloc: Global, bytes: &[u8]) -> Option<ModuleError> {
    let read: Result<Module<()>> = ModuleConfig::new().parse_with(
        alloc,
        bytes,
        InstrLocId::new,
        |_module: &mut Module<()>, _indices: &IndicesToIds| Err(ModuleError::NoTree),
    );
    refused(read)
}

// What refuses the file comes first.
#[test]
fn its_refusal_is_answered(rt: HostRuntime) {
    assert!(rt; refusal(rt.alloc(), EMPTY) == Some(ModuleError::NoTree));
    assert!(rt; refusal(rt.alloc(), b"\0asm") == Some(ModuleError::Header { offset: 0 }));
}

// Whether a module is answered whose start function is the one that the callback gave it.
fn is_changed(alloc: Global, bytes: &[u8], index: u32) -> bool {
    has(
        alloc,
        read_with(alloc, bytes, 0, Act::Starts(index)),
        Ask::Start,
    )
}

#[test]
fn what_it_changes_is_answered(rt: HostRuntime) {
    for (index, wanted) in [(1, true), (2, false)] {
        assert!(rt; is_changed(rt.alloc(), RETURNS, index) == wanted);
    }
}
