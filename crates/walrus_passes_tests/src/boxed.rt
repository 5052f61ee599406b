//! Files that are read into modules with boxed sections, and what these keep.

use crate::own::keep;
use std::alloc::Global;
use walrus_arena::FunctionId;
use walrus_config::ModuleConfig;
use walrus_errors::{ModuleError, Result};
use walrus_index_maps::IndicesToIds;
use walrus_instr::InstrLocId;
use walrus_module::Module;
use walrus_parse::Parse;
use walrus_passes::{Used, gc};
use walrus_roots::Item;
use wasm_formats::Space;

// Two functions, of which the second is exported; the first returns.
const FILE: &[u8] =
    b"\0asm\x01\0\0\0\x01\x04\x01\x60\0\0\x03\x03\x02\0\0\x07\x05\x01\x01f\0\x01\x0a\x08\x02\x03\0\x0f\x0b\x02\0\x0b";

/// How the first function gets a root.
#[derive(Clone, Copy)]
enum Root {
    /// not at all
    Nowhere,
    /// A box that pushes it comes in behind the file.
    Box,
    /// The callback of the call that reads puts the box in.
    Callback,
}

fn first() -> FunctionId {
    FunctionId::from_index(0)
}

// A box that pushes the function of the first index, where there are two.
fn put(alloc: Global, module: &mut Module, indices: &IndicesToIds) -> Result<()> {
    if indices.get_func(1).is_err() || indices.get_func(2).is_ok() {
        return Err(ModuleError::NoTree);
    }
    match indices.get_func(0) {
        Ok(function) => {
            keep(alloc, &mut module.customs, function)?;
            Ok(())
        }
        Err(_) => Err(ModuleError::NoTree),
    }
}

fn read(alloc: Global, root: Root) -> Result<Module> {
    match root {
        Root::Callback => ModuleConfig::new().parse_with(
            alloc,
            FILE,
            InstrLocId::new,
            |module: &mut Module, indices: &IndicesToIds| put(alloc, module, indices),
        ),
        _ => ModuleConfig::new().parse(alloc, FILE),
    }
}

// How many functions are used: the second, and the first one if a box pushes it.
fn used(alloc: Global, module: &mut Module, root: Root) -> Result<usize> {
    if matches!(root, Root::Box) {
        keep(alloc, &mut module.customs, first())?;
    }
    let used = Used::new(alloc, module)?;
    Ok(if used.funcs.contains(&first()) { 2 } else { 1 })
}

fn used_of(alloc: Global, root: Root) -> Result<usize> {
    let mut module = read(alloc, root)?;
    used(alloc, &mut module, root)
}

const ROOTS: [(Root, usize); 3] = [(Root::Nowhere, 1), (Root::Box, 2), (Root::Callback, 2)];

#[test]
fn boxes_keep_items_of_files(rt: HostRuntime) {
    for (root, wanted) in ROOTS {
        assert!(rt; used_of(rt.alloc(), root).ok() == Some(wanted));
    }
}

// Whether the first function is used, and left by a gc, where it is pushed itself.
fn is_left(alloc: Global, module: &mut Module) -> Result<bool> {
    let pushed = [Item {
        space: Space::Function,
        id: 0,
    }];
    let used = Used::from_roots(alloc, module, &pushed)?;
    gc::run_from_roots(alloc, module, &pushed)?;
    Ok(used.funcs.contains(&first()) && module.funcs.contains(first()))
}

fn is_pushed(alloc: Global) -> Result<bool> {
    let mut module = read(alloc, Root::Nowhere)?;
    is_left(alloc, &mut module)
}

#[test]
fn pushed_items_are_kept(rt: HostRuntime) {
    assert!(rt; matches!(is_pushed(rt.alloc()), Ok(true)));
}
