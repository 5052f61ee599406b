//! Replaces functions of a module by ones that trap at once, and drops what is then not needed.

use crate::functions::find;
use program_parts::{Failure, read_file, write_file};
use std::alloc::{AllocError, Global};
use std::io;
use walrus::ir::{FunctionId, InstrSeqBuilder};
use walrus::passes::gc;
use walrus::{EmitWasm, FromBuffer, FunctionKind, Module, ModuleFunctions, Result};

const USAGE: &str = "examples snip IN OUT FUNCTION..  (a name, the name of an export, or #N)";

// A module that was changed: its functions before and now, and its bytes.
#[derive(Drop)]
struct Snipped {
    before: usize,
    after: usize,
    bytes: Vec<u8>,
}

// A body becomes `unreachable`.
fn trap_at_once(body: &mut InstrSeqBuilder) -> Result<(), AllocError> {
    body.instrs_mut().clear();
    body.unreachable()
}

// A function with a body traps.
fn trap_in(kind: &mut FunctionKind) -> Result<(), AllocError> {
    match kind {
        FunctionKind::Local(local) => trap_at_once(local.builder_mut().func_body()),
        FunctionKind::Import(_) => Ok(()),
        FunctionKind::Uninitialized(_) => Ok(()),
    }
}

// A live function with a body traps.
fn trap(funcs: &mut ModuleFunctions, id: FunctionId) -> Result<(), AllocError> {
    if funcs.contains(id) {
        return trap_in(&mut funcs.get_mut(id).kind);
    }
    Ok(())
}

// Whether an import brings the function.
fn is_imported(funcs: &ModuleFunctions, id: FunctionId) -> bool {
    funcs.contains(id) && matches!(funcs.get(id).kind, FunctionKind::Import(_))
}

// Gives an imported function a body that traps: its import is gone then.
fn replace(module: &mut Module, id: FunctionId) -> Result<()> {
    if module.has_live_type(id) {
        module.replace_imported_func(id, |body, _args| body.unreachable())?;
    }
    Ok(())
}

// Lets a function trap.
fn snip(module: &mut Module, id: FunctionId) -> Result<()> {
    if is_imported(&module.funcs, id) {
        return replace(module, id);
    }
    trap(&mut module.funcs, id)?;
    Ok(())
}

// Lets the function that a word names trap.
fn snip_named(module: &mut Module, word: &String) -> std::result::Result<(), Failure> {
    let Some(id) = find(&*module, word.as_str()) else {
        return Err(Failure::Unknown(word.clone()?));
    };
    snip(module, id)?;
    Ok(())
}

// Lets the functions that the words name trap.
fn snip_all(module: &mut Module, words: &[String]) -> std::result::Result<(), Failure> {
    for word in words {
        snip_named(module, word)?;
    }
    Ok(())
}

// How many functions live.
fn function_count(funcs: &ModuleFunctions) -> usize {
    let mut count: usize = 0;
    for _ in funcs.iter() {
        count = count.saturating_add(1);
    }
    count
}

// What comes of a module.
fn snip_module(
    alloc: Global,
    module: &mut Module,
    words: &[String],
) -> std::result::Result<Snipped, Failure> {
    let before = function_count(&module.funcs);
    snip_all(module, words)?;
    gc::run(alloc, module)?;
    let after = function_count(&module.funcs);
    let bytes = module.emit_wasm(alloc)?;
    Ok(Snipped {
        before,
        after,
        bytes,
    })
}

// What comes of the module that these bytes spell.
fn snip_bytes(
    alloc: Global,
    bytes: &[u8],
    words: &[String],
) -> std::result::Result<Snipped, Failure> {
    let mut module: Module = Module::from_buffer(alloc, bytes)?;
    snip_module(alloc, &mut module, words)
}

fn tell(rt: &HostRuntime, read: usize, snipped: &Snipped) -> io::Result<()> {
    println!(rt;
        "functions: {}, now {}; bytes: {read}, now {}",
        snipped.before,
        snipped.after,
        snipped.bytes.len()
    )
}

/// Does what the words say.
pub fn run(rt: &HostRuntime, words: &[String]) -> std::result::Result<(), Failure> {
    let [from, to, functions @ ..] = words else {
        return Err(Failure::Words(USAGE));
    };
    let bytes = read_file(rt, from.as_str())?;
    let snipped = snip_bytes(rt.alloc(), bytes.as_slice(), functions)?;
    write_file(rt, to.as_str(), snipped.bytes.as_slice())?;
    tell(rt, bytes.len(), &snipped)?;
    Ok(())
}
