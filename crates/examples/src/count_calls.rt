//! Adds a counter to each function of a module: a mutable global, exported as `calls_NAME`, that goes up by one at each call.

use program_parts::{Failure, read_file, write_file};
use std::alloc::{AllocError, Global};
use walrus::ir::{
    BinaryOp, ConstExpr, FunctionId, GlobalId, Instr, InstrSeqBuilder, ValType, Value,
};
use walrus::passes::Item;
use walrus::{
    ByName, EmitWasm, FromBuffer, FunctionKind, Labels, Module, ModuleExports, ModuleFunctions,
    ModuleGlobals, Result, Space,
};

const USAGE: &str = "examples count_calls IN OUT";

// The functions with a body.
fn local_functions(alloc: Global, funcs: &ModuleFunctions) -> Result<Vec<FunctionId>, AllocError> {
    let mut ids = Vec::new(alloc);
    for (id, _) in funcs.iter_local() {
        ids.push(id)?;
    }
    Ok(ids)
}

// `calls_` and the label, or, where an export has that name, the number too.
fn free_name(
    alloc: Global,
    exports: &ModuleExports,
    label: &str,
    number: u32,
) -> Result<String, AllocError> {
    let name = format!(in alloc; "calls_{label}")?;
    if exports.by_name(name.as_str()).is_none() {
        return Ok(name);
    }
    format!(in alloc; "calls_{label}#{number}")
}

// A name for the counter of a function, which no export has.
fn counter_name(alloc: Global, module: &Module, id: FunctionId) -> Result<String, AllocError> {
    let label = module.label(alloc, Item::new(Space::Function, id))?;
    free_name(alloc, &module.exports, label.as_str(), id.number())
}

// Adds a counter.
fn add_counter(globals: &mut ModuleGlobals) -> Result<GlobalId, AllocError> {
    let zero = ConstExpr::Value(Value::I64(0));
    globals.add_local(ValType::I64, true, false, zero)
}

// Puts `counter = counter + 1` in front of a body: what is put in last stands first.
fn count_first(body: &mut InstrSeqBuilder, counter: GlobalId) -> Result<(), AllocError> {
    let value = Value::I64(1);
    let op = BinaryOp::I64Add;
    body.instr_at(0, Instr::GlobalSet { global: counter })?;
    body.instr_at(0, Instr::Binop { op })?;
    body.instr_at(0, Instr::Const { value })?;
    body.instr_at(0, Instr::GlobalGet { global: counter })
}

// Counts at the entry of a function with a body.
fn count_in(kind: &mut FunctionKind, counter: GlobalId) -> Result<(), AllocError> {
    match kind {
        FunctionKind::Local(local) => count_first(local.builder_mut().func_body(), counter),
        FunctionKind::Import(_) => Ok(()),
        FunctionKind::Uninitialized(_) => Ok(()),
    }
}

// Counts at the entry of a live function.
fn count_at_entry(
    funcs: &mut ModuleFunctions,
    id: FunctionId,
    counter: GlobalId,
) -> Result<(), AllocError> {
    if funcs.contains(id) {
        return count_in(&mut funcs.get_mut(id).kind, counter);
    }
    Ok(())
}

// Gives a function its counter.
fn count_function(alloc: Global, module: &mut Module, id: FunctionId) -> Result<(), AllocError> {
    let name = counter_name(alloc, &*module, id)?;
    let counter = add_counter(&mut module.globals)?;
    module.exports.add(name.as_str(), counter)?;
    count_at_entry(&mut module.funcs, id, counter)
}

// Gives each function its counter.
fn count_functions(alloc: Global, module: &mut Module) -> Result<(), AllocError> {
    let ids = local_functions(alloc, &module.funcs)?;
    for id in ids.as_slice() {
        count_function(alloc, module, *id)?;
    }
    Ok(())
}

// The bytes of a module with counters.
fn counted(alloc: Global, bytes: &[u8]) -> Result<Vec<u8>> {
    let mut module: Module = Module::from_buffer(alloc, bytes)?;
    count_functions(alloc, &mut module)?;
    module.emit_wasm(alloc)
}

/// Does what the words say.
pub fn run(rt: &HostRuntime, words: &[String]) -> std::result::Result<(), Failure> {
    let [from, to] = words else {
        return Err(Failure::Words(USAGE));
    };
    let bytes = read_file(rt, from.as_str())?;
    let written = counted(rt.alloc(), bytes.as_slice())?;
    write_file(rt, to.as_str(), written.as_slice())
}
