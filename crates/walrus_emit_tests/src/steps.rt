//! Modules that are read, and then changed and written step by step.
use crate::added::{
    add_each, add_exact, add_imported, add_imported_table, add_named, add_parameters, add_shared,
    add_shared_tables, add_tables,
};
use crate::edits::{Edit, Item, delete, edit_body, uninitialize};
use crate::own::{Own, add_own};
use std::alloc::Global;
use walrus_arena::FunctionId;
use walrus_config::ModuleConfig;
use walrus_emit::EmitWasm;
use walrus_errors::{Form, ModuleError, Result};
use walrus_parse::FromBuffer;
use walrus_passes::gc;
use walrus_passes::module::Module;

/// A step by which a module is changed or written. Numbers are those of ids.
#[derive(Clone, Copy)]
pub(crate) enum Step {
    Edit(usize, Edit),
    /// The function of this number has no body any more.
    Uninitialize(usize),
    Delete(usize, Item),
    /// An import that says that it brings the function of this number.
    ImportOf(usize),
    Imported,
    /// An imported table that is exported, and in whose field for an initialiser stands the function of this number.
    ImportedTable(usize),
    Shared,
    /// Tables of shared references.
    SharedTables,
    Exact,
    Tables(usize),
    Parameters(usize),
    Named(usize),
    /// The function of this number starts.
    Start(usize),
    /// An import and an item in each space.
    Each,
    /// A section `x` that is added and removed.
    Raw,
    Own(Own),
    /// So many segments of elements were ever there.
    Segments(usize),
    /// What the passes answer: nothing where all is well.
    Gc(Option<ModuleError>),
    /// Why it isn't written.
    Refused(ModuleError),
    /// Which form it can't be written with.
    Unsupported(Form),
    /// What is written.
    Writes(&'static [u8]),
    /// It is written.
    Written,
}

fn add(alloc: Global, module: &mut Module, step: Step) -> Result<()> {
    match step {
        Step::Imported => add_imported(module)?,
        Step::ImportedTable(number) => add_imported_table(module, number)?,
        Step::Shared => add_shared(module)?,
        Step::SharedTables => add_shared_tables(module)?,
        Step::Exact => add_exact(module)?,
        Step::Tables(count) => add_tables(module, count)?,
        Step::Parameters(count) => add_parameters(alloc, module, count)?,
        Step::Named(count) => add_named(alloc, module, count)?,
        Step::Each => add_each(alloc, module)?,
        Step::Own(own) => add_own(alloc, module, own)?,
        Step::ImportOf(number) => {
            let id = FunctionId::from_index(number & 0xff);
            module.imports.add("mod", "dummy", id)?;
        }
        Step::Raw => {
            module.customs.add_raw("x", &[0x2a])?;
            let _ = module.customs.remove_raw("x");
        }
        _ => {}
    }
    Ok(())
}

// What was written, or why it wasn't, is what it is to be.
fn is_so(written: Result<Vec<u8>>, step: Step) -> bool {
    match (written, step) {
        (Ok(_), Step::Written) => true,
        (Ok(bytes), Step::Writes(wanted)) => bytes.as_slice() == wanted,
        (Err(error), Step::Refused(wanted)) => error == wanted,
        (Err(ModuleError::Unsupported { form, .. }), Step::Unsupported(wanted)) => form == wanted,
        _ => false,
    }
}

// Takes a step; whether what it asks holds.
fn take(alloc: Global, module: &mut Module, step: Step) -> Result<bool> {
    match step {
        Step::Edit(number, how) => edit_body(module, number, how)?,
        Step::Uninitialize(number) => uninitialize(module, number),
        Step::Delete(number, item) => delete(module, number, item),
        Step::Start(number) => module.start = Some(FunctionId::from_index(number & 0xff)),
        Step::Segments(count) => return Ok(module.elements.next_id().index() == count),
        Step::Gc(wanted) => return Ok(gc::run(alloc, module).err() == wanted),
        Step::Written | Step::Writes(_) | Step::Refused(_) | Step::Unsupported(_) => {
            return Ok(is_so(module.emit_wasm(alloc), step));
        }
        _ => add(alloc, module, step)?,
    }
    Ok(true)
}

// The number of the first step that doesn't hold, or how many there are.
fn taken(alloc: Global, module: &mut Module, steps: &[Step]) -> Result<usize> {
    let mut count: usize = 0;
    for step in steps {
        if !take(alloc, module, *step)? {
            break;
        }
        count = count.saturating_add(1);
    }
    Ok(count)
}

/// The file, read without names and producers.
pub(crate) fn read(alloc: Global, file: &[u8], keeps_places: bool) -> Result<Module> {
    let mut config = ModuleConfig::new();
    config.generate_name_section = false;
    config.generate_producers_section = false;
    config.preserve_code_transform = keeps_places;
    Module::from_buffer_with_config(alloc, file, &config)
}

/// How many of these steps hold, one after the other.
pub(crate) fn steps_taken(
    alloc: Global,
    file: &[u8],
    keeps_places: bool,
    steps: &[Step],
) -> Result<usize> {
    let mut module = read(alloc, file, keeps_places)?;
    taken(alloc, &mut module, steps)
}
