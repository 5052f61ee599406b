//! Tells why an item of a module is kept: a shortest chain of references from a root to it. The first memory, which `gc::run` spares where data
//! is kept and no memory is, has none.

use crate::functions::find;
use crate::reached::{MOST, Reached, reach};
use program_parts::{Failure, read_file};
use std::alloc::{AllocError, Global};
use std::io;
use walrus::ir::ExportId;
use walrus::passes::{Item, Reason};
use walrus::{FromBuffer, Labels, Module, ModuleExports, Result, Space};

const USAGE: &str =
    "examples why IN FUNCTION, or IN table|memory|global|tag|element|data|type NUMBER";

// What is said of what an export gives out.
fn export_text(alloc: Global, exports: &ModuleExports, id: ExportId) -> Result<String, AllocError> {
    if !exports.contains(id) {
        return String::from_str(alloc, "export");
    }
    let name = exports.get(id).name.as_str();
    format!(in alloc; "export {name}")
}

// What is said of a root.
fn reason_text(alloc: Global, exports: &ModuleExports, why: Reason) -> Result<String, AllocError> {
    let text = match why {
        Reason::Exported(id) => return export_text(alloc, exports, id),
        Reason::Starts => "start",
        Reason::IsCopied => "active data",
        Reason::FillsImport => "active in an imported table",
        Reason::IsFilling => "active",
        Reason::IsDeclared => "declared",
        Reason::IsPushed => "pushed by a custom section",
    };
    String::from_str(alloc, text)
}

// The line of an item.
fn line_of(alloc: Global, module: &Module, item: Item) -> Result<String, AllocError> {
    let label = module.label(alloc, item)?;
    format!(in alloc; "  {} {label}", item.space)
}

// The lines of the chain that ends with the step of this position, the root last.
fn chain(alloc: Global, module: &Module, reached: &Reached, at: usize) -> Result<Vec<String>> {
    let mut lines = Vec::new(alloc);
    let mut next = at;
    for _ in 0..MOST {
        let Some(step) = reached.steps.get(next) else {
            break;
        };
        lines.push(line_of(alloc, module, step.item)?)?;
        if let Some(why) = step.root {
            lines.push(reason_text(alloc, &module.exports, why)?)?;
            break;
        }
        next = step.by;
    }
    Ok(lines)
}

// Prints the lines, the last first.
fn print_lines(rt: &HostRuntime, lines: &[String]) -> io::Result<()> {
    for line in lines.iter().rev() {
        println!(rt; "{line}")?;
    }
    Ok(())
}

fn space_of(word: &str) -> Option<Space> {
    match word {
        "table" => Some(Space::Table),
        "memory" => Some(Space::Memory),
        "global" => Some(Space::Global),
        "tag" => Some(Space::Tag),
        "element" => Some(Space::Element),
        "data" => Some(Space::Data),
        "type" => Some(Space::Type),
        _ => None,
    }
}

// The item of this number in the space that the word names.
fn numbered(space: &str, number: &str) -> std::result::Result<Item, Failure> {
    match (space_of(space), number.parse::<u32>()) {
        (Some(space), Ok(id)) => Ok(Item { space, id }),
        _ => Err(Failure::Words(USAGE)),
    }
}

// The function that a word names.
fn function_of(module: &Module, word: &String) -> std::result::Result<Item, Failure> {
    match find(module, word.as_str()) {
        Some(id) => Ok(Item::new(Space::Function, id)),
        None => Err(Failure::Unknown(word.clone()?)),
    }
}

// The item that the words name.
fn item_of(module: &Module, words: &[String]) -> std::result::Result<Item, Failure> {
    match words {
        [name] => function_of(module, name),
        [space, number] => numbered(space.as_str(), number.as_str()),
        _ => Err(Failure::Words(USAGE)),
    }
}

// The lines that tell why an item is kept, the last first.
fn reasons(alloc: Global, module: &Module, item: Item) -> Result<Vec<String>> {
    let reached = reach(alloc, module)?;
    match reached.position(item) {
        Some(at) => chain(alloc, module, &reached, at),
        None => {
            let mut lines = Vec::new(alloc);
            lines.push(String::from_str(alloc, "nothing keeps it")?)?;
            Ok(lines)
        }
    }
}

// The same of the item that the words name.
fn reasons_of(
    alloc: Global,
    module: &Module,
    words: &[String],
) -> std::result::Result<Vec<String>, Failure> {
    let item = item_of(module, words)?;
    Ok(reasons(alloc, module, item)?)
}

// The same of the module that these bytes spell.
fn reasons_in(
    alloc: Global,
    bytes: &[u8],
    words: &[String],
) -> std::result::Result<Vec<String>, Failure> {
    let module: Module = Module::from_buffer(alloc, bytes)?;
    reasons_of(alloc, &module, words)
}

/// Does what the words say.
pub fn run(rt: &HostRuntime, words: &[String]) -> std::result::Result<(), Failure> {
    let [from, rest @ ..] = words else {
        return Err(Failure::Words(USAGE));
    };
    let bytes = read_file(rt, from.as_str())?;
    let lines = reasons_in(rt.alloc(), bytes.as_slice(), rest)?;
    Ok(print_lines(rt, lines.as_slice())?)
}
