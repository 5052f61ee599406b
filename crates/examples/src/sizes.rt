//! Lists what takes most room in a module: functions and data segments, by the bytes that are written for them.

use crate::functions::operators_of;
use program_parts::{Failure, read_file};
use std::alloc::{AllocError, Global};
use std::io;
use std::ops::Range;
use walrus::ir::FunctionId;
use walrus::passes::Item;
use walrus::{EmitWasm, FromBuffer, Labels, Module, Result, Space};

const USAGE: &str = "examples sizes IN [COUNT]";

// How many lines are told where the words don't say.
const LINES: usize = 20;

// What an item takes.
#[derive(Clone, Copy)]
struct Size {
    bytes: usize,
    operators: u64,
    item: Item,
}

// What a line tells.
#[derive(Drop)]
struct Line {
    size: Size,
    name: String,
}

// The lines, and the bytes of the whole module.
#[derive(Drop)]
struct Listing {
    lines: Vec<Line>,
    whole: usize,
}

// Adds each function with a body.
fn add_functions(
    alloc: Global,
    sizes: &mut Vec<Size>,
    module: &Module,
    ranges: &[(FunctionId, Range<usize>)],
) -> Result<()> {
    for (id, range) in ranges {
        let item = Item::new(Space::Function, *id);
        let bytes = range.end.saturating_sub(range.start);
        let operators = operators_of(alloc, &module.funcs, *id)?;
        sizes.push(Size {
            bytes,
            operators,
            item,
        })?;
    }
    Ok(())
}

// Adds each data segment.
fn add_data(sizes: &mut Vec<Size>, module: &Module) -> Result<(), AllocError> {
    for data in module.data_segments.iter() {
        let item = Item::new(Space::Data, data.id());
        sizes.push(Size {
            bytes: data.value.len(),
            operators: 0,
            item,
        })?;
    }
    Ok(())
}

// Lines for the first of these. A label may look through all exports, so none is made for what isn't printed.
fn lines_of(
    alloc: Global,
    module: &Module,
    sizes: &[Size],
    count: usize,
) -> Result<Vec<Line>, AllocError> {
    let mut lines = Vec::new(alloc);
    for size in sizes.iter().take(count) {
        let size = *size;
        let name = module.label(alloc, size.item)?;
        lines.push(Line { size, name })?;
    }
    Ok(lines)
}

// So many lines of a module, by falling bytes.
fn list(alloc: Global, module: &mut Module, count: usize) -> Result<Listing> {
    let (bytes, transform) = module.emit_wasm_with_transform(alloc)?;
    let whole = bytes.len();
    let ranges = transform.function_ranges.as_slice();
    let mut sizes = Vec::new(alloc);
    add_functions(alloc, &mut sizes, &*module, ranges)?;
    add_data(&mut sizes, &*module)?;
    sizes.sort_by_key(|size| usize::MAX - size.bytes)?;
    let lines = lines_of(alloc, &*module, sizes.as_slice(), count)?;
    Ok(Listing { lines, whole })
}

// So many lines of the module that these bytes spell.
fn listed(alloc: Global, bytes: &[u8], count: usize) -> Result<Listing> {
    let mut module: Module = Module::from_buffer(alloc, bytes)?;
    list(alloc, &mut module, count)
}

fn print_line(rt: &HostRuntime, line: &Line) -> io::Result<()> {
    println!(rt;
        "{:>9}  {:>9}  {} {}",
        line.size.bytes, line.size.operators, line.size.item.space, line.name
    )
}

fn print(rt: &HostRuntime, listing: &Listing) -> io::Result<()> {
    println!(rt; "    bytes  operators  what")?;
    for line in listing.lines.as_slice() {
        print_line(rt, line)?;
    }
    println!(rt; "{:>9}             all, as it is written", listing.whole)
}

// How many lines these words ask for.
fn count_in(words: &[String]) -> Option<usize> {
    match words {
        [] => Some(LINES),
        [count] => count.parse::<usize>().ok(),
        _ => None,
    }
}

/// Does what the words say.
pub fn run(rt: &HostRuntime, words: &[String]) -> std::result::Result<(), Failure> {
    let [from, rest @ ..] = words else {
        return Err(Failure::Words(USAGE));
    };
    let Some(count) = count_in(rest) else {
        return Err(Failure::Words(USAGE));
    };
    let bytes = read_file(rt, from.as_str())?;
    let listing = listed(rt.alloc(), bytes.as_slice(), count)?;
    print(rt, &listing)?;
    Ok(())
}
