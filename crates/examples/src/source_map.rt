//! Lets a source map follow a module as it is written anew, or tells where each operator went.

use crate::mappings::decode;
use crate::moved::followed;
use program_parts::{Failure, read_file, write_file};
use serde_json::Value;
use std::alloc::{AllocError, Global};
use walrus::{
    CodeTransform, EmitWasm, FromBuffer, Module, ModuleConfig, Result, code_section_start,
};

const USAGE: &str = "examples source_map IN OUT [MAP NEWMAP]  (no MAP: prints pairs of offsets)";

// A module as it is written, where its operators went, and where its code began in the file that was read.
#[derive(Drop)]
struct Written {
    bytes: Vec<u8>,
    transform: CodeTransform,
    start: usize,
}

// The mappings of a source map.
fn mappings_in(map: &Value) -> std::result::Result<&str, Failure> {
    let Some(value) = map.get("mappings") else {
        return Err(Failure::Wrong("the map has no mappings"));
    };
    match value.as_str() {
        Some(mappings) => Ok(mappings),
        None => Err(Failure::Wrong("the mappings are no text")),
    }
}

// The new mappings of a source map.
fn new_mappings(
    alloc: Global,
    written: &Written,
    mappings: &str,
) -> std::result::Result<String, Failure> {
    let Some(segments) = decode(alloc, mappings)? else {
        return Err(Failure::Wrong("the mappings are malformed"));
    };
    let segments = segments.as_slice();
    Ok(followed(alloc, &written.transform, written.start, segments)?)
}

// The text with the new mappings. The rest stays as it is, since some readers want the fields in one order.
fn replaced(
    alloc: Global,
    text: &str,
    mappings: &str,
    new: &str,
) -> std::result::Result<String, Failure> {
    let old = format!(in alloc; "\"{mappings}\"")?;
    match text.split_once(old.as_str()) {
        Some((before, after)) => Ok(format!(in alloc; "{before}\"{new}\"{after}")?),
        None => Err(Failure::Wrong("the mappings are malformed")),
    }
}

// The text of a source map whose mappings follow.
fn follow_map(
    alloc: Global,
    written: &Written,
    text: &str,
) -> std::result::Result<String, Failure> {
    let Ok(map) = Value::from_str(alloc, text) else {
        return Err(Failure::Wrong("the map is no JSON"));
    };
    let mappings = mappings_in(&map)?;
    let new = new_mappings(alloc, written, mappings)?;
    replaced(alloc, text, mappings, new.as_str())
}

// Lets the source map in a file follow, into another.
fn write_map(
    rt: &HostRuntime,
    written: &Written,
    map: &str,
    to: &str,
) -> std::result::Result<(), Failure> {
    let bytes = read_file(rt, map)?;
    let Ok(text) = std::str::from_utf8(bytes.as_slice()) else {
        return Err(Failure::Wrong("the map is no text"));
    };
    let new = follow_map(rt.alloc(), written, text)?;
    write_file(rt, to, new.as_bytes())
}

// The pairs of offsets, a line each.
fn pairs(alloc: Global, written: &Written) -> Result<String, AllocError> {
    let mut text = String::new(alloc);
    for (location, new) in written.transform.instruction_map.as_slice() {
        let old = written.start.saturating_add(location.data() as usize);
        let line = format!(in alloc; "{old} {new}\n")?;
        text.push_str(line.as_str())?;
    }
    Ok(text)
}

fn print_pairs(rt: &HostRuntime, written: &Written) -> std::result::Result<(), Failure> {
    let text = pairs(rt.alloc(), written)?;
    rt.write_all(text.as_bytes())?;
    Ok(())
}

// The flags under which operators can be followed.
fn config() -> ModuleConfig {
    let mut config = ModuleConfig::new();
    config.preserve_code_transform = true;
    config
}

// A module as it is written, with where its code was read.
fn write(alloc: Global, module: &mut Module, start: usize) -> Result<Written> {
    let (bytes, transform) = module.emit_wasm_with_transform(alloc)?;
    Ok(Written {
        bytes,
        transform,
        start,
    })
}

// The module that these bytes spell, as it is written.
fn written_of(alloc: Global, bytes: &[u8]) -> Result<Written> {
    let start = code_section_start(bytes).unwrap_or(0);
    let mut module: Module = Module::from_buffer_with_config(alloc, bytes, &config())?;
    write(alloc, &mut module, start)
}

// Tells where the operators went.
fn tell(rt: &HostRuntime, written: &Written, maps: &[String]) -> std::result::Result<(), Failure> {
    match maps {
        [] => print_pairs(rt, written),
        [map, new] => write_map(rt, written, map.as_str(), new.as_str()),
        _ => Err(Failure::Words(USAGE)),
    }
}

/// Does what the words say.
pub fn run(rt: &HostRuntime, words: &[String]) -> std::result::Result<(), Failure> {
    let [from, to, maps @ ..] = words else {
        return Err(Failure::Words(USAGE));
    };
    let bytes = read_file(rt, from.as_str())?;
    let written = written_of(rt.alloc(), bytes.as_slice())?;
    tell(rt, &written, maps)?;
    write_file(rt, to.as_str(), written.bytes.as_slice())
}
