//! Drops custom sections of a module: those that are named, or all.
//!
//!     examples strip in.wasm out.wasm                   all that are read as raw ones, names and producers
//!     examples strip in.wasm out.wasm name build        names, and the sections called `build`
//!
//! Sections called `name` and `producers` are no raw ones, but what flags say of writing: these have to be set before a module is read. A
//! `producers` with this tool's entry is written, unless that goes. As in each writing, sections whose names begin with `.debug` go.

use program_parts::{Failure, read_file, write_file};
use std::alloc::Global;
use walrus::{EmitWasm, FromBuffer, Module, ModuleConfig, ModuleCustomSections, Result, Retains};

const USAGE: &str = "examples strip IN OUT [SECTION]..  (no SECTION: all custom sections go)";

// Whether this is one of the words.
fn is_named(drops: &[String], name: &str) -> bool {
    for drop in drops {
        if drop.as_str() == name {
            return true;
        }
    }
    false
}

// Whether a section of this name goes.
fn goes(drops: &[String], name: &str) -> bool {
    drops.is_empty() || is_named(drops, name)
}

// Drops the sections of these names, or all.
fn drop_sections(customs: &mut ModuleCustomSections, drops: &[String]) {
    customs.retain(|name| !goes(drops, name));
}

// The flags of a module without the sections of names and producers, where these go.
fn config_of(drops: &[String]) -> ModuleConfig {
    let mut config = ModuleConfig::new();
    config.generate_name_section = !goes(drops, "name");
    config.generate_producers_section = !goes(drops, "producers");
    config
}

// The bytes of a module without these sections.
fn stripped(alloc: Global, bytes: &[u8], drops: &[String]) -> Result<Vec<u8>> {
    let config = config_of(drops);
    let mut module: Module = Module::from_buffer_with_config(alloc, bytes, &config)?;
    drop_sections(&mut module.customs, drops);
    module.emit_wasm(alloc)
}

/// Does what the words say.
pub fn run(rt: &HostRuntime, words: &[String]) -> std::result::Result<(), Failure> {
    let [from, to, drops @ ..] = words else {
        return Err(Failure::Words(USAGE));
    };
    let bytes = read_file(rt, from.as_str())?;
    let written = stripped(rt.alloc(), bytes.as_slice(), drops)?;
    write_file(rt, to.as_str(), written.as_slice())
}
