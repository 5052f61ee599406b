//! Parts of a module that are written one by one, and where code stands.
use crate::files::{EMPTY, NOP, PLAIN};
use crate::steps::read;
use std::alloc::Global;
use walrus_config::ModuleConfig;
use walrus_emit::{Emit, EmitContext, EmitWasm};
use walrus_errors::Result;
use walrus_instr::InstrLocId;
use walrus_parse::Parse;
use walrus_passes::module::Module;
use walrus_sections::CodeTransform;

const PARTS: &[u8] =
    b"\x01\x04\x01\x60\0\0\0\x27\x09producers\x01\x0cprocessed-by\x01\x06walrus\x060.28.0\x0d\x03\x01\0\0";

// A type, no globals, the producers that reading adds, and a tag.
fn emit_parts<B>(cx: &mut EmitContext<'_, B>) -> Result<()> {
    let module = cx.module;
    Emit::emit(&&module.types, cx)?;
    Emit::emit(&module.globals, cx)?;
    Emit::emit(&module.producers, cx)?;
    Emit::emit(&module.tags, cx)
}

fn are_parts(alloc: Global, module: &Module) -> Result<bool> {
    let mut cx = EmitContext::new(alloc, module, &[])?;
    emit_parts(&mut cx)?;
    Ok(cx.emission.bytes.as_slice() == PARTS)
}

fn has_parts(alloc: Global, module: &mut Module) -> Result<bool> {
    let ty = module.types.add(&[], &[])?;
    module.tags.add(ty)?;
    are_parts(alloc, module)
}

fn tag_is_written(alloc: Global) -> Result<bool> {
    let mut module = read(alloc, EMPTY, false)?;
    has_parts(alloc, &mut module)
}

#[test]
fn parts_are_written(rt: HostRuntime) {
    assert!(rt; tag_is_written(rt.alloc()) == Ok(true));
}

// Whether the only body of a file stands there, and the last operators of locations.
fn is_at(transform: &CodeTransform, end: usize, map: &[(InstrLocId, usize)]) -> bool {
    let [(function, range)] = transform.function_ranges.as_slice() else {
        return false;
    };
    transform.code_section_start == 27
        && (function.index(), range.start, range.end) == (0, 29, end)
        && transform.instruction_map.as_slice() == map
}

fn tells(
    alloc: Global,
    module: &mut Module,
    file: &[u8],
    end: usize,
    map: &[(InstrLocId, usize)],
) -> Result<bool> {
    let (bytes, transform) = module.emit_wasm_with_transform(alloc)?;
    Ok(bytes.as_slice() == file && is_at(&transform, end, map))
}

fn is_told(alloc: Global, keeps_places: bool, map: &[(InstrLocId, usize)]) -> Result<bool> {
    let mut module = read(alloc, NOP, keeps_places)?;
    tells(alloc, &mut module, PLAIN, 31, map)
}

#[test]
fn places_are_told_where_they_are_kept(rt: HostRuntime) {
    let map = [(InstrLocId::new(4), 30)];
    assert!(rt; is_told(rt.alloc(), true, &map) == Ok(true));
    assert!(rt; is_told(rt.alloc(), false, &[]) == Ok(true));
}

// An exported function of two constants that are dropped.
const DROPS: &[u8] =
    b"\0asm\x01\0\0\0\x01\x04\x01\x60\0\0\x03\x02\x01\0\x07\x05\x01\x01f\0\0\x0a\x0a\x01\x08\0\x41\x01\x1a\x41\x02\x1a\x0b";

// Of all its operators the first `drop` alone has a location of its own.
fn location_of(place: u32) -> InstrLocId {
    InstrLocId::new(if place == 5 { 5 } else { 9 })
}

fn read_drops(alloc: Global) -> Result<Module> {
    let mut config = ModuleConfig::new();
    config.generate_name_section = false;
    config.generate_producers_section = false;
    config.preserve_code_transform = true;
    config.parse_with(alloc, DROPS, location_of, |_module, _indices| Ok(()))
}

fn last_is_told(alloc: Global) -> Result<bool> {
    let mut module = read_drops(alloc)?;
    let map = [(InstrLocId::new(5), 32), (InstrLocId::new(9), 36)];
    tells(alloc, &mut module, DROPS, 37, &map)
}

#[test]
fn last_operators_of_locations_are_told(rt: HostRuntime) {
    assert!(rt; last_is_told(rt.alloc()) == Ok(true));
}
