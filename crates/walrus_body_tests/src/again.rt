//! Bodies of one function that are read one behind the other by one map.

use crate::forms::{EMPTY, id};
use crate::module::{TestModule, indices};
use std::alloc::{AllocError, Global};
use walrus_body_env::{AcceptAll, BodyError};
use walrus_index_maps::IndicesToIds;
use walrus_items::ModuleLocals;
use walrus_local_function::LocalFunction;
use walrus_types::ValType;
use wasm_features::WasmFeatures;
use wasm_reader::BinaryReader;

fn parse(
    alloc: Global,
    bytes: &[u8],
    indices: &mut IndicesToIds,
    locals: &mut ModuleLocals,
) -> Result<LocalFunction, BodyError> {
    if bytes.len() >= 1_000_000 {
        return Err(BodyError::Memory);
    }
    let one = [ValType::I32];
    let module = TestModule {
        one: &one,
        has_data_count: false,
        code_start: 0,
    };
    let body = BinaryReader::new_features(bytes, 2, WasmFeatures::all());
    LocalFunction::parse(
        alloc,
        &module,
        indices,
        locals,
        id(0),
        id(0),
        EMPTY,
        Vec::new(alloc),
        body,
        &mut AcceptAll,
    )
}

// What comes of a body: the number of its fault, 100 where it is read, and 101 where what is read is a constant.
fn answer(
    alloc: Global,
    bytes: &[u8],
    indices: &mut IndicesToIds,
    locals: &mut ModuleLocals,
) -> u32 {
    match parse(alloc, bytes, indices, locals) {
        Ok(function) => 100 + u32::from(function.is_const()),
        Err(fault) => fault.number(),
    }
}

fn answers(alloc: Global, indices: &mut IndicesToIds) -> [u32; 4] {
    let mut locals = ModuleLocals::new(alloc);
    [
        answer(alloc, &[0x01, 0x01, 0x7f, 0xff, 0x0b], indices, &mut locals),
        answer(alloc, &[0x00, 0x20, 0x00, 0x1a, 0x0b], indices, &mut locals),
        answer(alloc, &[0x00, 0x41, 0x05, 0x0b], indices, &mut locals),
        answer(alloc, &[0x00, 0x41, 0x05, 0x1a, 0x0b], indices, &mut locals),
    ]
}

fn all(alloc: Global) -> Result<[u32; 4], AllocError> {
    let mut indices = indices(alloc)?;
    Ok(answers(alloc, &mut indices))
}

// The local of the first, which is refused at its operator, isn't there for the second.
#[test]
fn a_refused_body_names_no_locals(rt: HostRuntime) {
    assert!(rt; all(rt.alloc()) == Ok([12, 6, 101, 100]));
}
