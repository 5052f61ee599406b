//! Types of functions and of blocks in a module's table.

use std::alloc::{AllocError, Global};
use walrus_builder::FunctionBuilder;
use walrus_instr::InstrSeqType;
use walrus_types::{ModuleTypes, ValType};

// Whether the second of two functions of one result has the type of the first one's own block, and a block type is found once it is made.
fn are_made(alloc: Global, types: &mut ModuleTypes) -> Result<bool, AllocError> {
    let first = FunctionBuilder::new(alloc, types, &[ValType::I32], &[ValType::I64])?;
    let second = FunctionBuilder::new(alloc, types, &[ValType::F32], &[ValType::I64])?;
    let ty = InstrSeqType::new(types, &[ValType::I32], &[])?;
    Ok(
        first.ty() != second.ty()
            && InstrSeqType::existing(types, &[ValType::I32], &[]) == Some(ty)
            && types.add(&[ValType::F64], &[])?.index() == 4,
    )
}

fn makes(alloc: Global) -> Result<bool, AllocError> {
    let mut types = ModuleTypes::new(alloc);
    are_made(alloc, &mut types)
}

#[test]
fn types_of_functions_and_blocks(rt: HostRuntime) {
    assert!(rt; makes(rt.alloc()) == Ok(true));
}
