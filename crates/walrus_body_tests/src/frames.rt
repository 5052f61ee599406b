//! Frames that are opened, filled and closed.

use crate::forms::{EMPTY, id};
use crate::module::TestModule;
use std::alloc::{AllocError, Global};
use walrus_body_env::BodyError;
use walrus_body_frames::{BlockKind, ValidationContext};
use walrus_builder::FunctionBuilder;
use walrus_instr::{Instr, InstrLocId, LegacyCatch};
use walrus_types::ValType;

// Opens a block and a `try` in it, fills both, and closes them: the sequence of the `try`, ten times, and how many handlers it has.
fn closed(context: &mut ValidationContext, module: &TestModule<'_>) -> Result<usize, BodyError> {
    context.push_control(module, BlockKind::Block, &[], &[])?;
    context.push_control_with_ty(BlockKind::Try, id(2))?;
    context.alloc_instr(Instr::Drop, InstrLocId::new(7))?;
    context.alloc_instr_in_control(1, Instr::Drop, InstrLocId::new(8))?;
    context.add_legacy_catch(LegacyCatch::CatchAll { handler: id(0) })?;
    let (frame, block) = context.pop_control(InstrLocId::new(9))?;
    context.pop_control(InstrLocId::new(9))?;
    Ok(
        block
            .index()
            .saturating_mul(10)
            .saturating_add(frame.catches.len()),
    )
}

fn closes(alloc: Global) -> Result<bool, AllocError> {
    let one = [ValType::I32];
    let module = TestModule {
        one: &one,
        has_data_count: false,
        code_start: 27,
    };
    let function = FunctionBuilder::with_types(alloc, id(0), EMPTY)?;
    let mut context = ValidationContext::new(alloc, function);
    Ok(closed(&mut context, &module) == Ok(21))
}

#[test]
fn frames_are_closed(rt: HostRuntime) {
    assert!(rt; closes(rt.alloc()) == Ok(true));
}
