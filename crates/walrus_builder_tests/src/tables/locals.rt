//! Locals, and their copies.

use std::alloc::{AllocError, Global};
use walrus_types::{ModuleLocals, ValType};

fn are_added(locals: &mut ModuleLocals) -> Result<bool, AllocError> {
    let first = locals.add(ValType::V128)?;
    let second = locals.add(ValType::I32)?;
    let mut are_copied = true;
    for local in locals.iter() {
        are_copied &= local.clone()?.id() == local.id();
    }
    Ok(are_copied && first.index() == 0 && second.index() == 1)
}

fn adds(alloc: Global) -> Result<bool, AllocError> {
    let mut locals = ModuleLocals::new(alloc);
    are_added(&mut locals)
}

#[test]
fn locals(rt: HostRuntime) {
    assert!(rt; adds(rt.alloc()) == Ok(true));
}
