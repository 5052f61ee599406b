// A table of many types that come in the order of its index, which stays low: were it as high as the table is
// long, the adds wouldn't end within a test's time.
ghost use Rattle.std.specs.Prelude.{◌<◌, ◌^◌};

use std::alloc::AllocError;
use walrus_arena::TypeId;
use walrus_types::{HeapType, ModuleTypes, RefType, ValType};

const LENGTH: usize = 100_000;

fn reference_to(id: TypeId) -> ValType {
    ValType::Ref(RefType {
        nullable: false,
        heap_type: HeapType::Concrete(id),
    })
}

// Adds types each of which takes a reference to the one before.
fn add_chain(types: &mut ModuleTypes) -> Result<(), AllocError> {
    let mut last = types.add(&[], &[])?;
    for _ in 0..LENGTH {
        last = types.add(&[reference_to(last)], &[])?;
    }
    Ok(())
}

// Whether the type that takes a reference to this one is found, under the next id.
fn is_found(types: &ModuleTypes, index: usize) -> bool
    requires { index < 2 ^ 20 }
{
    match types.find(&[reference_to(TypeId::from_index(index))], &[]) {
        Some(found) => found.index() == index + 1,
        None => false,
    }
}

// Deletes each tenth type.
fn thin_out(types: &mut ModuleTypes) {
    for tenth in 0..LENGTH / 10 {
        let id = TypeId::from_index(10 * tenth);
        if types.contains(id) {
            types.delete(id);
        }
    }
}

/// Whether some types are found, and behind each tenth that is deleted others aren't. Asks for a new table.
pub(crate) fn is_low(types: &mut ModuleTypes) -> Result<bool, AllocError> {
    add_chain(types)?;
    let mut agree = true;
    for index in [0, 1, 9, 50_000, 65_535, LENGTH - 1] {
        agree &= is_found(types, index);
    }
    thin_out(types);
    for index in [0, 50_000, LENGTH - 2] {
        agree &= is_found(types, index);
    }
    for index in [9, 49_999, LENGTH - 11] {
        agree &= !is_found(types, index);
    }
    Ok(agree)
}
