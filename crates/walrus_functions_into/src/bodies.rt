//! Which function each body is of (Core Specification, binary format: code section).

ghost use Rattle.std.specs.Prelude.{◌≡◌, IfOk, None, slice_get, if◌then◌else◌};
ghost use Rattle.walrus_arena.specs.Arena.{item_at};
ghost use Rattle.walrus_functions_into.specs.Bodies.{bodiless, is_bodiless, paired, wants_body};

use std::alloc::{AllocError, Global};
use walrus_arena::FunctionId;
use walrus_collections::ModuleFunctions;
use walrus_collections::module_items::FunctionKind;
use walrus_types_into::known_sections::Chunk;

/// The bytes of a body with their place, and the function that it is of.
#[derive(Clone, Copy)]
pub struct FunctionBody<'a> {
    // The number of the function's id: no list of ids beside borrowed bytes is covered by the borrow checker yet.
    number: u32,
    /// The bytes, and their place from the function count of the code section on.
    pub chunk: Chunk<'a>,
}

impl<'a> FunctionBody<'a> {
    /// The function.
    pub fn function(&self) -> FunctionId
        ensures { result ≡ self.now.number }
    {
        FunctionId::from_index(self.number as usize)
    }
}

// Whether it has no body yet.
fn has_none(kind: &FunctionKind) -> bool
    ensures { result ≡ is_bodiless kind.now }
{
    match kind {
        FunctionKind::Uninitialized(_) => true,
        FunctionKind::Import(_) | FunctionKind::Local(_) => false,
    }
}

// Whether there is a function of this id that has no body yet.
fn wants_body(functions: &ModuleFunctions, function: FunctionId) -> bool
    ensures { result ≡ wants_body (item_at functions.now function) }
{
    functions.contains(function) && has_none(&functions.get(function).kind)
}

// The body for the function of this id, where the ones before get so many.
fn body_for<'a>(
    functions: &ModuleFunctions,
    function: FunctionId,
    bodies: &[Chunk<'a>],
    given: usize,
) -> Option<Chunk<'a>>
    ensures { result ≡ (if wants_body (item_at functions.now function) then slice_get bodies.now given else None) }
{
    if wants_body(functions, function) {
        bodies.get(given).copied()
    } else {
        None
    }
}

/// Each body with its function: the functions that have no body yet get them in turn, by rising id. A file that was read has as many
/// bodies as such functions (Core Specification, binary format: modules); of others, what one of them lacks is left out.
///
/// # Errors
///
/// Want of memory.
pub fn pair_bodies<'a>(
    alloc: Global,
    functions: &ModuleFunctions,
    bodies: &[Chunk<'a>],
) -> Result<Vec<FunctionBody<'a>>, AllocError>
    ensures { IfOk result (λ pairs. pairs.items ≡ paired (bodiless functions.now) bodies.now) }
{
    let mut pairs = Vec::new(alloc);
    for index in 0..functions.next_id().index() {
        let function = FunctionId::from_index(index);
        if let Some(chunk) = body_for(functions, function, bodies, pairs.len()) {
            let number = function.number();
            pairs.push(FunctionBody { number, chunk })?;
        }
    }
    Ok(pairs)
}
