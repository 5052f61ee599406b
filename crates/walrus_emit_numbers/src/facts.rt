//! What is known of the bodies of a module before they are written.

ghost use Rattle.std.specs.Prelude.{◌≡◌, IfErr, IfOk};
ghost use Rattle.std.specs.List.{AllZip};
ghost use Rattle.walrus_arena.specs.Arena.{entries};
ghost use Rattle.walrus_module.specs.walrus_collections.LookUps.{local_entries};
ghost use Rattle.walrus_emit_numbers.specs.Facts.{AreFacts};
ghost use Rattle.walrus_emit_numbers.specs.Refusals.{IsRefused};

use std::alloc::Global;
use walrus_arena::{FunctionId, LocalId};
use walrus_errors::Result;
use walrus_module::collections::ModuleFunctions;
use walrus_module::local_function::LocalFunction;

/// What is known of a function with a body.
#[derive(Drop)]
pub struct BodyFacts {
    /// The function.
    pub function: FunctionId,
    /// How many instructions it has.
    pub size: u64,
    /// Whether it names a data segment.
    pub uses_data_segments: bool,
    /// The locals that it names, each once.
    pub used_locals: Vec<LocalId>,
    /// The functions to which it refers.
    pub referred: Vec<FunctionId>,
}

#[tactic(auto, using(crate::proofs::Zips::refused_of))]
fn facts_at(alloc: Global, function: FunctionId, local: &LocalFunction) -> Result<BodyFacts>
    ensures facts { IfOk result (AreFacts (function, local.now)) }
    ensures refused { IfErr result IsRefused }
{
    let facts = local.emit_facts(alloc)?;
    Ok(BodyFacts {
        function,
        size: facts.size,
        uses_data_segments: facts.uses_data_segments,
        used_locals: facts.used_locals,
        referred: facts.referred,
    })
}

/// The facts of all bodies, by rising id.
///
/// # Errors
///
/// `NoTree` where the sequences of a body form none; want of memory.
pub fn facts_of(alloc: Global, functions: &ModuleFunctions) -> Result<Vec<BodyFacts>>
    ensures facts { IfOk result (λ facts. AllZip AreFacts (local_entries (entries functions.now)) facts.items) }
    ensures refused { IfErr result IsRefused }
{
    let mut facts = Vec::new(alloc);
    for (function, local) in functions.iter_local() {
        let known = facts_at(alloc, function, local)?;
        facts.push(known)?;
    }
    Ok(facts)
}
