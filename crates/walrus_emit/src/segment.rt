//! The declared segment of a module.
ghost use Rattle.std.specs.Prelude.{◌≡◌, MatchResult};
ghost use Rattle.walrus_module.specs.Parts.{parts};
ghost use Rattle.walrus_emit_numbers.specs.Undeclared.{undeclared_of};
ghost use Rattle.walrus_emit.specs.Left.{Declares};

use std::alloc::Global;
use walrus_emit_numbers::{BodyFacts, undeclared};
use walrus_errors::Result;
use walrus_module::Module;
use walrus_module::module_items::{ElementItems, ElementKind};

/// Adds a declared segment of the functions that need one, if there are any.
///
/// # Errors
///
/// Want of memory. Nothing is added.
pub fn declare<B>(alloc: Global, input: &mut Module<B>, facts: &[BodyFacts]) -> Result<()>
    ensures added { MatchResult result (λ _. Declares (undeclared_of input.old facts.now) (parts input.old) (parts input.new)) (λ _. input.new ≡ input.old) }
    ensures customs { input.new.customs ≡ input.old.customs }
{
    let functions = undeclared(alloc, &*input, facts)?;
    if functions.as_slice().is_empty() {
        return Ok(());
    }
    input
        .elements
        .add(ElementKind::Declared, ElementItems::Functions(functions))?;
    Ok(())
}
