//! Whether bodies are trees.
ghost use Rattle.std.specs.Prelude.{Decides, IfOk, MatchOption};
ghost use Rattle.walrus_used.specs.walrus_module.Parts.{parts};
ghost use Rattle.walrus_arena.specs.Arena.{item_at};
ghost use Rattle.walrus_used.specs.walrus_module.walrus_module_items.declared.function.Function.{Function as AnyFunction};
ghost use Rattle.walrus_used.specs.walrus_references.Refused.{FormsTree, HasTree};

use std::alloc::{AllocError, Global};
use walrus_arena::FunctionId;
use walrus_exact::module_items::FunctionKind;
use walrus_roots::Item;
use walrus_tree::check_tree;
use walrus_used::Check;
use walrus_used::collections::ModuleFunctions;
use walrus_used::module::Module;
use wasm_formats::Space;

// Whether the body of a function is a tree, if it has one.
fn has_tree(alloc: Global, kind: &FunctionKind) -> Result<bool, AllocError>
    ensures { IfOk result (λ ok. Decides ok (HasTree kind.now)) }
{
    match kind {
        FunctionKind::Local(local) => check_tree(alloc, local.builder(), local.entry_block()),
        FunctionKind::Import(_) | FunctionKind::Uninitialized(_) => Ok(true),
    }
}

// The same for a function that lives.
fn has_tree_at(
    alloc: Global,
    functions: &ModuleFunctions,
    id: FunctionId,
) -> Result<bool, AllocError>
    ensures { IfOk result (λ ok. Decides ok (MatchOption (item_at functions.now id) (Unit {0}) (λ (f : AnyFunction). HasTree f.kind))) }
{
    if !functions.contains(id) {
        return Ok(true);
    }
    has_tree(alloc, &functions.get(id).kind)
}

/// Whether the body of a function is a tree.
#[derive(Drop)]
pub(crate) struct Trees<'a, B> {
    pub(crate) alloc: Global,
    pub(crate) input: &'a Module<B>,
}

impl<'a, B> Check for Trees<'a, B> {
    ghost holds = { λ s x. FormsTree (parts s.input.now) x };

    fn check(&self, item: Item) -> Result<bool, AllocError>
        ensures { IfOk result (λ ok. Decides ok (FormsTree (parts self.now.input.now) item)) }
    {
        match item.space {
            Space::Function => has_tree_at(self.alloc, &self.input.funcs, item.id()),
            _ => Ok(true),
        }
    }
}
