//! Whether items live.
ghost use Rattle.std.specs.Prelude.{Decides, IfOk, IsSome};
ghost use Rattle.walrus_used.specs.walrus_module.Parts.{parts};
ghost use Rattle.walrus_used.specs.walrus_module.Items.{written_type};
ghost use Rattle.walrus_used.specs.walrus_module.Items.{Lives};

use std::alloc::AllocError;
use walrus_arena::TypeId;
use walrus_roots::Item;
use walrus_types::ModuleTypes;
use walrus_used::Check;
use walrus_used::module::Module;
use wasm_formats::Space;

// Whether the type lives and is no entry type.
fn is_written(types: &ModuleTypes, id: TypeId) -> bool
    ensures { Decides result (IsSome (written_type types.now id)) }
{
    types.contains(id) && !types.get(id).is_entry()
}

// Whether the item lives.
fn lives<B>(input: &Module<B>, item: Item) -> bool
    ensures { Decides result (Lives (parts input.now) item) }
{
    match item.space {
        Space::Type => is_written(&input.types, item.id()),
        Space::Function => input.funcs.contains(item.id()),
        Space::Table => input.tables.contains(item.id()),
        Space::Memory => input.memories.contains(item.id()),
        Space::Tag => input.tags.contains(item.id()),
        Space::Global => input.globals.contains(item.id()),
        Space::Element => input.elements.contains(item.id()),
        Space::Data => input.data_segments.contains(item.id()),
        Space::Local => (item.id as usize) < input.locals.iter().as_slice().len(),
        Space::Label => false,
    }
}

/// Whether an item lives.
#[derive(Drop)]
pub(crate) struct Living<'a, B> {
    pub(crate) input: &'a Module<B>,
}

impl<'a, B> Check for Living<'a, B> {
    ghost holds = { λ s x. Lives (parts s.input.now) x };

    fn check(&self, item: Item) -> Result<bool, AllocError>
        ensures { IfOk result (λ ok. Decides ok (Lives (parts self.now.input.now) item)) }
    {
        Ok(lives(self.input, item))
    }
}
