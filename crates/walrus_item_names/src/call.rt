//! One item gets a name.

ghost use Rattle.std.specs.Prelude.{◌≡◌, Some, string_bytes};
ghost use Rattle.std.specs.Option.{option_map};
ghost use Rattle.walrus_item_names.specs.Called.{IsCalled};
ghost use Rattle.walrus_item_names.specs.Gives.{IsTypeCalled, IsLocalCalled};

use crate::kinds::Named;
use walrus_arena::{Id, LocalId, TypeId};
use walrus_module::collections::Collection;
use walrus_types::{ModuleLocals, ModuleTypes};

// The module's own.
pub(crate) fn call_module(own: &mut Option<String>, name: String)
    ensures { option_map string_bytes own.new ≡ Some (string_bytes name) }
{
    *own = Some(name);
}

// The item of this id, if it lives.
pub(crate) fn call_item<T: Named, S>(items: &mut Collection<T, S>, id: Id<S>, name: String)
    ensures { IsCalled T.called T.bare id (string_bytes name) items.old items.new }
{
    let at = id.index();
    if items.contains(Id::from_index(at)) {
        items.get_mut(Id::from_index(at)).set_name(name);
    }
}

// The type of this id, if it lives.
pub(crate) fn call_type(types: &mut ModuleTypes, id: TypeId, name: String)
    ensures { IsTypeCalled id (string_bytes name) types.old types.new }
{
    if types.contains(id) {
        types.get_mut(id).name = Some(name);
    }
}

// The local of this id, if it is known.
pub(crate) fn call_local(locals: &mut ModuleLocals, id: LocalId, name: String)
    ensures { IsLocalCalled id (string_bytes name) locals.old locals.new }
{
    if id.index() < locals.iter().as_slice().len() {
        locals.get_mut(id).name = Some(name);
    }
}
