//! Items by their names.
ghost use Rattle.std.specs.Prelude.{◌≡◌, IfSome};
ghost use Rattle.walrus_arena.specs.Arena.{IsLive, lowest_id};
ghost use Rattle.walrus_collections.specs.LookUps.{lowest};
ghost use Rattle.walrus_collections.specs.Tests.{export_named, function_export_named};
ghost use Rattle.walrus_lookups.specs.Found.{function_called};

use walrus_arena::{ExportId, FunctionId};
use walrus_collections::module_items::Export;
use walrus_collections::{ModuleExports, ModuleFunctions, Test};
use walrus_module::Module;

// Exports of this name.
#[derive(Clone, Copy)]
struct Named<'a>(&'a str);

impl<'a> Test<Export> for Named<'a> {
    ghost passes = { λ t e. export_named t.0.now e };

    fn passes(&self, item: &Export) -> bool {
        item.name.as_str() == self.0
    }
}

/// Exports by their names.
pub trait ByName {
    /// The lowest live export of this name, or `None` where there is none. Goes through the exports.
    fn by_name(&self, name: &str) -> Option<ExportId>;
}

impl ByName for ModuleExports {
    fn by_name(&self, name: &str) -> Option<ExportId>
        ensures found { result ≡ lowest_id (export_named name.now) self.now }
        ensures live { IfSome result (IsLive self.now) }
    {
        self.lowest_id(&Named(name))
    }
}

// The lowest live function of this name, else the one of the lowest export of a function of this name.
fn function_of(funcs: &ModuleFunctions, exports: &ModuleExports, name: &str) -> Option<FunctionId>
    ensures { result ≡ function_called name.now funcs.now exports.now }
{
    match funcs.by_name(name) {
        Some(id) => Some(id),
        None => match exports.get_func(name) {
            Ok(id) => Some(id),
            Err(_) => None,
        },
    }
}

/// Functions by what users call them.
pub trait Finds {
    /// The lowest live function of this name; where there is none, the one that the lowest live export of a function of this name gives out; `None`
    /// where there is no such export, either. Goes through the functions, and through the exports.
    fn find_func(&self, name: &str) -> Option<FunctionId>;
}

impl<B> Finds for Module<B> {
    fn find_func(&self, name: &str) -> Option<FunctionId>
        ensures { result ≡ function_called name.now self.now.funcs self.now.exports }
    {
        function_of(&self.funcs, &self.exports, name)
    }
}
