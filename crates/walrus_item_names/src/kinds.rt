//! Items that have a name.

ghost use Rattle.std.specs.Prelude.{◌≡◌, ℕ, List, Option, Some, string_bytes};
ghost use Rattle.walrus_item_names.specs.Names.{function_called, bare_function, table_called, bare_table, memory_called, bare_memory, tag_called, bare_tag, global_called, bare_global, element_called, bare_element, data_called, bare_data};

use walrus_module::module_items::{Data, Element, Function, Global, Memory, Table, Tag};

/// An item that has a name.
pub trait Named {
    // Its name.
    ghost called: { Self → Option (List ℕ) };

    // The item without it.
    ghost bare: { Self → Self };

    /// Gives it this name.
    fn set_name(&mut self, name: String)
        ensures called { called self.new ≡ Some (string_bytes name) }
        ensures bare { bare self.new ≡ bare self.old };
}

impl Named for Function {
    ghost called = { function_called };

    ghost bare = { bare_function };

    fn set_name(&mut self, name: String) {
        self.name = Some(name);
    }
}

impl Named for Table {
    ghost called = { table_called };

    ghost bare = { bare_table };

    fn set_name(&mut self, name: String) {
        self.name = Some(name);
    }
}

impl Named for Memory {
    ghost called = { memory_called };

    ghost bare = { bare_memory };

    fn set_name(&mut self, name: String) {
        self.name = Some(name);
    }
}

impl Named for Tag {
    ghost called = { tag_called };

    ghost bare = { bare_tag };

    fn set_name(&mut self, name: String) {
        self.name = Some(name);
    }
}

impl Named for Global {
    ghost called = { global_called };

    ghost bare = { bare_global };

    fn set_name(&mut self, name: String) {
        self.name = Some(name);
    }
}

impl Named for Element {
    ghost called = { element_called };

    ghost bare = { bare_element };

    fn set_name(&mut self, name: String) {
        self.name = Some(name);
    }
}

impl Named for Data {
    ghost called = { data_called };

    ghost bare = { bare_data };

    fn set_name(&mut self, name: String) {
        self.name = Some(name);
    }
}
