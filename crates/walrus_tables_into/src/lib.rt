//! What was read of a file becomes the globals, tables, element segments and custom sections of a module: names by number become
//! names by id.
#![tactic(auto)]

mod customs;
mod elements;
mod globals;
mod tables;
mod types;

pub use customs::add_customs;
pub use elements::add_elements;
pub use globals::add_globals;
pub use tables::add_tables;

// Passed on to crates above, which then list this one alone.
pub mod section_values {
    pub use walrus_section_values::{Global, GlobalOrigin, Limits};
}

pub mod sections_into {
    pub use walrus_sections_into::{
        IntoError, add_exports, add_imports, add_memories, add_segments, add_tags, number_elements,
        number_globals, number_memories, number_segments, number_tables, number_tags, read_start,
    };

    pub mod collections {
        pub use walrus_sections_into::collections::{ModuleElements, ModuleGlobals, ModuleTables};
    }

    pub mod forms {
        pub use walrus_sections_into::forms::{
            HeapRecord, HeapType, RefRecord, RefType, ValRecord, ValType,
        };
    }

    pub mod known_sections {
        pub use walrus_sections_into::known_sections::{
            Element, ElementItems, Mode, Table, TableType,
        };
    }

    pub mod module_items {
        pub use walrus_sections_into::module_items::{ElementItems, GlobalKind};
    }
}
