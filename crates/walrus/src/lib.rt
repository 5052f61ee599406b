//! WebAssembly modules as a program reads, edits, drops from and writes them: a module's collections of items under ids, its flags and refusals. Ids, types and
//! instructions stand in `ir`.
#![tactic(auto)]

pub use walrus_body_env::BodyError;
pub use walrus_collections::local_function::LocalFunction;
pub use walrus_collections::{
    Collection, ExportOf, ImportOf, Items, LocalFunctions, ModuleData, ModuleElements,
    ModuleExports, ModuleFunctions, ModuleGlobals, ModuleImports, ModuleMemories, ModuleTables,
    ModuleTags, Test,
};
pub use walrus_config::ModuleConfig;
pub use walrus_customs::{ModuleProducers, ProducerField, ProducerValue, RawCustomSection};
pub use walrus_emit::{Emit, EmitContext, EmitWasm};
pub use walrus_errors::{ErrorKind, Form, Limited, ModuleError, Result, Space};
pub use walrus_index_maps::{IdsToIndices, IndicesToIds};
pub use walrus_ir as ir;
pub use walrus_lookups::{ByName, Finds, Labels, Places, Retains, code_section_start};
pub use walrus_module::Module;
pub use walrus_module_items::{
    Data, DataKind, Element, ElementItems, ElementKind, Export, ExportItem, FuncParams,
    FuncResults, Function, FunctionKind, Global, GlobalKind, Import, ImportKind, ImportedFunction,
    Memory, Table, Tag, TagKind,
};
pub use walrus_parse::{FromBuffer, Parse, parse_into};
pub use walrus_sections::{
    CodeTransform, CustomSection, ModuleCustomSections, Section, SectionFault, Sections,
};

/// What of a module is used, and dropping the rest.
pub mod passes {
    pub use walrus_passes::{Used, gc};
    pub use walrus_reasons::{Reason, references, roots};
    pub use walrus_roots::{Item, Roots};
}

/// Laws of the words that contracts cite.
pub mod laws {
    /// What the iterators of collections give, when imports are equal, and that calls keep the items' own ids.
    pub use walrus_module_laws::collections;

    /// When a module is linked, and what edits keep of that.
    pub mod linked {
        pub use walrus_module_laws::changes::{deletes_keep_linked, writes_keep_linked};
        pub use walrus_module_laws::edits::{
            adds_keep_linked, deleted_exports_keep_linked, replaces_keep_linked,
        };
        pub use walrus_pass_laws::linked::{
            empty_is_linked, imports_keep_linked, own_ids_are_kept,
        };
    }

    /// What a module means.
    pub mod meaning {
        pub use walrus_pass_laws::meaning::{adds_are_seen, empty_means_empty, items_are_seen};
    }

    /// What passes keep of a module.
    pub mod passes {
        pub use walrus_pass_laws::passes::{
            gc_keeps_linked, linked_are_served, second_gc_deletes_nothing,
        };
    }

    /// What a module is that was read: linked, it means its file, and meets the rules; and so does what a callback is handed. Bytes read as one module, or stop with
    /// one fault at one place.
    pub mod read {
        pub use walrus_parse_gc_laws::parsed_linked::laws::modules_that_are_read_are_linked;
        pub use walrus_parse_gc_laws::parsed_meaning::laws::modules_that_are_read_mean_their_files;
        pub use walrus_parse_gc_laws::{ruled, sent};
        pub use wasm_modules::laws::{read_dont_stop, read_or_stop, reads_once, stops_once};
    }

    /// What is reached is the least that holds the roots and is closed, and is what is reached in the module that is meant.
    pub mod kept {
        pub use walrus_pass_laws::meant::{
            kept_is_meant, passes_keep_what_is_meant, references_are_meant,
        };
        pub use walrus_pass_laws::references::kept_is_least;
        pub use walrus_reasons::roots_are_listed;
        pub use wasm_references::kept_is_least as meant_kept_is_least;
    }
}
