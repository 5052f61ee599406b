//! The bodies of a file, read into a module that its sections fill, and the names of its items behind them (Core Specification, binary
//! format: modules; appendix Custom Sections: name section).
#![tactic(auto)]

mod code;
mod named;
mod names;

pub use code::bodies_of;
pub use named::read_named;
pub use names::name_items;

// Passed on to crates above, which then list this one alone.
pub mod file_bodies {
    pub mod body_trees {
        pub mod laws {
            pub use walrus_file_bodies::body_trees::laws::{
                bodies_are_trees, bodies_mean_their_normal_form,
            };
        }
    }

    pub mod items_into {
        pub use walrus_items_into::read_items;

        pub mod functions_into {
            pub mod laws {
                pub use walrus_file_bodies::items_into::functions_into::laws::read_functions_stand;
            }

            pub mod types_into {
                pub mod laws {
                    pub use walrus_file_bodies::items_into::functions_into::types_into::laws::{
                        new_types_stand, types_name_below,
                    };
                }
            }
        }

        pub mod laws {
            pub use walrus_file_bodies::items_into::laws::{
                filled_functions_stand, filled_modules_are_filed, filled_modules_are_numbered,
                named_locals_count,
            };
        }

        pub mod module_env {
            pub mod body_env {
                pub mod instr {
                    pub use walrus_instr::InstrLocId;

                    pub mod type_table {
                        pub use walrus_instr::type_table::{ModuleLocals, ModuleTypes};
                    }
                }
            }

            pub mod laws {
                pub use walrus_file_bodies::items_into::module_env::laws::{
                    blocks_are_named, picks_are_seen,
                };
            }
        }

        pub mod tables_into {
            pub mod sections {
                pub use walrus_sections::Sections;
            }

            pub mod sections_into {
                pub mod index_maps {
                    pub use walrus_index_maps::IndicesToIds;
                }

                pub mod known_sections {
                    pub use walrus_known_sections::Sections;
                }

                pub mod operators {
                    pub mod immediate_forms {
                        pub mod reader {
                            pub mod features {
                                pub use wasm_features::WasmFeatures;
                            }
                        }
                    }
                }
            }
        }
    }

    pub mod laws {
        pub use walrus_file_bodies::laws::{
            bodies_read_files, bodies_stop_files, filled_modules_are_ready,
        };
    }

    pub mod payloads_into {
        pub use walrus_payloads_into::producers_in;
    }
}

pub mod item_names {
    pub mod module {
        pub use walrus_item_names::module::Module;

        pub mod collections {
            pub use walrus_item_names::module::collections::{
                ModuleData, ModuleElements, ModuleExports, ModuleFunctions, ModuleGlobals,
                ModuleImports, ModuleMemories, ModuleTables, ModuleTags,
            };
        }
    }
}

pub mod local_counts {
    pub use walrus_local_counts::few_are_numbered;
}

pub mod locations {
    pub use walrus_locations::send_locations;
}

pub mod spelled_modules {
    pub mod laws {
        pub use walrus_file_bodies::spelled_modules::laws::read_sections_are_spelled;
    }
}
