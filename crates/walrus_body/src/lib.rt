//! Bodies of WebAssembly functions: index maps, operators, the open frames of a body that is read, functions with a body and what is
//! written of them, and why a body is refused.
#![tactic(auto)]

pub use walrus_body_env::{AcceptAll, BodyEnv, BodyError, Validator};
pub use walrus_body_frames::{BlockKind, ControlFrame, IfElseState, ValidationContext};
pub use walrus_body_names::FunctionFacts;
pub use walrus_body_names::body_writer::Output;
pub use walrus_index_maps::{IdsToIndices, IndicesToIds, Space as IndexSpace, UnknownIndex};
pub use walrus_local_function::LocalFunction;
pub use walrus_operators::{Immediates, Operator, OperatorError, OperatorReader, write_operator};
pub use wasm_formats::{Form, Limited, Space};
pub use wasm_operators::{BlockType, Clause, Flow, MemoryAccess, OpCode};

/// Laws of the words that contracts cite.
pub mod laws {
    /// Operators: their table, what they spell, what each names, and the instruction that each is paired with.
    pub mod operators {
        /// Operators that are read.
        pub mod reading {
            pub use walrus_operators::laws::offsets_of_operators_move;
        }

        /// Operators that are written.
        pub mod writing {
            pub use walrus_operators::laws::{
                read_operators_can_be_written, written_operators_are_read_again,
                written_operators_are_shortest,
            };
        }

        /// What may follow a code, item by item.
        pub mod immediates {
            pub use wasm_operators::laws::{
                fronts_of_immediates_end_early, immediates_are_final, spelled_immediates_are_read,
                spellings_of_immediates_are_prefix_free,
            };
        }

        /// The table of operators.
        pub mod table {
            pub use wasm_operators::laws::{
                fronts_of_operators_end_early, operators_are_final, operators_in_range_are_spelled,
                operators_in_range_are_written, spelled_operators_are_read,
                spellings_of_operators_are_prefix_free,
            };
        }

        /// What is written for operators.
        pub mod bytes {
            pub use wasm_operators::laws::{
                written_operators_are_read_back, written_operators_are_shortest,
            };
        }

        /// What operators name, and operators renamed.
        pub mod names {
            pub use wasm_operators::laws::{
                names_are_renamed, renamings_compose, the_same_numbers_keep_an_operator,
            };
        }

        /// Operators, and the instructions that they are paired with.
        pub mod instructions {
            pub use walrus_pairing::laws::{
                operators_are_told, operators_come_back, plain_operators_are_answered,
                plain_operators_are_read, turns_number_without_gaps,
            };
        }

        /// Instructions, and the operators that they are paired with.
        pub mod pairing {
            pub use walrus_body_laws::body_trees::meaning::names_are_told;
            pub use walrus_pairing::laws::{
                forms_are_told, instructions_come_back, operators_are_sent,
            };
        }
    }

    /// Bodies: their grammar, their normal form, what each operator of a body that is read asks and does, the trees that are read, and
    /// what is written of them.
    pub mod bodies {
        pub use walrus_body_laws::body_steps::laws as steps;
        pub use walrus_body_laws::body_trees::laws as trees;
        pub use walrus_body_laws::local_numbers::laws as locals;
        pub use walrus_body_laws::{emission, writing};
        pub use walrus_body_operands::laws as operands;
        pub use walrus_body_rules::laws as rules;
        pub use wasm_body_grammar::laws as grammar;
        pub use wasm_normal_form::laws as normal_form;
        pub use wasm_normal_laws::normal_bodies_are_normal;
    }

    /// Runs: that a body and its normal form have equal traces.
    pub mod runs {
        pub use walrus_body_laws::machine::laws as machine;
        pub use walrus_body_laws::run_laws::laws as normal_forms;
        pub use wasm_run_names::laws as names;
    }
}
