//! The normal form of a module that meets the rules meets them with its types merged: laws as functions with nothing to do but to call others.
#![tactic(auto)]

pub mod laws;

// Passed on to crates above, which then list this one alone.
pub mod normal_modules {
    pub mod laws {
        pub use wasm_normal_modules::laws::{
            normal_forms_of_read_modules_are_ruled, numbered_operators_are_normal,
        };
    }
}

pub mod ruled_normal {
    pub mod laws {
        pub use wasm_normal_modules::ruled_normal::laws::normal_operators_are_ruled;
    }
}
