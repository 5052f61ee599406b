//! Imports of modules, and the items that they bring (Core Specification, valid modules: imports).
#![tactic(auto)]

pub mod laws;

// Passed on to crates above, which then list this one alone.
pub mod body_grammar {
    pub mod laws {
        pub use wasm_body_grammar::laws::bodies_read_once;
    }
}

pub mod ruled_modules {
    pub mod laws {
        pub use wasm_ruled_modules::laws::read_modules_are_ruled;
    }
}
