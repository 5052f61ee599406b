//! The normal form of a module that meets the rules meets them: laws as functions with nothing to do but to call others.
#![tactic(auto)]

pub mod laws;

// Passed on to crates above, which then list this one alone.
pub mod ruled_normal {
    pub mod laws {
        pub use wasm_ruled_renamed::ruled_normal::laws::normal_operators_are_ruled;
    }
}
