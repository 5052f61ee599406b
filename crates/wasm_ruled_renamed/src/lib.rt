//! Renamed operators, constant expressions and bodies in normal form meet the rules of the file that they come to: laws as functions with
//! nothing to do.
#![tactic(auto)]

pub mod laws;

// Passed on to crates above, which then list this one alone.
pub mod ruled_normal {
    pub mod laws {
        pub use wasm_ruled_normal::laws::normal_operators_are_ruled;
    }
}
