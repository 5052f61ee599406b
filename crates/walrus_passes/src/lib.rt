//! Passes over a module: what of it is used, and dropping the rest.
#![tactic(auto)]

mod drop;
pub mod gc;
mod kept;
mod types;
mod used;

pub use used::Used;

// Passed on to crates above, which then list this one alone.
pub mod collections {
    pub use walrus_refusals::used::collections::Collection;
}

pub mod local_function {
    pub use walrus_refusals::used::local_function::LocalFunction;
}

pub mod module {
    pub use walrus_refusals::used::module::Module;
}
