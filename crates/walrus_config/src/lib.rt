//! What a module is parsed and written with.
#![tactic(auto)]

mod config;

pub use config::ModuleConfig;
