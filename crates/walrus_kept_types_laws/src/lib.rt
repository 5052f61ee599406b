//! What is written of the types of a module that was read, once what isn't kept is deleted: the groups of the file's module, of those types that are kept.
#![tactic(auto)]

pub mod laws;
