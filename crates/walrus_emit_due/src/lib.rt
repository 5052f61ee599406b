//! What is due for the sections of a module (Core Specification, binary format: modules), in words of the module that is meant: definitions, and nothing to
//! run.
#![tactic(auto)]
