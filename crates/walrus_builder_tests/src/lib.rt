//! Tests of what bytes of values and types are read as, of the table of types, and of instructions, walks, trees and the builder, each call that takes
//! memory with ample memory. Most are rows of a text: words say what is done and what is to come of it.
#![tactic(auto)]

#[cfg(test)]
mod bodies;
#[cfg(test)]
mod readers;
#[cfg(test)]
mod tables;
