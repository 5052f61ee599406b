//! Tests of `wasm_rewriter`, of its devices and of its program, and of the program `walrus_inspect`. What modules are rewritten to, and why they are
//! refused, is asked by the program `rows`.
#![tactic(auto)]

#[cfg(test)]
mod devices;
#[cfg(test)]
mod faults;
#[cfg(test)]
mod inspect;
#[cfg(test)]
mod modules;
#[cfg(test)]
mod program;
#[cfg(test)]
mod runs;
#[cfg(test)]
mod standard;
