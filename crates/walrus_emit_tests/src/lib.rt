//! Tests of modules that are written, made or edited by calls, each with ample memory.
#![tactic(auto)]

#[cfg(test)]
mod added;
#[cfg(test)]
mod edits;
#[cfg(test)]
mod files;
#[cfg(test)]
mod own;
#[cfg(test)]
mod parts;
#[cfg(test)]
mod rows;
#[cfg(test)]
mod steps;
