//! Tests of bodies that are read, in a module of their own, and written again, of frames, and of operators, each call that takes memory with ample memory.
#![tactic(auto)]

#[cfg(test)]
mod again;
#[cfg(test)]
mod bench;
#[cfg(test)]
mod forms;
#[cfg(test)]
mod frames;
#[cfg(test)]
mod handlers;
#[cfg(test)]
mod module;
#[cfg(test)]
mod operators;
#[cfg(test)]
mod read;
#[cfg(test)]
mod rows;
#[cfg(test)]
mod table;
#[cfg(test)]
mod validators;
