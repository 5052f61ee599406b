//! Tests of modules, of their collections and custom sections, and of passes over them, each call that takes memory with ample memory; and of texts of
//! refusals. What is said by contracts of each call isn't asked again.
#![tactic(auto)]

#[cfg(test)]
mod asked;
#[cfg(test)]
mod boxed;
#[cfg(test)]
mod copies;
#[cfg(test)]
mod found;
#[cfg(test)]
mod imports;
#[cfg(test)]
mod modules;
#[cfg(test)]
mod own;
#[cfg(test)]
mod refusals;
#[cfg(test)]
mod replaced;
#[cfg(test)]
mod rows;
#[cfg(test)]
mod sections;
