//! Tests of calls that read whole files, each with ample memory: what callbacks are handed, where locations stand, and which names items get. Which
//! modules are read, and why others are refused, is asked by the program `rows`.
#![tactic(auto)]

#[cfg(test)]
mod callback;
#[cfg(test)]
mod files;
#[cfg(test)]
mod helpers;
#[cfg(test)]
mod locations;
#[cfg(test)]
mod names;
