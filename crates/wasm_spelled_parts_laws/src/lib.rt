//! Laws of parts: the part of a file that is rewritten stands as a module does in a file, meets the rules, and has a spelling for each of its items.
#![tactic(auto)]

pub mod laws;
