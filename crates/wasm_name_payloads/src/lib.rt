//! What is read of the payloads of the sections `name` and `producers`, whatever they hold, and what is written of them: definitions,
//! and laws as functions with nothing to do.
#![tactic(auto)]

pub mod laws;
