//! Operators (Core Specification, binary format: instructions).

use crate::immediates::Immediates;
use wasm_operators::OpCode;

/// An operator: its code, and the immediates that follow it.
#[derive(Drop)]
pub struct Operator {
    /// The code.
    pub code: OpCode,
    /// What follows the code.
    pub immediates: Immediates,
}
