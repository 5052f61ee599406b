//! Operators are written.

ghost use Rattle.std.specs.Prelude.{◌≡◌, ◌++◌, ◌∷◌, MatchResult};
ghost use Rattle.walrus_operators.specs.Operators.{seen};
ghost use Rattle.walrus_operators.specs.Appended.{Appends};
ghost use Rattle.wasm_operators.specs.Bytes.{code_bytes, operator_bytes, unsigned_bytes};

use crate::operator::Operator;
use crate::write::write_immediates;
use std::alloc::AllocError;
use wasm_operators::{OpCode, write_byte, write_unsigned};

#[tactic(auto, using(crate::proofs::Appends::appends_on))]
fn write_prefixed(out: &mut Vec<u8>, prefix: u8, number: u32) -> Result<(), AllocError>
    ensures { Appends (prefix ∷ unsigned_bytes number) out.old.items out.new.items result }
{
    put!(write_byte(out, prefix));
    write_unsigned(out, u64::from(number))
}

/// Puts an operator's code behind the bytes, in its shortest spelling.
///
/// # Errors
///
/// Want of memory. What was there stands at the front.
#[inline(always)]
pub fn write_code(out: &mut Vec<u8>, code: OpCode) -> Result<(), AllocError>
    ensures { Appends (code_bytes code) out.old.items out.new.items result }
{
    if code.prefix == 0 {
        return write_byte(out, (code.number % 0x100) as u8);
    }
    write_prefixed(out, code.prefix, code.number)
}

// A refused call may leave a part of the operator.
#[inline]
#[tactic(auto, using(crate::proofs::Appends::operator_is))]
fn append_operator(out: &mut Vec<u8>, operator: &Operator) -> Result<(), AllocError>
    ensures { Appends (operator_bytes (seen operator.now)) out.old.items out.new.items result }
{
    put!(write_code(out, operator.code));
    write_immediates(out, &operator.immediates)
}

/// Puts an operator behind what was written, in its shortest spelling where it has any.
///
/// # Errors
///
/// Want of memory; then what was written stays as it was.
#[inline]
#[tactic(auto, using(crate::proofs::Keeps::keeps_front))]
pub fn write_operator(out: &mut Vec<u8>, operator: &Operator) -> Result<(), AllocError>
    ensures { MatchResult result
        (λ _. out.new.items ≡ out.old.items ++ operator_bytes (seen operator.now))
        (λ _. out.new.items ≡ out.old.items) }
{
    let before = out.len();
    let written = append_operator(out, operator);
    if written.is_err() {
        out.truncate(before);
    }
    written
}
