//! Who validates a body.

ghost use Rattle.std.specs.Prelude.{◌≡◌, ℕ, Option};
ghost use Rattle.walrus_operators.specs.wasm_operators.Operators.{Seen};
ghost use Rattle.walrus_operators.specs.wasm_operators.wasm_ref_types.declared.value.ValType.{ValType as Value};
ghost use Rattle.walrus_operators.specs.Operators.{seen};
ghost use Rattle.walrus_body_env.specs.declared.error.BodyError.{BodyError as Fault};
ghost use Rattle.walrus_body_env.specs.Faults.{Answers};

use crate::error::BodyError;
use walrus_operators::Operator;
use walrus_operators::ref_types::ValType;

/// Validates a body from left to right: told of each run of locals, of each operator and of the end, it accepts or refuses.
/// What a call answers and leaves is a function of the validator and of what it is told.
pub trait Validator {
    /// Why a run of locals is refused, and what it leaves.
    ghost locals_step: { Self → ℕ → ℕ → Value → Option Fault × Self };

    /// Why an operator is refused, and what it leaves.
    ghost op_step: { Self → ℕ → Seen → Option Fault × Self };

    /// Why the end is refused, and what it leaves.
    ghost finish_step: { Self → ℕ → Option Fault × Self };

    /// So many locals of a type are declared, by the run at this offset.
    fn define_locals(&mut self, offset: u64, count: u32, ty: ValType) -> Result<(), BodyError>
        ensures { Answers (locals_step self.old offset count ty) result self.new };

    /// An operator stands at this offset.
    fn op(&mut self, offset: u64, operator: &Operator) -> Result<(), BodyError>
        ensures { Answers (op_step self.old offset (seen operator.now)) result self.new };

    /// The body has ended at this offset.
    fn finish(&mut self, offset: u64) -> Result<(), BodyError>
        ensures { Answers (finish_step self.old offset) result self.new };
}

/// Accepts every body.
#[derive(Clone, Copy, Debug, Drop)]
pub struct AcceptAll;

impl Validator for AcceptAll {
    ghost use Rattle.std.specs.Prelude.{None};

    ghost locals_step = { λ v offset count ty. (None, v) };

    ghost op_step = { λ v offset operator. (None, v) };

    ghost finish_step = { λ v offset. (None, v) };

    fn define_locals(&mut self, _offset: u64, _count: u32, _ty: ValType) -> Result<(), BodyError> {
        Ok(())
    }

    fn op(&mut self, _offset: u64, _operator: &Operator) -> Result<(), BodyError> {
        Ok(())
    }

    fn finish(&mut self, _offset: u64) -> Result<(), BodyError> {
        Ok(())
    }
}
