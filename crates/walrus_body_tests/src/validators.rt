//! A validator of the tests' own.

ghost use Rattle.std.specs.Prelude.{◌==◌, Some, None, if◌then◌else◌};
ghost use Rattle.walrus_body_env.specs.Faults.{Answers};
ghost use Rattle.walrus_body_env.specs.declared.error.BodyError.TheVariants as faults;

use walrus_body_env::{BodyError, Validator};
use walrus_operators::Operator;
use wasm_ref_types::ValType as Written;

/// Refuses what stands at an offset, by a fault that reading never gives, and knows what it was told of last.
#[derive(Clone, Copy, Drop)]
pub(crate) struct Refuser {
    /// What it refuses; 0 for nothing.
    pub(crate) at: u64,
    /// Where that stood.
    pub(crate) last: u64,
}

impl Refuser {
    fn answer(&mut self, offset: u64) -> Result<(), BodyError>
        ensures { Answers (if offset == self.old.at then Some faults.NoTree else None, record self.old { last = offset }) result self.new }
    {
        self.last = offset;
        if offset == self.at {
            return Err(BodyError::NoTree);
        }
        Ok(())
    }
}

impl Validator for Refuser {
    ghost locals_step = { λ v offset _ _. (if offset == v.at then Some faults.NoTree else None, record v { last = offset }) };

    ghost op_step = { λ v offset _. (if offset == v.at then Some faults.NoTree else None, record v { last = offset }) };

    ghost finish_step = { λ v offset. (if offset == v.at then Some faults.NoTree else None, record v { last = offset }) };

    fn define_locals(&mut self, offset: u64, _count: u32, _ty: Written) -> Result<(), BodyError> {
        self.answer(offset)
    }

    fn op(&mut self, offset: u64, _operator: &Operator) -> Result<(), BodyError> {
        self.answer(offset)
    }

    fn finish(&mut self, offset: u64) -> Result<(), BodyError> {
        self.answer(offset)
    }
}
