//! Whether a body opens a legacy `try`.

ghost use Rattle.std.specs.Prelude.{◌≡◌};
ghost use Rattle.walrus_module_bodies.specs.TryCodes.{opens_try};

use walrus_body_env::Validator;
use walrus_module_env::body_env::BodyError;
use walrus_operators::Operator;
use walrus_operators::operator_table::OpCode;
use walrus_operators::ref_types::ValType;

// Whether the operator of this code opens one.
#[inline(always)]
fn opens_try(code: OpCode) -> bool
    ensures { result ≡ opens_try code }
{
    code.prefix == 0 && code.number == 6
}

/// Accepts every body, and tells whether an operator opened a legacy `try`.
#[derive(Drop)]
pub(crate) struct Tries {
    /// Whether one did.
    pub(crate) any: bool,
}

impl Validator for Tries {
    ghost use Rattle.std.specs.Prelude.{◌||◌, None};
    ghost use Rattle.walrus_module_bodies.specs.TryCodes.{opens_try};

    ghost locals_step = { λ v offset count ty. (None, v) };

    ghost op_step = { λ v offset operator. (None, record { any = v.any || opens_try operator.code }) };

    ghost finish_step = { λ v offset. (None, v) };

    #[inline(always)]
    fn define_locals(&mut self, _offset: u64, _count: u32, _ty: ValType) -> Result<(), BodyError> {
        Ok(())
    }

    #[inline(always)]
    fn op(&mut self, _offset: u64, operator: &Operator) -> Result<(), BodyError> {
        if opens_try(operator.code) {
            self.any = true;
        }
        Ok(())
    }

    #[inline(always)]
    fn finish(&mut self, _offset: u64) -> Result<(), BodyError> {
        Ok(())
    }
}
