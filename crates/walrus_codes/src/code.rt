//! Codes behind a prefix.
ghost use Rattle.std.specs.Prelude.{◌≡◌};
ghost use Rattle.wasm_operators.specs.Operators.{op_code};
ghost use Rattle.walrus_codes.specs.Runs as codes;

use wasm_operators::OpCode;

// The code of a number behind a prefix.
#[inline]
fn behind(prefix: u8, number: u32) -> OpCode
    ensures { result ≡ op_code prefix number }
{
    OpCode { prefix, number }
}

/// The code of the truncation of this number among those that saturate, which are the first behind fc. (It stands here so that its wrong
/// body is tried over a small proof.)
#[inline]
pub fn saturating(number: u32) -> OpCode
    ensures { result ≡ codes.bulk number }
{
    behind(0xfc, number)
}

/// The code of this number behind fe.
#[inline]
pub fn atomic(number: u32) -> OpCode
    ensures { result ≡ codes.atomic number }
{
    OpCode {
        prefix: 0xfe,
        number,
    }
}
