//! Codes of one byte and behind a prefix, and picks from runs of them.
ghost use Rattle.std.specs.Prelude.{◌≡◌, slice_get};
ghost use Rattle.walrus_codes.specs.Runs as codes;

use walrus_operators::operator_table::OpCode;

/// The code of one byte.
#[inline]
pub fn byte(number: u32) -> OpCode
    ensures { result ≡ codes.byte number }
{
    OpCode { prefix: 0, number }
}

/// The code of this number behind fb.
#[inline]
pub fn object(number: u32) -> OpCode
    ensures { result ≡ codes.object number }
{
    OpCode {
        prefix: 0xfb,
        number,
    }
}

/// The operator at this place of a run.
#[inline]
pub(crate) fn pick<T: Copy>(ops: &[T], at: u32) -> Option<T>
    ensures { result ≡ slice_get ops.now at }
{
    match ops.get(at as usize) {
        Some(op) => Some(*op),
        None => None,
    }
}
