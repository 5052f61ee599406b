//! Numeric operators by their codes, whatever the count of their operands.
ghost use Rattle.std.specs.Prelude.{◌≡◌};
ghost use Rattle.walrus_codes.specs.Unary.{bare_unary_at};
ghost use Rattle.walrus_codes.specs.Binary.{bare_binary_at};
ghost use Rattle.walrus_codes.specs.Ternary.{ternary_at};
ghost use Rattle.walrus_pairing.specs.Tables.{entry_at, unary, binary, ternary};

use crate::code_tables::table::{BULK, BYTES, VECTORS};
use walrus_instr::{BinaryOp, TernaryOp, UnaryOp};
use walrus_operators::operator_table::OpCode;

/// A numeric operator without immediates, or none.
#[derive(Clone, Copy)]
pub(crate) enum Numeric {
    /// None.
    Nothing,
    /// Of one operand.
    Unary(UnaryOp),
    /// Of two operands.
    Binary(BinaryOp),
    /// Of three operands.
    Ternary(TernaryOp),
}

// What stands in a table for a number, where the table begins with this one.
#[inline]
#[tactic(auto, unfolding(crate::specs::Tables::entry_at))]
fn at(table: &[Numeric], first: u32, number: u32) -> Numeric
    ensures { result ≡ entry_at table.now first number }
{
    if number < first {
        return Numeric::Nothing;
    }
    match table.get((number - first) as usize) {
        Some(found) => *found,
        None => Numeric::Nothing,
    }
}

/// The operator without immediates that has this code.
#[inline]
pub(crate) fn numeric_of(code: OpCode) -> Numeric
    ensures unary { unary result ≡ bare_unary_at code }
    ensures binary { binary result ≡ bare_binary_at code }
    ensures ternary { ternary result ≡ ternary_at code }
{
    match code.prefix {
        0 => at(&BYTES, 0x45, code.number),
        0xfc => at(&BULK, 0, code.number),
        0xfd => at(&VECTORS, 15, code.number),
        _ => Numeric::Nothing,
    }
}
