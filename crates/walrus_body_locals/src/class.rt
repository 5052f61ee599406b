//! Frequent operators, by their codes.

ghost use Rattle.std.specs.Prelude.{◌≡◌, ◌<◌, Some};
ghost use Rattle.walrus_pairing.specs.wasm_operators.declared.entry.Entry.{Entry};
ghost use Rattle.walrus_pairing.specs.wasm_operators.Table.{find_code};
ghost use Rattle.walrus_body_locals.specs.Classes.{IsNextIn, class_entry};

use walrus_operators::OperatorReader;
use walrus_operators::operator_table::Flow;

/// Of which class an operator is that is frequent, or that opens or ends a block: those of one are read in one way.
#[derive(Clone, Copy)]
pub enum Class {
    /// It names a local.
    Local,
    /// It names a global.
    Global,
    /// It loads from memory.
    Load,
    /// It stores to memory.
    Store,
    /// A constant of 32 bits.
    I32,
    /// One of 64 bits.
    I64,
    /// One of 64 bits, of floating point.
    F64,
    /// It has no immediates, and the next one is reached.
    Plain,
    /// It may branch to a label.
    Chooses,
    /// It calls a function.
    Calls,
    /// An `end`.
    End,
    /// An `else`.
    Else,
    /// It opens a block, a loop or an `if`.
    Opens(Flow),
    /// Any other, or none.
    Rare,
}

// The class of a code of one byte.
#[inline(always)]
fn class_of(byte: u8) -> Class
    ensures { (e : Entry) → class_entry result ≡ Some e → (byte < 0xfb) × (find_code 0 byte ≡ Some e) }
{
    match byte {
        0x02 => Class::Opens(Flow::OpensBlock),
        0x03 => Class::Opens(Flow::OpensLoop),
        0x04 => Class::Opens(Flow::OpensIf),
        0x05 => Class::Else,
        0x0b => Class::End,
        0x0d => Class::Chooses,
        0x10 => Class::Calls,
        0x1a | 0x1b => Class::Plain,
        0x20..=0x22 => Class::Local,
        0x23 | 0x24 => Class::Global,
        0x28..=0x35 => Class::Load,
        0x36..=0x3e => Class::Store,
        0x41 => Class::I32,
        0x42 => Class::I64,
        0x44 => Class::F64,
        0x45..=0xc4 => Class::Plain,
        _ => Class::Rare,
    }
}

/// The class of the next operator, which stays to be read.
#[inline(always)]
pub fn next_class(reader: &OperatorReader<'_>) -> Class
    ensures { IsNextIn reader.now result }
{
    match reader.peek() {
        Some(byte) => class_of(byte),
        None => Class::Rare,
    }
}
