//! Operators are read one by one.

ghost use Rattle.std.specs.Prelude.{◌≡◌, ◌==◌, ◌+◌, length, slice_get, IfOk, Ok, Some};
ghost use Rattle.wasm_operators.specs.wasm_reader.Cursor.{rest};
ghost use Rattle.wasm_operators.specs.wasm_reader.Reading.{Reads, plain};
ghost use Rattle.wasm_operators.specs.Operators.{code_at, IsKindOrPlace};
ghost use Rattle.wasm_operators.specs.Table.{find_code};
ghost use Rattle.wasm_operators.specs.declared.entry.Entry.{Entry as Row};
ghost use Rattle.walrus_operators.specs.Immediates.{kind_is};
ghost use Rattle.walrus_operators.specs.Operators.{IsNext, IsNextOf, ReadsOperator};

use crate::operator::Operator;
use crate::read::read_immediates;
use std::alloc::Global;
use std::marker::Model;
use wasm_operators::reader::{BinaryReader, Error, Result};
use wasm_operators::{Kind, OpCode};

// What a call gives; a fault of the reader is handed on.
macro_rules! read {
    ($call:expr) => {
        match $call {
            Ok(found) => found,
            Err(error) => return Err(OperatorError::Read(error)),
        }
    };
}

/// Why no operator was read.
#[derive(Clone, Copy, PartialEq, Eq)]
pub enum OperatorError {
    /// A fault of the reader.
    Read(Error),
    /// The code at this offset is unknown, or a feature that it needs is off.
    Unknown(u64),
}

impl From<Error> for OperatorError {
    ghost use Rattle.std.specs.Prelude.{◌≡◌};
    ghost use Rattle.walrus_operators.specs.declared.reader.OperatorError.TheVariants.{Read};

    ghost from_gives = { λ error result. result ≡ Read error };

    #[inline]
    fn from(error: Error) -> Self {
        OperatorError::Read(error)
    }
}

// The next code, a byte, whose kind is known.
#[inline(always)]
fn read_code(reader: &mut BinaryReader<'_>, kind: Kind) -> Result<OpCode>
    requires { IsNextOf reader.old kind }
    ensures code { Reads code_at plain reader.old reader.new result }
    ensures kind { IfOk result (λ code. IsKindOrPlace reader.old code (Ok kind)) }
    ensures entry { IfOk result (λ code. (e : Row) → IsNext reader.old e → find_code code.prefix code.number ≡ Some e) }
{
    let byte = got!(reader.read_u8());
    Ok(OpCode {
        prefix: 0,
        number: u32::from(byte),
    })
}

/// Reads operators one by one.
#[derive(Drop)]
pub struct OperatorReader<'a> {
    reader: BinaryReader<'a>,
}

impl<'a> Model for OperatorReader<'a> {
    ghost use Rattle.wasm_operators.specs.wasm_reader.Cursor.{Cursor};

    ghost Value = { Cursor };

    ghost view = { λ operators. operators.reader };
}

impl<'a> OperatorReader<'a> {
    /// Reads what is left for this reader.
    pub fn new(reader: BinaryReader<'a>) -> OperatorReader<'a>
        ensures { result ≡ reader.entry }
    {
        OperatorReader { reader }
    }

    /// No byte is left.
    pub fn eof(&self) -> bool
        ensures { result ≡ (length (rest self.now) == 0) }
    {
        self.reader.eof()
    }

    /// The offset of the next operator.
    pub fn original_position(&self) -> u64
        ensures { result ≡ self.now.window.start + self.now.position }
    {
        self.reader.original_position()
    }

    /// The next operator. Refused as the reader refuses its code and its immediates, and as `Unknown` at its first byte where its
    /// code is no operator's under the reader's features: then nothing behind the code is looked at. `Memory` comes of `br_table`,
    /// `try_table` and `select` alone.
    #[inline]
    #[tactic(auto, unfolding(wasm_operators::specs::Operators::operator_at))]
    pub fn read(&mut self, alloc: Global) -> Result<Operator, OperatorError>
        ensures { ReadsOperator self.old.window.features self.old self.new result }
    {
        let (code, kind) = OpCode::read(alloc, &mut self.reader)?;
        let kind = match kind {
            Ok(kind) => kind,
            Err(offset) => return Err(OperatorError::Unknown(offset)),
        };
        let immediates = read_immediates(kind, alloc, &mut self.reader)?;
        Ok(Operator { code, immediates })
    }

    /// The next byte, which stays to be read; none where no byte is left.
    #[inline(always)]
    pub fn peek(&self) -> Option<u8>
        ensures { result ≡ slice_get (rest self.now) 0 }
    {
        match self.reader.peek() {
            Ok(byte) => Some(byte),
            Err(_) => None,
        }
    }

    /// The next operator, whose immediates are of this kind, refused as [`OperatorReader::read`] refuses it. Where the kind is written out,
    /// no other is tested.
    #[inline(always)]
    #[tactic(auto, unfolding(wasm_operators::specs::Operators::operator_at))]
    pub fn read_as(&mut self, kind: Kind, alloc: Global) -> Result<Operator, OperatorError>
        requires { IsNextOf self.old kind }
        ensures read { ReadsOperator self.old.window.features self.old self.new result }
        ensures kind { IfOk result (λ op. kind_is op.immediates ≡ kind) }
        ensures entry { IfOk result (λ op. (e : Row) → IsNext self.old e → find_code op.code.prefix op.code.number ≡ Some e) }
    {
        let code = read!(read_code(&mut self.reader, kind));
        let immediates = read!(read_immediates(kind, alloc, &mut self.reader));
        Ok(Operator { code, immediates })
    }
}
