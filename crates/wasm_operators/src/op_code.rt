//! The codes of operators (Core Specification, binary format: instructions).

ghost use Rattle.std.specs.Prelude.{◌≡◌, IfOk};
ghost use Rattle.wasm_composite_types.specs.wasm_reader.Reading.{Reads};
ghost use Rattle.wasm_operators.specs.Table.{find_code};
ghost use Rattle.wasm_operators.specs.Operators.{code_at, flow_of, kind_of, IsKindOrPlace};

use crate::entry::{Entry, Flow, Kind};
use crate::table::code_entry;
use std::alloc::Global;
use wasm_composite_types::reader::{BinaryReader, FromReader, Result, WasmFeatures};

/// An operator's code: a byte, or a number behind a prefix.
#[derive(Clone, Copy, Debug, PartialEq, Eq)]
pub struct OpCode {
    /// The prefix, fb to fe, or 0 where there is none.
    pub prefix: u8,
    /// The number behind the prefix, or the byte.
    pub number: u32,
}

impl OpCode {
    /// What the table says of it, where it knows it.
    #[inline]
    pub fn entry(self) -> Option<Entry>
        ensures { result ≡ find_code self.prefix self.number }
    {
        code_entry(self.prefix, self.number)
    }

    /// Which immediates follow it, where it is an operator under these features.
    #[inline]
    #[tactic(auto, unfolding(crate::specs::Operators::kind_of))]
    pub fn kind(self, features: WasmFeatures) -> Option<Kind>
        ensures { result ≡ kind_of features self }
    {
        let Some(entry) = self.entry() else {
            return None;
        };
        if !entry.gate.is_on(features) {
            return None;
        }
        Some(entry.kind)
    }

    /// The next code, and which immediates follow it; in place of these the offset of the code's first byte, where it is no
    /// operator's under the reader's features.
    ///
    /// # Errors
    ///
    /// As the reader refuses the code.
    #[inline]
    pub fn read(
        alloc: Global,
        reader: &mut BinaryReader<'_>,
    ) -> Result<(OpCode, std::result::Result<Kind, u64>)>
        ensures code { Reads code_at (λ read. read.0) reader.old reader.new result }
        ensures kind { IfOk result (λ read. IsKindOrPlace reader.old read.0 read.1) }
    {
        let offset = reader.original_position();
        let code = got!(OpCode::from_reader(alloc, reader));
        match code.kind(reader.features()) {
            Some(kind) => Ok((code, Ok(kind))),
            None => Ok((code, Err(offset))),
        }
    }

    /// What it does to a run, where the table knows it.
    #[inline]
    pub fn flow(self) -> Option<Flow>
        ensures { result ≡ flow_of self }
    {
        let Some(entry) = self.entry() else {
            return None;
        };
        Some(entry.flow)
    }
}

impl<'a> FromReader<'a> for OpCode {
    ghost use Rattle.std.specs.Prelude.{false};
    ghost use Rattle.wasm_operators.specs.declared.op_code.OpCode.{OpCode};
    ghost use Rattle.wasm_operators.specs.Operators.{code_at};
    ghost use Rattle.wasm_operators.specs.Finals.{code_final};

    ghost Seen = { OpCode };

    ghost seen = { λ code. code };

    ghost reading = { λ _. code_at };

    ghost takes_memory = { false };

    #[inline]
    #[tactic(auto, unfolding(crate::specs::Operators::code_at))]
    fn from_reader(_alloc: Global, reader: &mut BinaryReader<'a>) -> Result<Self> {
        let byte = got!(reader.read_u8());
        if 0xfb <= byte && byte <= 0xfe {
            let number = got!(reader.read_var_u32());
            return Ok(OpCode {
                prefix: byte,
                number,
            });
        }
        Ok(OpCode {
            prefix: 0,
            number: u32::from(byte),
        })
    }

    ghost is_final = { λ _. code_final };
}
