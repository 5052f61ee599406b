//! The handlers of `try_table` (Core Specification, binary format: control instructions).

ghost use Rattle.std.specs.Prelude.{◌≡◌, if◌then◌else◌};
ghost use Rattle.wasm_operators.specs.declared.clause.Clause.TheVariants.{Catch, CatchRef, CatchAll, CatchAllRef};

use std::alloc::Global;
use wasm_composite_types::reader::{BinaryReader, Error, ErrorKind, FromReader, Result};

/// Which exceptions a handler of `try_table` catches, and the label that it branches to.
#[derive(Clone, Copy, PartialEq, Eq)]
pub enum Clause {
    /// Those of a tag.
    Catch {
        /// The number of the tag.
        tag: u32,
        /// The label.
        label: u32,
    },
    /// Those of a tag; the label takes the exception, too.
    CatchRef {
        /// The number of the tag.
        tag: u32,
        /// The label.
        label: u32,
    },
    /// All.
    CatchAll {
        /// The label.
        label: u32,
    },
    /// All; the label takes the exception.
    CatchAllRef {
        /// The label.
        label: u32,
    },
}

// A handler of a tag, whose label takes the exception, or doesn't.
fn of_tag(takes_exception: bool, tag: u32, label: u32) -> Clause
    ensures { result ≡ (if takes_exception then CatchRef tag label else Catch tag label) }
{
    if takes_exception {
        Clause::CatchRef { tag, label }
    } else {
        Clause::Catch { tag, label }
    }
}

// A handler of all, whose label takes the exception, or doesn't.
fn of_all(takes_exception: bool, label: u32) -> Clause
    ensures { result ≡ (if takes_exception then CatchAllRef label else CatchAll label) }
{
    if takes_exception {
        Clause::CatchAllRef { label }
    } else {
        Clause::CatchAll { label }
    }
}

impl<'a> FromReader<'a> for Clause {
    ghost use Rattle.std.specs.Prelude.{false};
    ghost use Rattle.wasm_operators.specs.declared.clause.Clause.{Clause};
    ghost use Rattle.wasm_operators.specs.Readings.{clause_at};
    ghost use Rattle.wasm_operators.specs.ItemFinals.{clause_final};

    ghost Seen = { Clause };

    ghost seen = { λ clause. clause };

    ghost reading = { λ _. clause_at };

    ghost takes_memory = { false };

    #[tactic(auto, unfolding(crate::specs::Readings::clause_at))]
    fn from_reader(_alloc: Global, reader: &mut BinaryReader<'a>) -> Result<Self> {
        let offset = reader.original_position();
        let byte = got!(reader.read_u8());
        match byte {
            0 | 1 => {
                let tag = got!(reader.read_var_u32());
                let label = got!(reader.read_var_u32());
                Ok(of_tag(byte == 1, tag, label))
            }
            2 | 3 => {
                let label = got!(reader.read_var_u32());
                Ok(of_all(byte == 3, label))
            }
            _ => Err(Error::new(ErrorKind::BadByte, offset)),
        }
    }

    ghost is_final = { λ _. clause_final };
}
