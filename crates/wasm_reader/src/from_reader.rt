//! Values that are read by their type.

ghost use Rattle.std.specs.Prelude.{ℕ, List, Bool};
ghost use Rattle.wasm_features.specs.declared.WasmFeatures.{WasmFeatures};
ghost use Rattle.wasm_reader.specs.Reading.{Reading};
ghost use Rattle.wasm_reader.specs.Items.{ReadsBy, ReadsUnlessMemory, items_at, vec_at, seen_items};
ghost use Rattle.wasm_reader.specs.Laws.{IsFinal};

use crate::error::Result;
use crate::reader::BinaryReader;
use std::alloc::Global;
use wasm_features::WasmFeatures;

/// A value that a reader reads by its type.
pub trait FromReader<'a>: Sized + Drop {
    // what contracts see of a value
    ghost Seen: { Type 0 };

    ghost seen: { Self → Seen };

    // what its bytes are read as, under the features that are on
    ghost reading: { WasmFeatures → List ℕ → Reading Seen };

    // reading it takes memory
    ghost takes_memory: { Bool };

    /// Reads a value. Where memory is refused that it takes, the fault is `Memory` at the reader's position.
    fn from_reader(alloc: Global, reader: &mut BinaryReader<'a>) -> Result<Self>
        ensures { ReadsBy takes_memory (reading reader.old.window.features) seen reader.old reader.new result };

    // what is read, the end of the bytes aside, is final whatever bytes follow, and the hint is exact
    ghost is_final: { (features : WasmFeatures) → IsFinal (reading features) };
}

/// A u32, as [`BinaryReader::read_var_u32`] reads it.
impl<'a> FromReader<'a> for u32 {
    ghost use Rattle.std.specs.Prelude.{ℕ, false};
    ghost use Rattle.wasm_reader.specs.Numbers.{unsigned_at};
    ghost use Rattle.wasm_reader.specs.Finals.{unsigned_final};

    ghost Seen = { ℕ };

    ghost seen = { λ n. n };

    ghost reading = { λ _. unsigned_at 32 };

    ghost takes_memory = { false };

    fn from_reader(_alloc: Global, reader: &mut BinaryReader<'a>) -> Result<Self> {
        reader.read_var_u32()
    }

    ghost is_final = { λ _. unsigned_final 32 };
}

/// A name, as [`BinaryReader::read_string`] reads it.
impl<'a> FromReader<'a> for &'a str {
    ghost use Rattle.std.specs.Prelude.{ℕ, List, false};
    ghost use Rattle.wasm_reader.specs.Reading.{seen_bytes};
    ghost use Rattle.wasm_reader.specs.Text.{string_at};
    ghost use Rattle.wasm_reader.specs.Finals.{string_final};

    ghost Seen = { List ℕ };

    ghost seen = { seen_bytes };

    ghost reading = { λ _. string_at };

    ghost takes_memory = { false };

    fn from_reader(_alloc: Global, reader: &mut BinaryReader<'a>) -> Result<Self> {
        reader.read_string()
    }

    ghost is_final = { λ _. string_final };
}

impl<'a> BinaryReader<'a> {
    /// A value, read by its type. Refused as [`FromReader::from_reader`] is.
    pub fn read<T: FromReader<'a>>(&mut self, alloc: Global) -> Result<T>
        ensures { ReadsBy T.takes_memory (T.reading self.old.window.features) T.seen self.old self.new result }
    {
        T::from_reader(alloc, self)
    }

    /// A count of at most `limit`, and that many values (Core Specification, binary format, conventions: vectors).
    /// Nothing is reserved by the count. A greater count is `Limit` at its first byte.
    #[tactic(auto, unfolding(crate::specs::Items::vec_at))]
    pub fn read_vec<T: FromReader<'a>>(&mut self, alloc: Global, limit: usize) -> Result<Vec<T>>
        ensures { ReadsUnlessMemory (vec_at limit (T.reading self.old.window.features)) (seen_items T.seen) self.old self.new result }
    {
        let count = self.read_size(limit)?;
        self.read_items(alloc, count)
    }

    fn read_items<T: FromReader<'a>>(&mut self, alloc: Global, count: usize) -> Result<Vec<T>>
        ensures { ReadsUnlessMemory (items_at (T.reading self.old.window.features) count) (seen_items T.seen) self.old self.new result }
    {
        let mut items = Vec::new(alloc);
        for _ in 0..count {
            let item = T::from_reader(alloc, self)?;
            if items.push(item).is_err() {
                return Err(self.out_of_memory());
            }
        }
        Ok(items)
    }
}
