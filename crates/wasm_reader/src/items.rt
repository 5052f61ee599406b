//! The items of a vec, one by one.

ghost use Rattle.std.specs.Prelude.{◌≡◌, ◌-◌, ◌≤◌, IfOk, IfErr, Ok, Err};
ghost use Rattle.std.specs.Iterator.{at_most};

use crate::error::Result;
use crate::from_reader::FromReader;
use crate::reader::BinaryReader;
use std::alloc::Global;
use std::marker::PhantomData;

/// Reads the items of a vec one by one, and none after a first fault. Where it is dropped, it still reads those to come, up to
/// a first fault.
pub struct BinaryReaderIter<'a, 'me, T: FromReader<'a>> {
    reader: &'me mut BinaryReader<'a>,
    alloc: Global,
    remaining: usize,
    item: PhantomData<T>,
}

impl<'a, 'me, T: FromReader<'a>> Iterator for BinaryReaderIter<'a, 'me, T> {
    ghost use Rattle.std.specs.Prelude.{◌≡◌};
    ghost use Rattle.wasm_reader.specs.Iter.{GivesNext};

    type Item = Result<T>;

    ghost remaining = { λ s. at_most s.remaining };

    ghost next_gives = { λ s r t. GivesNext T.takes_memory T.reading T.seen s.reader.now t.reader.now s.remaining t.remaining r × (t.reader.ghost_name ≡ s.reader.ghost_name) };

    fn next(&mut self) -> Option<Result<T>> {
        if self.remaining == 0 {
            return None;
        }
        let item = self.reader.read(self.alloc);
        self.remaining = if item.is_ok() { self.remaining - 1 } else { 0 };
        Some(item)
    }
}

impl<'a, 'me, T: FromReader<'a>> Drop for BinaryReaderIter<'a, 'me, T> {
    ghost use Rattle.wasm_reader.specs.Iter.{PassesRest};

    fn drop(self)
        ensures { PassesRest T.takes_memory T.reading self.entry.reader.now self.exit.0.now self.entry.remaining }
    {
        let BinaryReaderIter {
            reader,
            alloc,
            remaining,
            item: _,
        } = self;
        let _ = reader.pass_items::<T>(alloc, remaining);
    }
}

impl<'a> BinaryReader<'a> {
    ghost use Rattle.wasm_reader.specs.Cursor.{rest, end_of};
    ghost use Rattle.wasm_reader.specs.Reading.{Reads, plain, fault};
    ghost use Rattle.wasm_reader.specs.Items.{ReadsBy, passed_at};
    ghost use Rattle.wasm_reader.specs.Text.{size_at};

    /// A count of at most `limit`, and then that many items, read one by one.
    /// Refused as the count is: a greater one is `Limit` at its first byte.
    pub fn read_iter<'me, T: FromReader<'a>>(
        &'me mut self,
        alloc: Global,
        limit: usize,
    ) -> Result<BinaryReaderIter<'a, 'me, T>>
        ensures same_reference { IfOk result (λ it. it.reader.ghost_name ≡ self.entry.ghost_name) }
        ensures count { IfOk result (λ it. Reads (size_at limit) plain self.old it.reader.now (Ok it.remaining)) }
        ensures fault { IfErr result (λ e. (size_at limit (rest self.old) ≡ Err (fault e.kind (end_of self.old - e.offset))) × (e.offset ≤ end_of self.old)) }
    {
        let remaining = self.read_size(limit)?;
        Ok(BinaryReaderIter {
            reader: self,
            alloc,
            remaining,
            item: PhantomData,
        })
    }

    // Items that are read and let go.
    fn pass_items<T: FromReader<'a>>(&mut self, alloc: Global, count: usize) -> Result<()>
        ensures { ReadsBy T.takes_memory (passed_at (T.reading self.old.window.features) count) plain self.old self.new result }
    {
        for _ in 0..count {
            self.read::<T>(alloc)?;
        }
        Ok(())
    }
}
