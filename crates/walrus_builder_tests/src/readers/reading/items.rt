//! Steps over texts and runs of bytes, and over vecs.

use crate::readers::told::{Told, features, tell, tell_fault};
use std::alloc::Global;
use test_words::{Words, place};
use wasm_reader::limits::MAX_WASM_STRING_SIZE;
use wasm_reader::{BinaryReader, BinaryReaderIter, FromReader, Result, laws};

// At most three numbers, in memory.
#[derive(Drop)]
struct Numbers(Vec<u32>);

impl<'a> FromReader<'a> for Numbers {
    ghost use Rattle.std.specs.Prelude.{ℕ, List, true};
    ghost use Rattle.wasm_reader.specs.Numbers.{unsigned_at};
    ghost use Rattle.wasm_reader.specs.Items.{vec_at};
    ghost use Rattle.wasm_reader.specs.Finals.{unsigned_final, vec_final};

    ghost Seen = { List ℕ };

    ghost seen = { λ n. n.0.items };

    ghost reading = { λ _. vec_at 3 (unsigned_at 32) };

    ghost takes_memory = { true };

    fn from_reader(alloc: Global, reader: &mut BinaryReader<'a>) -> Result<Self> {
        Ok(Numbers(reader.read_vec(alloc, 3)?))
    }

    ghost is_final = { λ _. vec_final 3 (unsigned_at 32) (unsigned_final 32) };
}

impl Told for Numbers {
    fn tell(&self, words: &mut Words<'_>) {
        self.0.tell(words);
    }
}

fn tell_items(items: &mut BinaryReaderIter<'_, '_, u32>, asked: u32, words: &mut Words<'_>) {
    for _ in 0..asked {
        tell(items.next(), words);
    }
}

// A vec of at most so many numbers, of which so many are asked for one by one.
fn read_one_by_one(alloc: Global, reader: &mut BinaryReader<'_>, words: &mut Words<'_>) {
    let limit = words.size() as usize;
    let asked = words.size();
    match reader.read_iter::<u32>(alloc, limit) {
        Ok(mut items) => tell_items(&mut items, asked, words),
        Err(e) => tell_fault(e, words),
    }
}

// In the order of the arms below.
const TEXTS: &str = "string unlimited-string skipped-string text rest-text";

/// Reads a text, if the step does, and says so.
pub fn read_text(
    alloc: Global,
    reader: &mut BinaryReader<'_>,
    step: &[u8],
    words: &mut Words<'_>,
) -> bool {
    match place(TEXTS.as_bytes(), step) {
        0 => tell(reader.read_string(), words),
        1 => tell(reader.read_unlimited_string(), words),
        2 => tell(reader.skip_string(), words),
        3 => tell(reader.read::<&str>(alloc), words),
        4 => tell(reader.shrink().read::<&str>(alloc), words),
        _ => return false,
    }
    true
}

// In the order of the arms below.
const ITEMS: &str = "bytes name-size vec-of-u32 vec-of-vecs one-by-one set-features";

/// Reads many bytes or values, if the step does, and says so. (Or sets what features the reader has.)
pub fn read_items(
    alloc: Global,
    reader: &mut BinaryReader<'_>,
    step: &[u8],
    words: &mut Words<'_>,
) -> bool {
    match place(ITEMS.as_bytes(), step) {
        0 => {
            let size = words.size() as usize;
            tell(reader.read_bytes(size), words);
        }
        1 => tell(reader.read_size(MAX_WASM_STRING_SIZE), words),
        2 => {
            let limit = words.size() as usize;
            tell(reader.read_vec::<u32>(alloc, limit), words);
        }
        3 => tell(reader.read_vec::<Numbers>(alloc, 2), words),
        4 => read_one_by_one(alloc, reader, words),
        5 => reader.set_features(features(words.next())),
        _ => return false,
    }
    true
}

#[test]
fn laws_can_be_cited() {
    laws::values_are_final::<Numbers>();
    laws::fronts_of_values_end_early::<Numbers>();
    laws::offsets_of_values_move::<u32>();
    laws::bytes_are_final();
    laws::numbers_are_final();
    laws::names_are_final();
    laws::fronts_end_early();
    laws::spellings_are_read();
    laws::spellings_are_prefix_free();
    laws::shortest_spellings_are_shortest();
    laws::spellings_fit_their_width();
    laws::numbers_are_refused_exactly();
    laws::offsets_move();
}
