//! What words of rows stand for: ids and block types.

use test_words::{is_none, lower, number};
use walrus_arena::Id;
use walrus_instr::InstrSeqType;
use walrus_types::ValType;

/// A block without parameters and results.
pub(crate) const EMPTY: InstrSeqType = InstrSeqType::Simple(None);

/// The id of this number. It has no contract, so that no caller's proof computes what it makes.
pub(crate) fn id<S>(number: u64) -> Id<S> {
    Id::from_index(lower(number) as usize)
}

/// The block type of a word: `-` without parameters and results, `i32` of that result, else a type by its number.
pub(crate) fn block_type(word: &[u8]) -> InstrSeqType {
    if is_none(word) {
        EMPTY
    } else if word == "i32".as_bytes() {
        InstrSeqType::Simple(Some(ValType::I32))
    } else {
        InstrSeqType::MultiValue(id(number(word)))
    }
}
