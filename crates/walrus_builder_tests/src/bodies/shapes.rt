//! Which bodies nest, and which are trees.
use crate::bodies::forms::{id, number};
use std::alloc::{AllocError, Global};
use test_words::{cut, next, place};
use walrus_builder::{FunctionBuilder, check_nesting};
use walrus_tree::check_tree;

// Whether the sequence of the number is what stands behind it.
fn has_shape(alloc: Global, body: &FunctionBuilder, word: &[u8]) -> Result<bool, AllocError> {
    let (start, shape) = cut(word, b':');
    let start = id(number(start));
    let shape = place("none nests tree".as_bytes(), shape);
    let nests = check_nesting(alloc, body, start)?;
    let is_tree = check_tree(alloc, body, start)?;
    Ok(shape < 3 && nests == (shape != 0) && is_tree == (shape == 2))
}

/// Whether all sequences of the words are what those say.
pub fn have_shapes(
    alloc: Global,
    body: &FunctionBuilder,
    words: &[u8],
) -> Result<bool, AllocError> {
    let mut rest = words;
    for _ in 0..words.len() {
        let (word, more) = next(rest);
        if !has_shape(alloc, body, word)? {
            return Ok(false);
        }
        if more.is_empty() {
            return Ok(body.func_body_id().index() == 0);
        }
        rest = more;
    }
    Ok(false)
}
