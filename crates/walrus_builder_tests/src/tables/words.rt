//! Numbers and ids that words stand for.

use test_words::{cut, lower};
use walrus_arena::TypeId;

/// The digits of a word as a number.
pub(crate) fn number(word: &[u8]) -> u32 {
    lower(test_words::number(word))
}

/// Whether it is the number of the word, or none where the word has no number (`-`, or nothing).
pub(crate) fn is_number(found: Option<u32>, word: &[u8]) -> bool {
    let is_none = word.is_empty() || word[0] == b'-';
    match found {
        Some(found) => !is_none && found == number(word),
        None => is_none,
    }
}

/// Whether it is the id of the word's number.
pub(crate) fn is_id(found: TypeId, word: &[u8]) -> bool {
    is_number(Some(found.number()), word)
}

/// Whether these are the ids of a list of numbers.
pub(crate) fn are_ids(ids: &[TypeId], list: &[u8]) -> bool {
    let mut agree = true;
    let mut rest = list;
    for id in ids {
        let (word, behind) = cut(rest, b',');
        rest = behind;
        agree &= is_id(*id, word);
    }
    agree && rest.is_empty()
}
