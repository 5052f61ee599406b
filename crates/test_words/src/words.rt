//! Words in texts, with a blank between them.

/// What stands before the first such byte, and what stands behind it; all and nothing where there is none.
pub fn cut(text: &[u8], by: u8) -> (&[u8], &[u8]) {
    for at in 0..text.len() {
        if text[at] == by {
            return (&text[..at], &text[at + 1..]);
        }
    }
    (text, &text[text.len()..])
}

/// The next word, which may have a blank before it, and what stands behind it.
pub fn next(text: &[u8]) -> (&[u8], &[u8]) {
    let (word, rest) = cut(text, b' ');
    if word.is_empty() {
        cut(rest, b' ')
    } else {
        (word, rest)
    }
}

/// The word of the list at this place, from 0 on.
pub fn nth(list: &[u8], place: u32) -> &[u8] {
    let mut rest = list;
    for _ in 0..place {
        let (_, more) = cut(rest, b' ');
        rest = more;
    }
    let (word, _) = cut(rest, b' ');
    word
}

/// Which word of the list this is, from 0 on; 100 where it is none of them.
pub fn place(list: &[u8], word: &[u8]) -> u32 {
    let mut rest = list;
    for at in 0..100 {
        let (found, more) = cut(rest, b' ');
        if found == word {
            return at;
        }
        if more.is_empty() {
            return 100;
        }
        rest = more;
    }
    100
}

/// The first byte of a word, and 0 of none.
pub fn head(word: &[u8]) -> u8 {
    if word.is_empty() { 0 } else { word[0] }
}

/// Whether it is a single `-`, which stands for none.
pub fn is_none(word: &[u8]) -> bool {
    word == "-".as_bytes()
}
