//! Records as words: forms as those of types, with indices in place of ids.
//!
//! Behind the form of a type stands a `/` with `final` or `open`, where it is told, and a `<` with its supertype; a form alone is final, without
//! supertype. Types of a group stand with `&` between them, a marked group with `+` before it.

use crate::tables::values::{Word, are};
use crate::tables::words::number;
use test_words::{cut, head};
use walrus_forms::{CompositeRecord, FieldRecord, GroupRecord, TypeRecord};

fn is_record(form: &CompositeRecord, word: &[u8]) -> bool {
    let (_, args) = cut(word, b':');
    match form {
        CompositeRecord::Function { params, results } => {
            let (from, to) = cut(args, b'>');
            head(word) == b'f' && are(params.as_slice(), from) && are(results.as_slice(), to)
        }
        CompositeRecord::Struct { fields } => { head(word) == b's' && are(fields.as_slice(), args) }
        CompositeRecord::Array { field } => head(word) == b'a' && *field == FieldRecord::of(args),
    }
}

// The supertype that a word's mark tells.
fn supertype(mark: &[u8]) -> Option<u32> {
    let (_, number_of) = cut(mark, b'<');
    if number_of.is_empty() {
        None
    } else {
        Some(number(number_of))
    }
}

fn is_type(ty: &TypeRecord, word: &[u8]) -> bool {
    let (form, mark) = cut(word, b'/');
    is_record(&ty.kind, form)
        && ty.is_final == (head(mark) != b'o')
        && ty.supertype == supertype(mark)
}

/// Whether it is the group of a word.
pub(crate) fn is_group(group: &GroupRecord, word: &[u8]) -> bool {
    let (before, behind) = cut(word, b'+');
    let mut rest = if before.is_empty() { behind } else { before };
    let mut agree = group.marked == before.is_empty();
    for ty in group.types.as_slice() {
        let (first, behind) = cut(rest, b'&');
        rest = behind;
        agree &= is_type(ty, first);
    }
    agree && rest.is_empty()
}
