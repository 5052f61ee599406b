//! The types of references that have names.

use test_words::{Words, place};
use wasm_ref_types::RefType;

/// The types that have names.
pub const REFERENCES: [RefType; 28] = [
    RefType::FUNCREF,
    RefType::FUNC,
    RefType::EXTERNREF,
    RefType::EXTERN,
    RefType::ANYREF,
    RefType::ANY,
    RefType::NULLREF,
    RefType::NONE,
    RefType::NULLEXTERNREF,
    RefType::NOEXTERN,
    RefType::NULLFUNCREF,
    RefType::NOFUNC,
    RefType::EQREF,
    RefType::EQ,
    RefType::STRUCTREF,
    RefType::STRUCT,
    RefType::ARRAYREF,
    RefType::ARRAY,
    RefType::I31REF,
    RefType::I31,
    RefType::EXNREF,
    RefType::EXN,
    RefType::NULLEXNREF,
    RefType::NOEXN,
    RefType::CONTREF,
    RefType::CONT,
    RefType::NULLCONTREF,
    RefType::NOCONT,
];

// Their names, in the same order.
const NAMES: &str =
    "FUNCREF FUNC EXTERNREF EXTERN ANYREF ANY NULLREF NONE NULLEXTERNREF NOEXTERN NULLFUNCREF NOFUNC EQREF EQ STRUCTREF STRUCT ARRAYREF ARRAY I31REF I31 EXNREF EXN NULLEXNREF NOEXN CONTREF CONT NULLCONTREF NOCONT";

/// The type that the next word names.
pub fn constant(words: &mut Words<'_>) -> RefType {
    let at = place(NAMES.as_bytes(), words.next()) as usize;
    words.ask(at < 28);
    if at < 28 {
        REFERENCES[at]
    } else {
        RefType::NOCONT
    }
}
