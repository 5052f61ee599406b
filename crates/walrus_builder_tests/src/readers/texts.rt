//! Texts of the Core Specification's text format, of shared and exact types, and of faults.

use crate::readers::references::REFERENCES;
use std::alloc::{AllocError, Global};
use test_words::{are_shown, cut};
use wasm_composite_types::{GlobalType, TypeList};
use wasm_reader::{Error, ErrorKind, WasmFeatures};
use wasm_ref_types::{AbstractHeapType, CoreTypeId, HeapType, RefType, UnpackedIndex, ValType};

// Whether these are the texts that `wat` gives, between which a `;` stands.
fn are_wats(alloc: Global, types: &[RefType], texts: &[u8]) -> Result<bool, AllocError> {
    let mut rest = texts;
    let mut agree = true;
    for ty in types {
        let (wanted, next) = cut(rest, b';');
        agree &= ty.wat(alloc)?.as_bytes() == wanted;
        rest = next;
    }
    Ok(agree & rest.is_empty())
}

// The text of each reference, in their order.
const TEXTS: &[u8] =
    b"(ref null func);(ref func);(ref null extern);(ref extern);(ref null any);(ref any);(ref null none);(ref none);(ref null noextern);(ref noextern);(ref null nofunc);(ref nofunc);(ref null eq);(ref eq);(ref null struct);(ref struct);(ref null array);(ref array);(ref null i31);(ref i31);(ref null exn);(ref exn);(ref null noexn);(ref noexn);(ref null cont);(ref cont);(ref null nocont);(ref nocont)";

fn is_debugged(alloc: Global, ty: ValType, text: &str) -> Result<bool, AllocError> {
    Ok(format!(in alloc; "{ty:?}")?.as_str() == text)
}

#[test]
fn texts_of_types(rt: HostRuntime) {
    assert!(rt; are_shown(rt.alloc(), &REFERENCES, TEXTS));
    assert!(rt; are_wats(rt.alloc(), &REFERENCES, TEXTS) == Ok(true));
    let ty = AbstractHeapType::I31;
    let types = [
        HeapType::FUNC,
        HeapType::Abstract { shared: true, ty },
        HeapType::Concrete(UnpackedIndex::Module(7)),
        HeapType::Exact(UnpackedIndex::RecGroup(12)),
        HeapType::Concrete(UnpackedIndex::Id(CoreTypeId::from_index(3))),
    ];
    assert!(rt; are_shown(rt.alloc(), &types, b"func;(shared i31);7;(exact 12);3"));
    let types = [
        ValType::I32,
        ValType::I64,
        ValType::F32,
        ValType::F64,
        ValType::V128,
        ValType::EXNREF,
    ];
    assert!(rt; are_shown(rt.alloc(), &types, b"i32;i64;f32;f64;v128;(ref null exn)"));
    assert!(rt; is_debugged(rt.alloc(), ValType::EXNREF, "(ref null exn)") == Ok(true));
}

#[test]
fn texts_of_faults(rt: HostRuntime) {
    let faults = [
        Error::new(ErrorKind::EndOfFile(3), 26),
        Error::new(ErrorKind::Feature(WasmFeatures::GC), 0),
        Error::new(ErrorKind::Trailing, 1),
        Error::new(ErrorKind::Memory, 2),
    ];
    let texts =
        b"unexpected end (at offset 0x1a);feature is off (at offset 0x0);trailing bytes (at offset 0x1);out of memory (at offset 0x2)";
    assert!(rt; are_shown(rt.alloc(), &faults, texts));
}

// Whether a list and a global's type are copied.
fn are_copied(alloc: Global) -> Result<bool, AllocError> {
    let types = [ValType::F32, ValType::F64];
    let list = TypeList::from_vec(Vec::from_slice(alloc, &types)?);
    let global = GlobalType {
        content_type: ValType::I32,
        mutable: true,
        shared: false,
    };
    Ok(list.clone()?.into_vec().as_slice() == types.as_slice() && global.clone()? == global)
}

#[test]
fn lists_and_types_of_globals_are_copied(rt: HostRuntime) {
    assert!(rt; are_copied(rt.alloc()) == Ok(true));
}
