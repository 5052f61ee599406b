//! Handlers of a legacy `try` are given their types once their body was read.

use crate::forms::{block_type, id};
use crate::module::TestModule;
use std::alloc::Global;
use test_words::cut;
use walrus_body_env::BodyError;
use walrus_handler_types::tree::check_tree;
use walrus_handler_types::{give_types, handlers};
use walrus_instr::InstrSeq;
use walrus_local_function::LocalFunction;
use walrus_types::{ModuleTypes, ValType};

// Gives the handlers of a body that was read beside some type for each theirs.
fn handle(
    alloc: Global,
    function: &mut LocalFunction,
    types: &mut ModuleTypes,
) -> Result<(), BodyError> {
    let one = [ValType::I32];
    let module = TestModule {
        one: &one,
        has_data_count: false,
        code_start: 27,
    };
    if !check_tree(alloc, function.builder(), function.entry_block())? {
        return Err(BodyError::NoTree);
    }
    let told = handlers(alloc, &module, function.builder())?;
    give_types(alloc, told.as_slice(), types, function.builder_mut())?;
    Ok(())
}

// Whether the sequences have the types of these words.
fn have_types(seqs: &[InstrSeq], words: &[u8]) -> bool {
    let mut rest = words;
    for seq in seqs {
        let (word, more) = cut(rest, b',');
        if word.is_empty() || seq.ty.get() != block_type(word) {
            return false;
        }
        rest = more;
    }
    rest.is_empty()
}

// Whether one type was added to the first two.
fn has_three(types: &ModuleTypes) -> bool {
    types.contains(id(2)) && !types.contains(id(3))
}

/// Whether the sequences have these types then.
pub(crate) fn are_given(
    alloc: Global,
    function: &mut LocalFunction,
    types: &mut ModuleTypes,
    words: &[u8],
) -> Result<bool, BodyError> {
    handle(alloc, function, types)?;
    Ok(has_three(types) && have_types(function.builder().seqs(), words))
}
