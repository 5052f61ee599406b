//! What is written of a table of types, and read again.
ghost use Rattle.std.specs.Prelude.{map};
ghost use Rattle.walrus_forms.specs.Records.{type_group};
ghost use Rattle.walrus_types.specs.Parsing.{AreBelow};

use crate::tables::records::is_group;
use crate::tables::words::{are_ids, is_number, number};
use std::alloc::{AllocError, Global};
use test_words::{cut, head};
use walrus_arena::TypeId;
use walrus_types::{EmittedTypes, GroupRecord, IrError, ModuleTypes, TypeIndices};

fn are_groups(groups: &[GroupRecord], words: &[u8]) -> bool {
    let mut agree = true;
    let mut rest = words;
    for group in groups {
        let (word, behind) = cut(rest, b' ');
        rest = behind;
        agree &= !word.is_empty() && is_group(group, word);
    }
    agree && rest.is_empty()
}

// Whether the types of the ids 0, 1 and so on have these indices, and the next none.
fn are_indices(indices: &TypeIndices, list: &[u8]) -> bool {
    let mut agree = true;
    let mut rest = list;
    for at in 0..u32::MAX {
        let (word, behind) = cut(rest, b',');
        agree &= is_number(indices.get(TypeId::from_index(at as usize)), word);
        if rest.is_empty() {
            break;
        }
        rest = behind;
    }
    agree
}

// Whether so many types are written, each at its own number.
fn is_in_order(emitted: &EmittedTypes, count: u32) -> bool {
    let mut agree = emitted.groups.len() == count as usize;
    for k in 0..count {
        agree &= emitted.indices.get(TypeId::from_index(k as usize)) == Some(k);
    }
    agree
}

// Whether these groups are written, and the types at these indices, in this order.
fn are_written(emitted: &EmittedTypes, words: &[u8]) -> bool {
    let (groups, rest) = cut(words, b'@');
    let (indices, order) = cut(rest, b'#');
    are_groups(emitted.groups.as_slice(), groups)
        && are_indices(&emitted.indices, indices)
        && (order.is_empty() || are_ids(emitted.ids.as_slice(), order))
}

fn is_copied(alloc: Global, emitted: &EmittedTypes, words: &[u8]) -> Result<bool, AllocError> {
    Ok(are_written(&emitted.clone(alloc)?, words))
}

// Whether what is written is this, and copies say the same.
fn is_written(alloc: Global, emitted: &EmittedTypes, words: &[u8]) -> Result<bool, AllocError> {
    if b'0' <= head(words) && head(words) <= b'9' {
        return Ok(is_in_order(emitted, number(words)));
    }
    Ok(are_written(emitted, words) && is_copied(alloc, emitted, words)?)
}

fn word_of(fault: IrError) -> &'static str {
    match fault {
        IrError::Memory => "!memory",
        IrError::WrongCount => "!count",
        IrError::Dead => "!dead",
        IrError::EntryOnly => "!entry",
        IrError::Later => "!later",
    }
}

fn writes(alloc: Global, types: &ModuleTypes, words: &[u8]) -> Result<bool, AllocError> {
    match types.emit() {
        Ok(emitted) => is_written(alloc, &emitted, words),
        Err(fault) => Ok(word_of(fault).as_bytes() == words),
    }
}

// Whether a new table that reads the groups has as many types, and writes the same.
fn is_read(types: &mut ModuleTypes, first: &EmittedTypes) -> Result<bool, IrError>
    requires { AreBelow 0 (map type_group first.now.groups.items) }
{
    let ids = types.parse_types(first.groups.as_slice())?;
    let second = types.emit()?;
    Ok(
        ids.len() == first.ids.len()
            && second.ids.as_slice() == ids.as_slice()
            && second.groups.as_slice() == first.groups.as_slice(),
    )
}

fn is_steady(alloc: Global, first: &EmittedTypes) -> Result<bool, IrError>
    requires { AreBelow 0 (map type_group first.now.groups.items) }
{
    let mut types = ModuleTypes::new(alloc);
    is_read(&mut types, first)
}

// Whether a second round changes nothing.
fn is_settled(alloc: Global, types: &ModuleTypes) -> Result<bool, IrError> {
    let first = types.emit()?;
    is_steady(alloc, &first)
}

/// Whether the table writes what stands behind a `|`, if anything does:
///
/// - the groups (see `records`), behind an `@` the index of each type, and behind a `#` the ids in their order;
/// - a number, where so many types are written, each at its own;
/// - behind a `!` the fault of the first name with which anything is wrong.
///
/// Behind two `|` what is written is also read by a new table and written again, and nothing changes.
pub(crate) fn are_so(alloc: Global, types: &ModuleTypes, rest: &[u8]) -> Result<bool, IrError> {
    let (mark, words) = cut(rest, b' ');
    if rest.is_empty() {
        return Ok(true);
    }
    let is_settled = mark.is_empty() || is_settled(alloc, types)?;
    Ok(is_settled && writes(alloc, types, words)?)
}
