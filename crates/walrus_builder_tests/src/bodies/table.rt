//! The rows of bodies and of constant expressions.
use crate::bodies::constants;
use crate::bodies::forms::{block_type, id, number};
use crate::bodies::instrs::adds_rows;
use crate::bodies::rows::{BUILT, CHANGED, CONSTANTS, FORMS, LONG, MORE, NESTS, TOLD, TREES};
use crate::bodies::shapes::have_shapes;
use crate::bodies::steps::take;
use crate::bodies::view::are_seqs;
use crate::bodies::walks::told::{Walk, are_copies, has_length, is_changed, tells};
use std::alloc::{AllocError, Global};
use test_words::{cut, next, place};
use walrus_builder::FunctionBuilder;

// Whether a function has the name that it is given, and none before.
fn takes_name(body: &mut FunctionBuilder) -> Result<bool, AllocError> {
    let had_none = body.name.is_none();
    body.name("n")?;
    Ok(had_none && matches!(&body.name, Some(name) if name.as_str() == "n"))
}

fn is_built(alloc: Global, body: &FunctionBuilder, text: &[u8]) -> Result<bool, AllocError> {
    Ok(are_seqs(body.seqs(), text) && are_copies(alloc, body.seqs(), false, text)?)
}

fn number_of(text: &[u8]) -> u64 {
    let (word, _) = next(text);
    number(word)
}

const KINDS: &str = "built changed listed order body changing length trees names forms more list";

fn is_so(
    alloc: Global,
    body: &mut FunctionBuilder,
    kind: u32,
    row: &[u8],
) -> Result<bool, AllocError> {
    let (steps, wanted) = cut(row, b'|');
    take(alloc, body, steps)?;
    match kind {
        0 => is_built(alloc, body, wanted),
        1 => is_changed(alloc, body, wanted),
        2 => are_copies(alloc, body.seqs(), true, wanted),
        3 => tells(alloc, body, Walk::InOrder, wanted),
        4 => tells(alloc, body, Walk::OfBody, wanted),
        5 => tells(alloc, body, Walk::Changing, wanted),
        6 => has_length(alloc, body, number_of(wanted)),
        7 => have_shapes(alloc, body, wanted),
        8 => takes_name(body),
        9 => adds_rows(alloc, body.func_body(), FORMS),
        10 => adds_rows(alloc, body.func_body(), MORE),
        11 => tells(alloc, body, Walk::OfList, wanted),
        _ => Ok(false),
    }
}

fn body_stands(alloc: Global, row: &[u8]) -> Result<bool, AllocError> {
    let (kind, rest) = cut(row, b' ');
    let (ty, rest) = cut(rest, b' ');
    let mut body = FunctionBuilder::with_types(alloc, id(0), block_type(ty))?;
    is_so(alloc, &mut body, place(KINDS.as_bytes(), kind), rest)
}

#[derive(Clone, Copy)]
enum Table {
    Built,
    Changed,
    Told,
    Trees,
    Nests,
    Long,
    Constants,
}

fn text_of(table: Table) -> &'static str {
    match table {
        Table::Built => BUILT,
        Table::Changed => CHANGED,
        Table::Told => TOLD,
        Table::Trees => TREES,
        Table::Nests => NESTS,
        Table::Long => LONG,
        Table::Constants => CONSTANTS,
    }
}

fn stands(alloc: Global, table: Table, row: &[u8]) -> Result<bool, AllocError> {
    match table {
        Table::Constants => constants::stands(alloc, row),
        _ => body_stands(alloc, row),
    }
}

fn is_remark(row: &[u8]) -> bool {
    let (front, _) = cut(row, b'/');
    front.is_empty()
}

// How many rows stand, before the first that doesn't.
fn stand(alloc: Global, table: Table) -> Result<u32, AllocError> {
    let text = text_of(table);
    let mut rest = text.as_bytes();
    let mut count = 0u32;
    for _ in 0..text.len() {
        let (row, more) = cut(rest, b'\n');
        if is_remark(row) {
            rest = more;
            continue;
        }
        if !stands(alloc, table, row)? {
            return Ok(count);
        }
        count = count.saturating_add(1);
        if more.is_empty() {
            return Ok(count);
        }
        rest = more;
    }
    Ok(count)
}

// With how many rows there are.
const ALL: [(Table, u32); 5] = [
    (Table::Built, 16),
    (Table::Changed, 3),
    (Table::Told, 9),
    (Table::Trees, 36),
    (Table::Constants, 13),
];

#[test]
fn rows(rt: HostRuntime) {
    for (table, count) in ALL {
        assert!(rt; stand(rt.alloc(), table) == Ok(count));
    }
}

#[test]
fn nests(rt: HostRuntime) {
    assert!(rt; stand(rt.alloc(), Table::Nests) == Ok(3));
}

#[test]
fn long_walks(rt: HostRuntime) {
    assert!(rt; stand(rt.alloc(), Table::Long) == Ok(2));
}
