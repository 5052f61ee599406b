//! Bodies that are read, and what is written of their trees.

use crate::bench::Bench;
use crate::forms::{EMPTY, id};
use crate::handlers::are_given;
use crate::module::{TestModule, indices};
use crate::validators::Refuser;
use std::alloc::{AllocError, Global};
use test_words::{are_bytes, cut, is_none, lower, number, push_bytes};
use walrus_arena::{DataId, LocalId};
use walrus_body_env::{BodyEnv, BodyError};
use walrus_handler_types::AnyHandler;
use walrus_instr::InstrLocId;
use walrus_items::ModuleLocals;
use walrus_local_function::LocalFunction;
use walrus_types::ValType;
use wasm_features::WasmFeatures;
use wasm_reader::BinaryReader;

fn push_times(bytes: &mut Vec<u8>, count: u64, word: &[u8]) -> Result<(), AllocError> {
    for _ in 0..count {
        push_bytes(bytes, word)?;
    }
    Ok(())
}

// The body of a word: its bytes, or so many blocks inside one another, with what stands behind `*` in the innermost.
fn push_body(bytes: &mut Vec<u8>, word: &[u8]) -> Result<(), AllocError> {
    let (depth, inner) = cut(word, b'*');
    if depth == word {
        return push_bytes(bytes, word);
    }
    let depth = number(depth);
    bytes.push(0x00)?;
    push_times(bytes, depth, "0240".as_bytes())?;
    push_bytes(bytes, inner)?;
    push_times(bytes, depth, "0b".as_bytes())?;
    bytes.push(0x0b)?;
    Ok(())
}

// Whether the operators that have places have these: in the bytes that were read, and in those that are written if another one, each from the
// beginning of the code section's contents. The body stands two bytes behind that.
fn are_placed(places: &[(InstrLocId, usize)], words: &[u8]) -> bool {
    let mut rest = words;
    for (location, at) in places {
        if location.is_default() {
            continue;
        }
        let (word, more) = cut(rest, b',');
        let (from, to) = cut(word, b'/');
        let to = if to.is_empty() { from } else { to };
        if word.is_empty()
            || u64::from(location.data()) != number(from)
            || at.saturating_add(2) as u64 != number(to)
        {
            return false;
        }
        rest = more;
    }
    rest.is_empty()
}

// The same, or whether there are so many, the first of which is the first.
fn are_places(places: &[(InstrLocId, usize)], words: &[u8]) -> bool {
    let (before, count) = cut(words, b'#');
    if !before.is_empty() {
        return are_placed(places, words);
    }
    match places.first() {
        Some((location, at)) => {
            places.len() as u64 == number(count) && location.data() == 3 && *at == 1
        }
        None => false,
    }
}

fn are_segments(named: &[DataId], word: &[u8]) -> bool {
    match named.first() {
        Some(id) => named.len() == 1 && !is_none(word) && id.index() as u64 == number(word),
        None => is_none(word),
    }
}

// Whether it names a data segment, this one alone, if there is one.
fn names(
    alloc: Global,
    function: &LocalFunction,
    uses_segments: bool,
    word: &[u8],
) -> Result<bool, BodyError> {
    let named = function.used_data_segments(alloc)?;
    Ok(are_segments(named.as_slice(), word) && uses_segments != is_none(word))
}

// Writes what was read: its locals, and its operators.
fn write(
    alloc: Global,
    function: &LocalFunction,
    used: &[LocalId],
    bench: &mut Bench,
) -> Result<(), BodyError> {
    function.emit_locals(
        alloc,
        used,
        &bench.locals,
        id(0),
        &mut bench.maps,
        &mut bench.out.bytes,
    )?;
    function.emit_instructions(alloc, id(0), &bench.maps, &mut bench.out)
}

// Whether it is written as a body, with places and a data segment. `=` is the body that was read.
fn is_written(
    alloc: Global,
    function: &LocalFunction,
    bytes: &[u8],
    bench: &mut Bench,
    wanted: &[u8],
) -> Result<bool, BodyError> {
    let (written, rest) = cut(wanted, b' ');
    let (places, segment) = cut(rest, b' ');
    function.size(alloc)?;
    let facts = function.emit_facts(alloc)?;
    write(alloc, function, facts.used_locals.as_slice(), bench)?;
    let out = bench.out.bytes.as_slice();
    let stands = if written == "=".as_bytes() {
        out == bytes
    } else {
        are_bytes(out, written)
    };
    Ok(
        stands
            && are_places(bench.out.places.as_slice(), places)
            && names(alloc, function, facts.uses_data_segments, segment)?,
    )
}

fn is_met(
    alloc: Global,
    function: &mut LocalFunction,
    bytes: &[u8],
    bench: &mut Bench,
    wanted: &[u8],
) -> Result<bool, BodyError> {
    let (kind, types) = cut(wanted, b' ');
    if kind == "types".as_bytes() {
        are_given(alloc, function, &mut bench.types, types)
    } else {
        is_written(alloc, function, bytes, bench, wanted)
    }
}

// Reads a body of the module's first function, and adds its locals.
fn parse<E: BodyEnv>(
    alloc: Global,
    env: &E,
    features: WasmFeatures,
    bytes: &[u8],
    locals: &mut ModuleLocals,
    validator: &mut Refuser,
) -> Result<LocalFunction, BodyError> {
    let start = env.code_start();
    if start >= 0x1_0000_0000 || bytes.len() >= 1_000_000 {
        return Err(BodyError::Memory);
    }
    let mut indices = indices(alloc)?;
    let body = BinaryReader::new_features(bytes, start + 2, features);
    LocalFunction::parse(
        alloc,
        env,
        &mut indices,
        locals,
        id(0),
        id(0),
        EMPTY,
        Vec::new(alloc),
        body,
        validator,
    )
}

fn stands_in<E: BodyEnv>(
    alloc: Global,
    env: &E,
    features: WasmFeatures,
    bytes: &[u8],
    bench: &mut Bench,
    validator: &mut Refuser,
    wanted: &[u8],
) -> Result<bool, BodyError> {
    let mut function = parse(alloc, env, features, bytes, &mut bench.locals, validator)?;
    is_met(alloc, &mut function, bytes, bench, wanted)
}

// What is asked of a body: how it is read, and what is to come of it.
fn outcome(
    alloc: Global,
    module: &TestModule<'_>,
    setting: &[u8],
    bytes: &[u8],
    bench: &mut Bench,
    validator: &mut Refuser,
    wanted: &[u8],
) -> Result<bool, BodyError> {
    let features = if setting == "wasm3".as_bytes() {
        WasmFeatures::WASM3
    } else {
        WasmFeatures::all()
    };
    if setting == "any".as_bytes() {
        let env = AnyHandler::new(module);
        stands_in(alloc, &env, features, bytes, bench, validator, wanted)
    } else {
        stands_in(alloc, module, features, bytes, bench, validator, wanted)
    }
}

// Whether a fault has this number and this offset.
fn is_fault(fault: &BodyError, wanted: &[u8]) -> bool {
    let (kind, offset) = cut(wanted, b' ');
    u64::from(fault.number()) == number(kind)
        && match fault.offset() {
            Some(found) => !is_none(offset) && found == number(offset),
            None => is_none(offset),
        }
}

// Whether all was read and told to the validator, or refused, by it where it refuses what stands somewhere.
fn is_outcome(
    found: &Result<bool, BodyError>,
    validator: Refuser,
    end: u64,
    mark: &[u8],
    wanted: &[u8],
) -> bool {
    match found {
        Ok(stands) => *stands && mark == "|".as_bytes() && validator.last == end,
        Err(fault) => {
            mark == "!".as_bytes()
                && is_fault(fault, wanted)
                && (validator.at == 0 || validator.last == validator.at)
        }
    }
}

fn is_so(alloc: Global, setting: &[u8], row: &[u8], bytes: &[u8], bench: &mut Bench) -> bool {
    let (start, rest) = cut(row, b' ');
    let (at, rest) = cut(rest, b' ');
    let (_, rest) = cut(rest, b' ');
    let (mark, wanted) = cut(rest, b' ');
    let one = [ValType::I32];
    let module = TestModule {
        one: &one,
        has_data_count: setting == "counted".as_bytes(),
        code_start: lower(number(start)),
    };
    let mut validator = Refuser {
        at: number(at),
        last: 0,
    };
    let found = outcome(
        alloc,
        &module,
        setting,
        bytes,
        bench,
        &mut validator,
        wanted,
    );
    let end = number(start)
        .saturating_add(2)
        .saturating_add(bytes.len() as u64);
    is_outcome(&found, validator, end, mark, wanted)
}

/// Whether a body is read in such a module as the row says.
pub(crate) fn stands(
    alloc: Global,
    setting: &[u8],
    row: &[u8],
    bench: &mut Bench,
) -> Result<bool, AllocError> {
    let (_, rest) = cut(row, b' ');
    let (_, rest) = cut(rest, b' ');
    let (body, _) = cut(rest, b' ');
    let mut bytes = Vec::new(alloc);
    push_body(&mut bytes, body)?;
    Ok(is_so(alloc, setting, row, bytes.as_slice(), bench))
}
