//! The parts of a module, one behind another.
#![tactic(auto, using(walrus_emit_parts::proofs::Lemmas::writes_on, walrus_emit_parts::proofs::Lemmas::refused_front, crate::proofs::WholeLemmas::refused_later))]

ghost use Rattle.std.specs.Prelude.{◌≡◌, ◌+◌, ◌++◌, length, IfOk, OnOk};
ghost use Rattle.walrus_customs.specs.Producers.{fields_of};
ghost use Rattle.walrus_index_maps.specs.Maps.{no_indices};
ghost use Rattle.walrus_index_maps.specs.Views.{indices};
ghost use Rattle.walrus_meaning.specs.Meaning.{means};
ghost use Rattle.walrus_module.specs.Parts.{parts};
ghost use Rattle.walrus_module.specs.walrus_body_writer.walrus_pairing.Looks.{number_of};
ghost use Rattle.walrus_payload_writers.specs.Producers.{producers_section};
ghost use Rattle.walrus_emit_code.specs.Code.{bodies_numbers, facts_at};
ghost use Rattle.walrus_emit_code.specs.Code as code;
ghost use Rattle.walrus_emit_code.specs.Places.{code_start};
ghost use Rattle.walrus_emit_numbers.specs.Numbers.{functions_at};
ghost use Rattle.walrus_emit_numbers.specs.Order.{AreWithin};
ghost use Rattle.walrus_emit_parts.specs.Due.{Writes, written};
ghost use Rattle.walrus_emit_due.specs.FunctionTypes.{function_types};
ghost use Rattle.walrus_emit.specs.Whole as due;
ghost use Rattle.walrus_emit_customs.specs.Names.{names_due};
ghost use Rattle.std.specs.List.{list_any};

use std::alloc::{AllocError, Global};
use walrus_arena::FunctionId;
use walrus_emit_code::{Code, Emission, emit_functions};
use walrus_emit_customs::{emit_names, write_sections};
use walrus_emit_numbers::{BodyFacts, names_data};
use walrus_emit_parts::write_bytes;
use walrus_emit_sections::{
    emit_data, emit_exports, emit_globals, emit_memories, emit_tables, emit_tags,
};
use walrus_emit_types::emit_types;
use walrus_emit_uses::{
    emit_data_count, emit_elements, emit_function_types, emit_imports, emit_start,
};
use walrus_errors::{ModuleError, Result};
use walrus_index_maps::IdsToIndices;
use walrus_module::Module;
use walrus_payload_writers::write_producers;
use walrus_sections::{CustomSection, Sections};
use walrus_types::EmittedTypes;

const HEADER: [u8; 8] = [0x00, 0x61, 0x73, 0x6d, 0x01, 0x00, 0x00, 0x00];

// The header, and the custom sections that stand first. They are asked with no numbers given.
fn write_first<B: CustomSection>(
    alloc: Global,
    out: &mut Vec<u8>,
    sections: &Sections<B>,
) -> Result<()>
    ensures { Writes (due.first B.own_name B.contents sections.now) out.old.items out.new.items result }
{
    put!(write_bytes(out, &HEADER));
    let none = IdsToIndices::new(alloc);
    write_sections(alloc, out, sections, true, &none)
}

// The functions with bodies, in the order in which they are written.
fn ordered(
    alloc: Global,
    facts: &[BodyFacts],
    order: &[usize],
) -> std::result::Result<Vec<FunctionId>, AllocError>
    requires { AreWithin facts.now order.now }
    ensures { IfOk result (λ functions. functions.items ≡ functions_at facts.now order.now) }
{
    let mut functions = Vec::with_capacity(alloc, order.len())?;
    for at in order {
        functions.push(facts[*at].function)?;
    }
    Ok(functions)
}

// The types of the functions with bodies.
#[tactic(auto, using(crate::proofs::WholeLemmas::wanted))]
fn write_functions<B>(
    alloc: Global,
    out: &mut Vec<u8>,
    input: &Module<B>,
    facts: &[BodyFacts],
    order: &[usize],
    maps: &IdsToIndices,
) -> Result<()>
    requires { AreWithin facts.now order.now }
    ensures { Writes (function_types (number_of (indices maps.now) 0) (means (parts input.now)).functions (functions_at facts.now order.now)) out.old.items out.new.items result }
{
    let functions = match ordered(alloc, facts, order) {
        Ok(functions) => functions,
        Err(_) => return Err(ModuleError::Memory),
    };
    emit_function_types(out, &input.funcs, functions.as_slice(), maps)
}

// Types, imports, the types of functions.
fn write_front<B>(
    alloc: Global,
    out: &mut Vec<u8>,
    input: &Module<B>,
    types: &EmittedTypes,
    facts: &[BodyFacts],
    order: &[usize],
    maps: &IdsToIndices,
) -> Result<()>
    requires { AreWithin facts.now order.now }
    ensures { Writes (due.front (number_of (indices maps.now) 0) (means (parts input.now)) types.now (functions_at facts.now order.now)) out.old.items out.new.items result }
{
    put!(emit_types(out, types));
    put!(emit_imports(out, input, maps));
    write_functions(alloc, out, input, facts, order, maps)
}

// Tables, memories, tags, globals, exports.
fn write_own_items<B>(out: &mut Vec<u8>, input: &Module<B>, maps: &IdsToIndices) -> Result<()>
    ensures { Writes (due.own_items (number_of (indices maps.now) 0) (means (parts input.now))) out.old.items out.new.items result }
{
    put!(emit_tables(out, &input.tables, maps));
    put!(emit_memories(out, &input.memories));
    put!(emit_tags(out, &input.tags, maps));
    put!(emit_globals(out, &input.globals, maps));
    emit_exports(out, &input.exports, maps)
}

// The start function, element segments, how many data segments.
fn write_uses<B>(
    out: &mut Vec<u8>,
    input: &Module<B>,
    is_named: bool,
    maps: &IdsToIndices,
) -> Result<()>
    ensures { Writes (due.uses (number_of (indices maps.now) 0) (means (parts input.now)) is_named) out.old.items out.new.items result }
{
    put!(emit_start(out, input.start, maps));
    put!(emit_elements(out, &input.elements, &input.tables, maps));
    emit_data_count(out, &input.data_segments, is_named)
}

// The standard sections in front of code.
fn write_before_code<B>(
    alloc: Global,
    out: &mut Vec<u8>,
    input: &Module<B>,
    types: &EmittedTypes,
    facts: &[BodyFacts],
    order: &[usize],
    maps: &IdsToIndices,
) -> Result<()>
    requires { AreWithin facts.now order.now }
    ensures { Writes (due.before_code (number_of (indices maps.now) 0) (means (parts input.now)) types.now (functions_at facts.now order.now) (list_any (λ body. body.uses_data_segments) facts.now)) out.old.items out.new.items result }
{
    put!(write_front(alloc, out, input, types, facts, order, maps));
    put!(write_own_items(out, input, maps));
    write_uses(out, input, names_data(facts), maps)
}

// What stands in front of code.
fn write_opening<B: CustomSection>(
    alloc: Global,
    out: &mut Vec<u8>,
    input: &Module<B>,
    types: &EmittedTypes,
    facts: &[BodyFacts],
    order: &[usize],
    maps: &IdsToIndices,
) -> Result<()>
    requires { AreWithin facts.now order.now }
    ensures { Writes (due.opening B.own_name B.contents input.now facts.now order.now types.now (indices maps.now)) out.old.items out.new.items result }
{
    put!(write_first(alloc, out, &input.customs));
    write_before_code(alloc, out, input, types, facts, order, maps)
}

// Code. The locals of functions get their numbers.
fn write_code<B>(
    alloc: Global,
    emission: &mut Emission,
    input: &Module<B>,
    facts: &[BodyFacts],
    order: &[usize],
) -> Result<()>
    requires { AreWithin facts.now order.now }
    ensures numbered { OnOk result (indices emission.new.indices ≡ due.with_bodies input.now facts.now order.now (indices emission.old.indices)) }
    ensures written { OnOk result (written emission.new.bytes.items ≡ written emission.old.bytes.items ++ code.code input.now.locals input.now.funcs (indices emission.old.indices) (facts_at facts.now order.now)) }
    ensures located { OnOk result (emission.new.locations.items ≡ emission.old.locations.items ++ due.locations input.now facts.now order.now (indices emission.old.indices)) }
    ensures ranged { OnOk result (emission.new.ranges.items ≡ emission.old.ranges.items ++ due.ranges input.now facts.now order.now (indices emission.old.indices)) }
    ensures begins { OnOk result (emission.new.code_section_start ≡ code_start input.now.locals input.now.funcs (indices emission.old.indices) emission.old.code_section_start (length emission.old.bytes.items) (facts_at facts.now order.now)) }
{
    let code = Code {
        locals: &input.locals,
        functions: &input.funcs,
        facts,
        order,
        keeps_places: input.config().preserve_code_transform,
    };
    emit_functions(alloc, emission, &code)
}

// The section of names, where it is asked for.
#[tactic(auto, using(crate::proofs::WholeLemmas::not_asked, crate::proofs::WholeLemmas::asked))]
fn write_names<B>(
    alloc: Global,
    out: &mut Vec<u8>,
    input: &Module<B>,
    types: &EmittedTypes,
    facts: &[BodyFacts],
    order: &[usize],
    maps: &IdsToIndices,
) -> Result<()>
    requires { AreWithin facts.now order.now }
    ensures { Writes (due.if_asked input.now.config.generate_name_section (names_due (parts input.now) types.now (facts_at facts.now order.now) (indices maps.now))) out.old.items out.new.items result }
{
    if !input.config().generate_name_section {
        return Ok(());
    }
    emit_names(alloc, out, input, types, facts, order, maps)
}

// The section of producers, where it is asked for.
#[tactic(auto, using(crate::proofs::WholeLemmas::not_asked, crate::proofs::WholeLemmas::asked_payload))]
fn write_made_by<B>(out: &mut Vec<u8>, input: &Module<B>) -> Result<()>
    ensures { Writes (due.if_asked input.now.config.generate_producers_section (written (producers_section (fields_of input.now.producers)))) out.old.items out.new.items result }
{
    if !input.config().generate_producers_section {
        return Ok(());
    }
    write_producers(out, input.producers.fields())
}

// Names and producers.
fn write_payloads<B>(
    alloc: Global,
    out: &mut Vec<u8>,
    input: &Module<B>,
    types: &EmittedTypes,
    facts: &[BodyFacts],
    order: &[usize],
    maps: &IdsToIndices,
) -> Result<()>
    requires { AreWithin facts.now order.now }
    ensures { Writes (due.payloads input.now (names_due (parts input.now) types.now (facts_at facts.now order.now) (indices maps.now))) out.old.items out.new.items result }
{
    put!(write_names(alloc, out, input, types, facts, order, maps));
    write_made_by(out, input)
}

// What stands behind code, where the locals have their numbers.
fn write_behind_code<B>(
    alloc: Global,
    out: &mut Vec<u8>,
    input: &Module<B>,
    types: &EmittedTypes,
    facts: &[BodyFacts],
    order: &[usize],
    maps: &IdsToIndices,
) -> Result<()>
    requires { AreWithin facts.now order.now }
    ensures { Writes (due.closing input.now facts.now order.now types.now (indices maps.now)) out.old.items out.new.items result }
{
    put!(emit_data(out, &input.data_segments, maps));
    write_payloads(alloc, out, input, types, facts, order, maps)
}

/// All sections but the custom ones that stand behind the others.
///
/// # Errors
///
/// Those of emission. What was written before stands at the front.
pub(crate) fn write_all<B: CustomSection>(
    alloc: Global,
    emission: &mut Emission,
    input: &Module<B>,
    types: &EmittedTypes,
    facts: &[BodyFacts],
    order: &[usize],
) -> Result<()>
    requires { AreWithin facts.now order.now }
    ensures numbered { OnOk result (indices emission.new.indices ≡ due.with_bodies input.now facts.now order.now (indices emission.old.indices)) }
    ensures written { OnOk result (written emission.new.bytes.items ≡ written emission.old.bytes.items ++ due.standard B.own_name B.contents input.now facts.now order.now types.now (indices emission.old.indices)) }
    ensures located { OnOk result (emission.new.locations.items ≡ emission.old.locations.items ++ due.locations input.now facts.now order.now (indices emission.old.indices)) }
    ensures ranged { OnOk result (emission.new.ranges.items ≡ emission.old.ranges.items ++ due.ranges input.now facts.now order.now (indices emission.old.indices)) }
    ensures begins { OnOk result (emission.new.code_section_start ≡ code_start input.now.locals input.now.funcs (indices emission.old.indices) emission.old.code_section_start (length emission.old.bytes.items + length (due.opening B.own_name B.contents input.now facts.now order.now types.now (indices emission.old.indices))) (facts_at facts.now order.now)) }
{
    let out = &mut emission.bytes;
    write_opening(alloc, out, input, types, facts, order, &emission.indices)?;
    write_code(alloc, emission, input, facts, order)?;
    let out = &mut emission.bytes;
    write_behind_code(alloc, out, input, types, facts, order, &emission.indices)
}
