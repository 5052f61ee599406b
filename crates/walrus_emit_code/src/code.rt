//! The bodies of functions (Core Specification, binary format: code section).
ghost use Rattle.std.specs.Prelude.{◌≡◌, ◌≤◌, ◌+◌, ◌-◌, ◌++◌, [], ◌∷◌, length, take, drop, IfOk, OnOk};
ghost use Rattle.walrus_index_maps.specs.Views.{indices};
ghost use Rattle.walrus_operators.specs.Appended.{Keeps};
ghost use Rattle.wasm_operators.specs.Bytes.{unsigned_bytes};
ghost use Rattle.walrus_emit_numbers.specs.Order.{AreWithin};
ghost use Rattle.walrus_emit_parts.specs.Due.{Writes, number, sized, written};
ghost use Rattle.walrus_emit_code.specs.Code as due;
ghost use Rattle.walrus_emit_code.specs.Code.{facts_at};
ghost use Rattle.walrus_emit_code.specs.Places as standing;
ghost use Rattle.walrus_emit_code.specs.Places.{behind_size, if_kept, located, places_from, places_in, range_of};

use crate::emission::Emission;
use std::alloc::{AllocError, Global};
use walrus_arena::{FunctionId, LocalId};
use walrus_body_writer::{Output, write_instructions};
use walrus_collections::ModuleFunctions;
use walrus_emit_numbers::BodyFacts;
use walrus_emit_parts::{put_front, write_byte, write_bytes, write_number};
use walrus_errors::{Limited, ModuleError, Result, Space};
use walrus_index_maps::IdsToIndices;
use walrus_instr::InstrLocId;
use walrus_items::ModuleLocals;
use walrus_local_function::LocalFunction;
use walrus_module_items::FunctionKind;

// What a reader takes at most.
const MAX_LOCALS: usize = 50_000;

const MAX_BODY: usize = 7_654_321;

/// What is written as code: the module's locals and functions, what is known of the bodies, and the positions of these facts in the order in
/// which the bodies are written.
#[derive(Clone, Copy)]
pub struct Code<'a> {
    /// The module's locals.
    pub locals: &'a ModuleLocals,
    /// Its functions.
    pub functions: &'a ModuleFunctions,
    /// What is known of the bodies.
    pub facts: &'a [BodyFacts],
    /// The positions of these facts, in the order in which the bodies are written.
    pub order: &'a [usize],
    /// Whether each operator's place is kept.
    pub keeps_places: bool,
}

// A body that is written.
#[derive(Clone, Copy)]
struct Body<'a> {
    locals: &'a ModuleLocals,
    local: &'a LocalFunction,
    facts: &'a BodyFacts,
}

// So many, or one more than a number, whichever is more.
fn behind(count: usize, number: Option<u32>) -> usize
    ensures { result ≡ due.behind count number }
{
    match number {
        Some(number) => {
            let next = number as usize + 1;
            if count < next { next } else { count }
        }
        None => count,
    }
}

// How many locals a function has, of so many arguments, where the used ones have their numbers.
fn local_count(
    maps: &IdsToIndices,
    function: FunctionId,
    arguments: usize,
    used: &[LocalId],
) -> usize
    ensures { result ≡ due.local_count ((indices maps.now).locals function) arguments used.now }
{
    let mut count = arguments;
    for id in used {
        count = behind(count, maps.get_local_index(function, *id));
    }
    count
}

// The declarations of locals, which get their numbers.
fn write_locals(
    alloc: Global,
    maps: &mut IdsToIndices,
    body: &Body<'_>,
    out: &mut Output,
) -> Result<()>
    ensures numbered { OnOk result (indices maps.new ≡ due.with_locals body.now.locals.now body.now.facts.now.function body.now.local.now body.now.facts.now.used_locals.items (indices maps.old)) }
    ensures written { OnOk result (written out.new.bytes.items ≡ written out.old.bytes.items ++ due.declarations body.now.locals.now body.now.local.now body.now.facts.now.used_locals.items (indices maps.old)) }
    ensures few { OnOk result (due.local_count ((indices maps.new).locals body.now.facts.now.function) (length body.now.local.now.args.items) body.now.facts.now.used_locals.items ≤ 50000) }
    ensures same { out.new ≡ record out.old { bytes = out.new.bytes } }
{
    let function = body.facts.function;
    let used = body.facts.used_locals.as_slice();
    let bytes = &mut out.bytes;
    body.local
        .emit_locals(alloc, used, body.locals, function, maps, bytes)?;
    let arguments = body.local.args.len();
    if local_count(&*maps, function, arguments, used) > MAX_LOCALS {
        let of = Limited::Locals;
        return Err(ModuleError::OutputLimit { of });
    }
    Ok(())
}

// The operators.
fn write_operators(
    alloc: Global,
    maps: &IdsToIndices,
    body: &Body<'_>,
    out: &mut Output,
) -> Result<()>
    ensures written { OnOk result (written out.new.bytes.items ≡ written out.old.bytes.items ++ due.operators_due body.now.facts.now.function body.now.local.now (indices maps.now)) }
    ensures short { OnOk result (length out.new.bytes.items ≤ 7654321) }
    ensures placed { OnOk result (out.new.places.items ≡ out.old.places.items ++ if_kept out.old.keeps_places (places_from (length out.old.bytes.items) body.now.facts.now.function body.now.local.now (indices maps.now))) }
    ensures same { OnOk result (out.new.keeps_places ≡ out.old.keeps_places) }
{
    let function = body.facts.function;
    write_instructions(alloc, body.local.builder(), function, maps, out)?;
    if out.bytes.len() > MAX_BODY {
        let of = Limited::Body;
        return Err(ModuleError::OutputLimit { of });
    }
    Ok(())
}

// A body without its size, apart, where one was written before.
fn write_apart(
    alloc: Global,
    maps: &mut IdsToIndices,
    body: &Body<'_>,
    out: &mut Output,
) -> Result<()>
    ensures numbered { OnOk result (indices maps.new ≡ due.with_locals body.now.locals.now body.now.facts.now.function body.now.local.now body.now.facts.now.used_locals.items (indices maps.old)) }
    ensures written { OnOk result (written out.new.bytes.items ≡ due.contents body.now.locals.now body.now.facts.now.function body.now.local.now body.now.facts.now.used_locals.items (indices maps.old)) }
    ensures placed { OnOk result (out.new.places.items ≡ if_kept out.old.keeps_places (places_in body.now.locals.now body.now.facts.now.function body.now.local.now body.now.facts.now.used_locals.items (indices maps.old))) }
    ensures same { OnOk result (out.new.keeps_places ≡ out.old.keeps_places) }
{
    out.clear();
    write_locals(alloc, maps, body, out)?;
    write_operators(alloc, &*maps, body, out)?;
    Ok(())
}

// A place so much behind another. One past 2^32 is past all files.
fn place_behind(by: usize, at: usize) -> std::result::Result<u32, AllocError>
    ensures { IfOk result (λ place. place ≡ by + at) }
{
    let Some(place) = by.checked_add(at) else {
        return Err(AllocError);
    };
    match u32::try_from(place) {
        Ok(place) => Ok(place),
        Err(_) => Err(AllocError),
    }
}

// Puts the place of an operator behind these, so much further on, if it has a location.
#[tactic(auto, using(crate::proofs::PlaceLemmas::not_noted, crate::proofs::PlaceLemmas::noted))]
fn add_location(
    locations: &mut Vec<(u32, u32)>,
    location: InstrLocId,
    at: usize,
    by: usize,
) -> std::result::Result<(), AllocError>
    ensures { OnOk result (locations.new.items ≡ locations.old.items ++ located by ((location, at) ∷ [])) }
{
    if location.is_default() {
        return Ok(());
    }
    let place = place_behind(by, at)?;
    locations.push((location.data(), place))?;
    Ok(())
}

// Puts the places of operators with a location behind these, each so much further on.
fn add_locations(
    locations: &mut Vec<(u32, u32)>,
    places: &[(InstrLocId, usize)],
    by: usize,
) -> std::result::Result<(), AllocError>
    ensures { OnOk result (locations.new.items ≡ locations.old.items ++ located by places.now) }
{
    for (location, at) in places {
        add_location(locations, *location, *at, by)?;
    }
    Ok(())
}

// A number behind what was written.
fn add_number(bytes: &mut Vec<u8>, n: usize) -> Result<()>
    ensures keeps { Keeps bytes.old.items bytes.new.items }
    ensures written { OnOk result (written bytes.new.items ≡ written bytes.old.items ++ number n) }
{
    write_number(bytes, n as u64)
}

// Bytes behind what was written.
fn add_bytes(bytes: &mut Vec<u8>, more: &[u8]) -> Result<()>
    ensures keeps { Keeps bytes.old.items bytes.new.items }
    ensures written { OnOk result (written bytes.new.items ≡ written bytes.old.items ++ written more.now) }
{
    write_bytes(bytes, more)
}

// Puts a body behind what was written, with its size; its places are behind the contents' beginning.
#[tactic(auto, using(crate::proofs::CodeLemmas::keeps_both, crate::proofs::CodeLemmas::body_written, crate::proofs::PlaceLemmas::body_located, crate::proofs::PlaceLemmas::body_ranged))]
fn add_body(emission: &mut Emission, function: FunctionId, start: usize, out: &Output) -> Result<()>
    requires { start ≤ length emission.old.bytes.items }
    ensures keeps { Keeps emission.old.bytes.items emission.new.bytes.items }
    ensures written { OnOk result (written emission.new.bytes.items ≡ written emission.old.bytes.items ++ sized (written out.now.bytes.items)) }
    ensures located { OnOk result (emission.new.locations.items ≡ emission.old.locations.items ++ located (behind_size (length emission.old.bytes.items - start) (written out.now.bytes.items)) out.now.places.items) }
    ensures ranged { OnOk result (emission.new.ranges.items ≡ emission.old.ranges.items ++ (function, range_of (length emission.old.bytes.items - start) (written out.now.bytes.items)) ∷ []) }
    ensures same { emission.new.indices ≡ emission.old.indices }
{
    add_number(&mut emission.bytes, out.bytes.len())?;
    let begin = emission.bytes.len() - start;
    add_bytes(&mut emission.bytes, out.bytes.as_slice())?;
    let end = emission.bytes.len() - start;
    emission.ranges.push((function, begin..end))?;
    add_locations(&mut emission.locations, out.places.as_slice(), begin)?;
    Ok(())
}

#[tactic(auto, using(crate::proofs::CodeLemmas::keeps_itself, crate::proofs::CodeLemmas::sized_contents))]
fn write_body(
    alloc: Global,
    emission: &mut Emission,
    body: &Body<'_>,
    start: usize,
    out: &mut Output,
) -> Result<()>
    requires { start ≤ length emission.old.bytes.items }
    ensures keeps { Keeps emission.old.bytes.items emission.new.bytes.items }
    ensures numbered { OnOk result (indices emission.new.indices ≡ due.with_locals body.now.locals.now body.now.facts.now.function body.now.local.now body.now.facts.now.used_locals.items (indices emission.old.indices)) }
    ensures written { OnOk result (written emission.new.bytes.items ≡ written emission.old.bytes.items ++ sized (due.contents body.now.locals.now body.now.facts.now.function body.now.local.now body.now.facts.now.used_locals.items (indices emission.old.indices))) }
    ensures located { OnOk result (emission.new.locations.items ≡ emission.old.locations.items ++ if_kept out.old.keeps_places (located (behind_size (length emission.old.bytes.items - start) (due.contents body.now.locals.now body.now.facts.now.function body.now.local.now body.now.facts.now.used_locals.items (indices emission.old.indices))) (places_in body.now.locals.now body.now.facts.now.function body.now.local.now body.now.facts.now.used_locals.items (indices emission.old.indices)))) }
    ensures ranged { OnOk result (emission.new.ranges.items ≡ emission.old.ranges.items ++ (body.now.facts.now.function, range_of (length emission.old.bytes.items - start) (due.contents body.now.locals.now body.now.facts.now.function body.now.local.now body.now.facts.now.used_locals.items (indices emission.old.indices))) ∷ []) }
    ensures same { OnOk result (out.new.keeps_places ≡ out.old.keeps_places) }
{
    write_apart(alloc, &mut emission.indices, body, out)?;
    add_body(emission, body.facts.function, start, &*out)?;
    Ok(())
}

#[tactic(auto, using(crate::proofs::CodeLemmas::keeps_itself, crate::proofs::CodeLemmas::body_is, crate::proofs::CodeLemmas::numbers_are, crate::proofs::PlaceLemmas::locations_are, crate::proofs::PlaceLemmas::ranges_are))]
fn write_one(
    alloc: Global,
    emission: &mut Emission,
    code: &Code<'_>,
    facts: &BodyFacts,
    start: usize,
    out: &mut Output,
) -> Result<()>
    requires { start ≤ length emission.old.bytes.items }
    ensures keeps { Keeps emission.old.bytes.items emission.new.bytes.items }
    ensures numbered { OnOk result (indices emission.new.indices ≡ due.body_numbers code.now.locals.now code.now.functions.now (indices emission.old.indices) facts.now) }
    ensures written { OnOk result (written emission.new.bytes.items ≡ written emission.old.bytes.items ++ due.body_due code.now.locals.now code.now.functions.now (indices emission.old.indices) facts.now) }
    ensures located { OnOk result (emission.new.locations.items ≡ emission.old.locations.items ++ if_kept out.old.keeps_places (standing.body_locations code.now.locals.now code.now.functions.now (indices emission.old.indices) facts.now (length emission.old.bytes.items - start))) }
    ensures ranged { OnOk result (emission.new.ranges.items ≡ emission.old.ranges.items ++ standing.body_ranges code.now.locals.now code.now.functions.now (indices emission.old.indices) facts.now (length emission.old.bytes.items - start)) }
    ensures same { OnOk result (out.new.keeps_places ≡ out.old.keeps_places) }
{
    if !code.functions.contains(facts.function) {
        let space = Space::Function;
        return Err(ModuleError::DeadReference { space });
    }
    match &code.functions.get(facts.function).kind {
        FunctionKind::Local(local) => {
            let locals = code.locals;
            let body = Body {
                locals,
                local,
                facts,
            };
            write_body(alloc, emission, &body, start, out)?;
            Ok(())
        }
        FunctionKind::Import(_) | FunctionKind::Uninitialized(_) => Err(ModuleError::NotLinked),
    }
}

// The bodies, in their order.
#[tactic(auto, using(crate::proofs::CodeLemmas::keeps_both, crate::proofs::CodeLemmas::keeps_itself, crate::proofs::CodeLemmas::still_there))]
fn write_bodies(alloc: Global, emission: &mut Emission, code: &Code<'_>, start: usize) -> Result<()>
    requires start { start ≤ length emission.old.bytes.items }
    requires within { AreWithin code.now.facts.now code.now.order.now }
    ensures keeps { Keeps emission.old.bytes.items emission.new.bytes.items }
    ensures numbered { OnOk result (indices emission.new.indices ≡ due.bodies_numbers code.now.locals.now code.now.functions.now (indices emission.old.indices) (facts_at code.now.facts.now code.now.order.now)) }
    ensures written { OnOk result (written emission.new.bytes.items ≡ written emission.old.bytes.items ++ due.bodies_due code.now.locals.now code.now.functions.now (indices emission.old.indices) (facts_at code.now.facts.now code.now.order.now)) }
    ensures located { OnOk result (emission.new.locations.items ≡ emission.old.locations.items ++ if_kept code.now.keeps_places (standing.bodies_locations code.now.locals.now code.now.functions.now (indices emission.old.indices) (length emission.old.bytes.items - start) (facts_at code.now.facts.now code.now.order.now))) }
    ensures ranged { OnOk result (emission.new.ranges.items ≡ emission.old.ranges.items ++ standing.bodies_ranges code.now.locals.now code.now.functions.now (indices emission.old.indices) (length emission.old.bytes.items - start) (facts_at code.now.facts.now code.now.order.now)) }
{
    let order = code.order;
    let mut out = Output::new(alloc, code.keeps_places);
    for at in order {
        write_one(alloc, emission, code, &code.facts[*at], start, &mut out)?;
    }
    Ok(())
}

// The count of bodies, and the bodies.
#[tactic(auto, using(crate::proofs::CodeLemmas::keeps_both, crate::proofs::CodeLemmas::behind_both, crate::proofs::CodeLemmas::still_there, crate::proofs::PlaceLemmas::counted_located, crate::proofs::PlaceLemmas::counted_ranged))]
fn write_contents(
    alloc: Global,
    emission: &mut Emission,
    code: &Code<'_>,
    start: usize,
) -> Result<()>
    requires start { start ≤ length emission.old.bytes.items }
    requires within { AreWithin code.now.facts.now code.now.order.now }
    ensures keeps { Keeps emission.old.bytes.items emission.new.bytes.items }
    ensures numbered { OnOk result (indices emission.new.indices ≡ due.bodies_numbers code.now.locals.now code.now.functions.now (indices emission.old.indices) (facts_at code.now.facts.now code.now.order.now)) }
    ensures written { OnOk result (written emission.new.bytes.items ≡ written emission.old.bytes.items ++ (number (length code.now.order.now) ++ due.bodies_due code.now.locals.now code.now.functions.now (indices emission.old.indices) (facts_at code.now.facts.now code.now.order.now))) }
    ensures located { OnOk result (emission.new.locations.items ≡ emission.old.locations.items ++ if_kept code.now.keeps_places (standing.bodies_locations code.now.locals.now code.now.functions.now (indices emission.old.indices) (length emission.old.bytes.items - start + length (number (length code.now.order.now))) (facts_at code.now.facts.now code.now.order.now))) }
    ensures ranged { OnOk result (emission.new.ranges.items ≡ emission.old.ranges.items ++ standing.bodies_ranges code.now.locals.now code.now.functions.now (indices emission.old.indices) (length emission.old.bytes.items - start + length (number (length code.now.order.now))) (facts_at code.now.facts.now code.now.order.now)) }
{
    add_number(&mut emission.bytes, code.order.len())?;
    write_bodies(alloc, emission, code, start)?;
    Ok(())
}

// Puts the size of the contents that begin there in front of them.
#[tactic(auto, using(crate::proofs::CodeLemmas::turned, crate::proofs::PlaceLemmas::sealed_begin))]
fn seal(emission: &mut Emission, start: usize) -> Result<()>
    requires { start ≤ length emission.old.bytes.items }
    ensures keeps { Keeps (take start emission.old.bytes.items) emission.new.bytes.items }
    ensures written { OnOk result (emission.new.bytes.items ≡ take start emission.old.bytes.items ++ (unsigned_bytes (length (drop start emission.old.bytes.items)) ++ drop start emission.old.bytes.items)) }
    ensures begins { OnOk result (emission.new.code_section_start ≡ start + length (unsigned_bytes (length (drop start emission.old.bytes.items)))) }
    ensures same { emission.new.indices ≡ emission.old.indices }
    ensures located { emission.new.locations.items ≡ emission.old.locations.items }
    ensures ranged { emission.new.ranges.items ≡ emission.old.ranges.items }
{
    let size = emission.bytes.len() - start;
    put_front(&mut emission.bytes, start, size as u64)?;
    emission.code_section_start = emission.bytes.len() - size;
    Ok(())
}

// The section's id.
fn add_id(bytes: &mut Vec<u8>) -> Result<()>
    ensures keeps { Keeps bytes.old.items bytes.new.items }
    ensures written { OnOk result (written bytes.new.items ≡ written bytes.old.items ++ written (10 ∷ [])) }
{
    write_byte(bytes, 0x0a)
}

/// Puts the code section behind what was written: the bodies in their order; nothing where there is none. The locals of their functions get
/// their numbers.
///
/// # Errors
///
/// `DeadReference` or `NotLinked` where a function is deleted or has no body; `DeadReference` of what has no number; `OutputLimit` where a
/// limit of the standard's readers is passed; want of memory. What was written before stands at the front.
#[tactic(auto, using(crate::proofs::CodeLemmas::keeps_both, crate::proofs::CodeLemmas::keeps_itself, crate::proofs::CodeLemmas::sealed, crate::proofs::CodeLemmas::none_written, crate::proofs::CodeLemmas::none_numbered, crate::proofs::PlaceLemmas::none_located, crate::proofs::PlaceLemmas::none_ranged, crate::proofs::PlaceLemmas::none_begins))]
pub fn emit_functions(alloc: Global, emission: &mut Emission, code: &Code<'_>) -> Result<()>
    requires { AreWithin code.now.facts.now code.now.order.now }
    ensures keeps { Keeps emission.old.bytes.items emission.new.bytes.items }
    ensures numbered { OnOk result (indices emission.new.indices ≡ due.bodies_numbers code.now.locals.now code.now.functions.now (indices emission.old.indices) (facts_at code.now.facts.now code.now.order.now)) }
    ensures written { OnOk result (written emission.new.bytes.items ≡ written emission.old.bytes.items ++ due.code code.now.locals.now code.now.functions.now (indices emission.old.indices) (facts_at code.now.facts.now code.now.order.now)) }
    ensures located { OnOk result (emission.new.locations.items ≡ emission.old.locations.items ++ if_kept code.now.keeps_places (standing.locations code.now.locals.now code.now.functions.now (indices emission.old.indices) (facts_at code.now.facts.now code.now.order.now))) }
    ensures ranged { OnOk result (emission.new.ranges.items ≡ emission.old.ranges.items ++ standing.ranges code.now.locals.now code.now.functions.now (indices emission.old.indices) (facts_at code.now.facts.now code.now.order.now)) }
    ensures begins { OnOk result (emission.new.code_section_start ≡ standing.code_start code.now.locals.now code.now.functions.now (indices emission.old.indices) emission.old.code_section_start (length emission.old.bytes.items) (facts_at code.now.facts.now code.now.order.now)) }
{
    if code.order.is_empty() {
        return Ok(());
    }
    add_id(&mut emission.bytes)?;
    let start = emission.bytes.len();
    write_contents(alloc, emission, code, start)?;
    seal(emission, start)?;
    Ok(())
}
