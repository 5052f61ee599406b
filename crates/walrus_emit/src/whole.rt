//! A whole module is written.
ghost use Rattle.std.specs.Prelude.{◌≡◌, ◌≤◌, ◌^◌, ◌⊎◌, ◌++◌, false, length, is_some, IfErr, IfOk, OnOk};
ghost use Rattle.walrus_index_maps.specs.Views.{indices};
ghost use Rattle.walrus_module.specs.Parts.{parts};
ghost use Rattle.walrus_refusals.specs.Sound.{IsRefused, IsSound};
ghost use Rattle.walrus_sections.specs.Sections.{boxed_at};
ghost use Rattle.walrus_emit_customs.specs.Told.{has_boxed};
ghost use Rattle.walrus_emit_parts.specs.Due.{written};
ghost use Rattle.walrus_emit.specs.Left.{LeavesDeclared};
ghost use Rattle.walrus_emit.specs.Listed.{listed};
ghost use Rattle.walrus_emit.specs.Places.{Tells};
ghost use Rattle.walrus_emit.specs.Told.{AreTold};
ghost use Rattle.walrus_emit.specs.Whole as due;
ghost use Rattle.walrus_emit.specs.Written.{IsEmitted, IsStandard, IsTransformed, IsWritten};

use crate::checks::check_module;
use crate::contents::write_all;
use crate::context::EmitContext;
use crate::segment::declare;
use crate::transform::transform_of;
use std::alloc::Global;
use walrus_arena::UntypedCustomSectionId;
use walrus_emit_code::Emission;
use walrus_emit_customs::{transform_sections, write_sections};
use walrus_emit_numbers::{BodyFacts, facts_of};
use walrus_errors::{Limited, ModuleError, Result};
use walrus_module::Module;
use walrus_sections::{CodeTransform, CustomSection, Sections};

/// What was written of a module.
pub type Emitted = Emission;

// The most bytes that a file may have.
const MAX_FILE: usize = 1 << 30;

// All sections but the other custom ones.
fn emit_standard<'a, B: CustomSection>(
    alloc: Global,
    input: &'a Module<B>,
    facts: &'a [BodyFacts],
) -> Result<Emission>
    ensures { IfOk result (IsStandard B.own_name B.contents input.now facts.now) }
{
    let mut cx = EmitContext::new(alloc, input, facts)?;
    let at = &mut cx;
    let order = at.order.as_slice();
    write_all(alloc, &mut at.emission, input, &at.types, facts, order)?;
    Ok(cx.emission)
}

// Where code stands.
fn code_transform(alloc: Global, emission: &Emission) -> Result<CodeTransform>
    ensures { IfOk result (Tells emission.now.locations.items emission.now.ranges.items emission.now.code_section_start) }
{
    let locations = emission.locations.as_slice();
    let ranges = emission.ranges.as_slice();
    let start = emission.code_section_start;
    Ok(transform_of(alloc, locations, ranges, start)?)
}

// Tells a program's own sections where code stands, where that is wanted.
#[tactic(auto, using(crate::proofs::ToldLemmas::not_wanted, crate::proofs::ToldLemmas::none_there, crate::proofs::ToldLemmas::were_told))]
fn tell<B: CustomSection>(alloc: Global, input: &mut Module<B>, emission: &Emission) -> Result<()>
    ensures rest { parts input.new ≡ parts input.old }
    ensures untold { input.old.config.preserve_code_transform ≡ false → input.new.customs ≡ input.old.customs }
    ensures told { OnOk result (AreTold B.own_name B.transformed emission.now.locations.items emission.now.ranges.items emission.now.code_section_start input.old.config.preserve_code_transform input.old.customs input.new.customs) }
{
    if !input.config().preserve_code_transform {
        return Ok(());
    }
    if !has_own(input) {
        return Ok(());
    }
    let transform = code_transform(alloc, emission)?;
    transform_sections(alloc, &mut input.customs, &transform)?;
    Ok(())
}

// Whether this is a section of a program's own.
fn is_own<B: CustomSection>(sections: &Sections<B>, id: UntypedCustomSectionId) -> bool
    ensures { result ≡ is_some (boxed_at sections.now id) }
{
    sections.get(id).is_some()
}

// Whether there is a section of a program's own.
fn has_own<B: CustomSection>(input: &Module<B>) -> bool
    ensures { result ≡ has_boxed input.now.customs }
{
    for id in input.customs.iter() {
        if is_own(&input.customs, id) {
            return true;
        }
    }
    false
}

// The custom sections that don't stand first, behind all others.
fn emit_last<B: CustomSection>(
    alloc: Global,
    input: &Module<B>,
    mut emission: Emission,
) -> Result<Emitted>
    ensures small { IfOk result (λ emitted. length emitted.bytes.items ≤ 2 ^ 30) }
    ensures written { IfOk result (λ emitted. written emitted.bytes.items ≡ written emission.bytes.items ++ due.sections B.own_name B.contents false (indices emission.indices) input.now.customs) }
    ensures rest { IfOk result (λ emitted. emitted ≡ record emission { bytes = emitted.bytes }) }
{
    let bytes = &mut emission.bytes;
    write_sections(alloc, bytes, &input.customs, false, &emission.indices)?;
    if emission.bytes.len() > MAX_FILE {
        let of = Limited::File;
        return Err(ModuleError::OutputLimit { of });
    }
    Ok(emission)
}

/// Writes a module all of whose live items can be written.
///
/// # Errors
///
/// `SectionRefused` where a section of a program's own refuses to say what is in it; `OutputLimit` where a limit of the standard's readers
/// is passed; want of memory. The module is as it was, but for at most one declared segment, and sections that were told where code stands.
#[tactic(auto, using(crate::proofs::DeclaredLemmas::leaves, crate::proofs::DeclaredLemmas::leaves_it))]
pub fn emit_sound<B: CustomSection>(alloc: Global, input: &mut Module<B>) -> Result<Emitted>
    ensures small { IfOk result (λ emitted. length emitted.bytes.items ≤ 2 ^ 30) }
    ensures left { LeavesDeclared (parts input.old) (parts input.new) }
    ensures untold { input.old.config.preserve_code_transform ≡ false → input.new.customs ≡ input.old.customs }
    ensures written { IfOk result (λ emitted. IsWritten B.own_name B.contents input.old input.new emitted.bytes.items) }
    ensures stands { IfOk result (λ emitted. IsEmitted B.own_name B.contents input.old input.new emitted) }
    ensures told { IfOk result (λ emitted. AreTold B.own_name B.transformed emitted.locations.items emitted.ranges.items emitted.code_section_start input.old.config.preserve_code_transform input.old.customs input.new.customs) }
{
    let found = facts_of(alloc, &input.funcs)?;
    let facts = found.as_slice();
    declare(alloc, input, facts)?;
    let emission = emit_standard(alloc, &*input, facts)?;
    tell(alloc, input, &emission)?;
    emit_last(alloc, &*input, emission)
}

/// Modules that are written as bytes.
pub trait EmitWasm {
    /// Writes the module (Core Specification, binary format: modules).
    ///
    /// # Errors
    ///
    /// In this order, of all live items: `NotLinked`, `NoTree`, `DeadReference`, `Unsupported`; then `SectionRefused` or `OutputLimit`;
    /// want of memory.
    fn emit_wasm(&mut self, alloc: Global) -> Result<Vec<u8>>;

    /// The same, with where code stands in it.
    ///
    /// # Errors
    ///
    /// Those of `emit_wasm`.
    fn emit_wasm_with_transform(&mut self, alloc: Global) -> Result<(Vec<u8>, CodeTransform)>;
}

impl<B: CustomSection> EmitWasm for Module<B> {
    fn emit_wasm(&mut self, alloc: Global) -> Result<Vec<u8>>
        ensures small { IfOk result (λ bytes. length bytes.items ≤ 2 ^ 30) }
        ensures sound { OnOk result (IsSound (parts self.old) (listed (parts self.old))) }
        ensures left { LeavesDeclared (parts self.old) (parts self.new) }
        ensures untold { self.old.config.preserve_code_transform ≡ false → self.new.customs ≡ self.old.customs }
        ensures written { IfOk result (λ bytes. IsWritten B.own_name B.contents self.old self.new bytes.items) }
        ensures refused { IfErr result (λ e. (IsRefused (parts self.old) (listed (parts self.old)) e × (self.new ≡ self.old)) ⊎ IsSound (parts self.old) (listed (parts self.old))) }
    {
        check_module(alloc, &*self)?;
        let emission = emit_sound(alloc, self)?;
        Ok(emission.bytes)
    }

    fn emit_wasm_with_transform(&mut self, alloc: Global) -> Result<(Vec<u8>, CodeTransform)>
        ensures small { IfOk result (λ answer. length answer.0.items ≤ 2 ^ 30) }
        ensures sound { OnOk result (IsSound (parts self.old) (listed (parts self.old))) }
        ensures left { LeavesDeclared (parts self.old) (parts self.new) }
        ensures untold { self.old.config.preserve_code_transform ≡ false → self.new.customs ≡ self.old.customs }
        ensures written { IfOk result (λ answer. IsWritten B.own_name B.contents self.old self.new answer.0.items) }
        ensures transformed { IfOk result (λ answer. IsTransformed B.own_name B.contents self.old self.new answer.0.items answer.1) }
        ensures refused { IfErr result (λ e. (IsRefused (parts self.old) (listed (parts self.old)) e × (self.new ≡ self.old)) ⊎ IsSound (parts self.old) (listed (parts self.old))) }
    {
        check_module(alloc, &*self)?;
        let emission = emit_sound(alloc, self)?;
        let transform = code_transform(alloc, &emission)?;
        Ok((emission.bytes, transform))
    }
}
