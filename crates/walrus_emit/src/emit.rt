//! Parts of a module that are written as a section each.
#![tactic(auto, using(crate::proofs::KeepsLemmas::kept, crate::proofs::KeepsLemmas::payload_kept, crate::proofs::WholeLemmas::payload_written, crate::proofs::WholeLemmas::wrote_types))]

ghost use Rattle.std.specs.Prelude.{◌≡◌, ◌++◌, length, OnOk};
ghost use Rattle.walrus_customs.specs.Producers.{fields_of};
ghost use Rattle.walrus_index_maps.specs.Views.{indices};
ghost use Rattle.walrus_meaning.specs.Meaning.{means, own_element, own_export, own_global, own_memory, own_segment, own_table, own_tag, slots_of};
ghost use Rattle.walrus_module.specs.Parts.{parts};
ghost use Rattle.walrus_module.specs.walrus_body_writer.walrus_pairing.Looks.{number_of};
ghost use Rattle.walrus_operators.specs.Appended.{Keeps};
ghost use Rattle.walrus_payload_writers.specs.Producers.{producers_section};
ghost use Rattle.walrus_emit_code.specs.Code as code;
ghost use Rattle.walrus_emit_code.specs.Code.{bodies_numbers, facts_at};
ghost use Rattle.walrus_emit_code.specs.Places as places;
ghost use Rattle.walrus_emit_code.specs.Places.{if_kept};
ghost use Rattle.walrus_emit_parts.specs.Due.{Writes, written};
ghost use Rattle.walrus_emit_due.specs.Items as items;
ghost use Rattle.walrus_emit_due.specs.Elements.{elements};
ghost use Rattle.walrus_emit_due.specs.Imports.{imports};
ghost use Rattle.walrus_emit.specs.Written.{WroteTypes};

use crate::context::{EmitContext, emitted_types};
use walrus_customs::ModuleProducers;
use walrus_emit_code::{Code, emit_functions};
use walrus_emit_sections::{
    emit_data, emit_exports, emit_globals, emit_memories, emit_tables, emit_tags,
};
use walrus_emit_types::emit_types;
use walrus_emit_uses::{emit_elements, emit_imports};
use walrus_errors::Result;
use walrus_module::collections::{
    ModuleData, ModuleElements, ModuleExports, ModuleFunctions, ModuleGlobals, ModuleImports,
    ModuleMemories, ModuleTables, ModuleTags,
};
use walrus_payload_writers::write_producers;
use walrus_types::ModuleTypes;

/// What is written as a section.
pub trait Emit {
    /// Puts the section behind what was written; nothing where there is nothing to tell.
    ///
    /// # Errors
    ///
    /// Those of emission. What was written before stands at the front.
    fn emit<B>(&self, cx: &mut EmitContext<'_, B>) -> Result<()>
        ensures { Keeps cx.old.emission.bytes.items cx.new.emission.bytes.items };
}

impl<T: Emit> Emit for &T {
    fn emit<B>(&self, cx: &mut EmitContext<'_, B>) -> Result<()> {
        T::emit(*self, cx)
    }
}

impl Emit for ModuleTypes {
    fn emit<B>(&self, cx: &mut EmitContext<'_, B>) -> Result<()>
        ensures keeps { Keeps cx.old.emission.bytes.items cx.new.emission.bytes.items }
        ensures written { OnOk result (WroteTypes self.now cx.old.emission.bytes.items cx.new.emission.bytes.items) }
    {
        let types = emitted_types(self)?;
        emit_types(&mut cx.emission.bytes, &types)
    }
}

impl Emit for ModuleImports {
    fn emit<B>(&self, cx: &mut EmitContext<'_, B>) -> Result<()>
        ensures keeps { Keeps cx.old.emission.bytes.items cx.new.emission.bytes.items }
        ensures written { Writes (imports (number_of (indices cx.old.emission.indices) 0) (means (parts cx.old.«module».now))) cx.old.emission.bytes.items cx.new.emission.bytes.items result }
    {
        let input = cx.module;
        emit_imports(&mut cx.emission.bytes, input, &cx.emission.indices)
    }
}

impl Emit for ModuleTables {
    fn emit<B>(&self, cx: &mut EmitContext<'_, B>) -> Result<()>
        ensures keeps { Keeps cx.old.emission.bytes.items cx.new.emission.bytes.items }
        ensures written { Writes (items.tables (number_of (indices cx.old.emission.indices) 0) (slots_of own_table self.now)) cx.old.emission.bytes.items cx.new.emission.bytes.items result }
    {
        emit_tables(&mut cx.emission.bytes, self, &cx.emission.indices)
    }
}

impl Emit for ModuleMemories {
    fn emit<B>(&self, cx: &mut EmitContext<'_, B>) -> Result<()>
        ensures keeps { Keeps cx.old.emission.bytes.items cx.new.emission.bytes.items }
        ensures written { Writes (items.memories (slots_of own_memory self.now)) cx.old.emission.bytes.items cx.new.emission.bytes.items result }
    {
        emit_memories(&mut cx.emission.bytes, self)
    }
}

impl Emit for ModuleTags {
    fn emit<B>(&self, cx: &mut EmitContext<'_, B>) -> Result<()>
        ensures keeps { Keeps cx.old.emission.bytes.items cx.new.emission.bytes.items }
        ensures written { Writes (items.tags (number_of (indices cx.old.emission.indices) 0) (slots_of own_tag self.now)) cx.old.emission.bytes.items cx.new.emission.bytes.items result }
    {
        emit_tags(&mut cx.emission.bytes, self, &cx.emission.indices)
    }
}

impl Emit for ModuleGlobals {
    fn emit<B>(&self, cx: &mut EmitContext<'_, B>) -> Result<()>
        ensures keeps { Keeps cx.old.emission.bytes.items cx.new.emission.bytes.items }
        ensures written { Writes (items.globals (number_of (indices cx.old.emission.indices) 0) (slots_of own_global self.now)) cx.old.emission.bytes.items cx.new.emission.bytes.items result }
    {
        emit_globals(&mut cx.emission.bytes, self, &cx.emission.indices)
    }
}

impl Emit for ModuleExports {
    fn emit<B>(&self, cx: &mut EmitContext<'_, B>) -> Result<()>
        ensures keeps { Keeps cx.old.emission.bytes.items cx.new.emission.bytes.items }
        ensures written { Writes (items.exports (number_of (indices cx.old.emission.indices) 0) (slots_of own_export self.now)) cx.old.emission.bytes.items cx.new.emission.bytes.items result }
    {
        emit_exports(&mut cx.emission.bytes, self, &cx.emission.indices)
    }
}

impl Emit for ModuleElements {
    fn emit<B>(&self, cx: &mut EmitContext<'_, B>) -> Result<()>
        ensures keeps { Keeps cx.old.emission.bytes.items cx.new.emission.bytes.items }
        ensures written { Writes (elements (number_of (indices cx.old.emission.indices) 0) (slots_of own_table cx.old.«module».now.tables) (slots_of own_element self.now)) cx.old.emission.bytes.items cx.new.emission.bytes.items result }
    {
        let tables = &cx.module.tables;
        emit_elements(&mut cx.emission.bytes, self, tables, &cx.emission.indices)
    }
}

impl Emit for ModuleData {
    fn emit<B>(&self, cx: &mut EmitContext<'_, B>) -> Result<()>
        ensures keeps { Keeps cx.old.emission.bytes.items cx.new.emission.bytes.items }
        ensures written { Writes (items.segments (number_of (indices cx.old.emission.indices) 0) (slots_of own_segment self.now)) cx.old.emission.bytes.items cx.new.emission.bytes.items result }
    {
        emit_data(&mut cx.emission.bytes, self, &cx.emission.indices)
    }
}

impl Emit for ModuleFunctions {
    fn emit<B>(&self, cx: &mut EmitContext<'_, B>) -> Result<()>
        ensures keeps { Keeps cx.old.emission.bytes.items cx.new.emission.bytes.items }
        ensures numbered { OnOk result (indices cx.new.emission.indices ≡ bodies_numbers cx.old.«module».now.locals self.now (indices cx.old.emission.indices) (facts_at cx.old.facts.now cx.old.order.items)) }
        ensures written { OnOk result (written cx.new.emission.bytes.items ≡ written cx.old.emission.bytes.items ++ code.code cx.old.«module».now.locals self.now (indices cx.old.emission.indices) (facts_at cx.old.facts.now cx.old.order.items)) }
        ensures located { OnOk result (cx.new.emission.locations.items ≡ cx.old.emission.locations.items ++ if_kept cx.old.«module».now.config.preserve_code_transform (places.locations cx.old.«module».now.locals self.now (indices cx.old.emission.indices) (facts_at cx.old.facts.now cx.old.order.items))) }
        ensures ranged { OnOk result (cx.new.emission.ranges.items ≡ cx.old.emission.ranges.items ++ places.ranges cx.old.«module».now.locals self.now (indices cx.old.emission.indices) (facts_at cx.old.facts.now cx.old.order.items)) }
        ensures begins { OnOk result (cx.new.emission.code_section_start ≡ places.code_start cx.old.«module».now.locals self.now (indices cx.old.emission.indices) cx.old.emission.code_section_start (length cx.old.emission.bytes.items) (facts_at cx.old.facts.now cx.old.order.items)) }
    {
        let code = Code {
            locals: &cx.module.locals,
            functions: self,
            facts: cx.facts,
            order: cx.order.as_slice(),
            keeps_places: cx.module.config().preserve_code_transform,
        };
        emit_functions(cx.alloc, &mut cx.emission, &code)
    }
}

impl Emit for ModuleProducers {
    fn emit<B>(&self, cx: &mut EmitContext<'_, B>) -> Result<()>
        ensures keeps { Keeps cx.old.emission.bytes.items cx.new.emission.bytes.items }
        ensures written { Writes (written (producers_section (fields_of self.now))) cx.old.emission.bytes.items cx.new.emission.bytes.items result }
    {
        write_producers(&mut cx.emission.bytes, self.fields())
    }
}
