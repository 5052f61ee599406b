//! Custom sections (Core Specification, binary format: custom section).

ghost use Rattle.std.specs.Prelude.{◌≡◌, IfOk, OnErr, OnOk, Some};
ghost use Rattle.walrus_arena.specs.Arena.{item_at};
ghost use Rattle.walrus_index_maps.specs.Views.{indices};
ghost use Rattle.walrus_sections.specs.Sections.{name_in};
ghost use Rattle.walrus_emit_parts.specs.Due.{Writes};
ghost use Rattle.walrus_emit_customs.specs.Customs as due;
ghost use Rattle.walrus_emit_customs.specs.Customs.{custom, any_due, customs, standing_due, stands_at};
ghost use Rattle.walrus_emit_customs.specs.Told.{all_told, change_at, told_ids};

use std::alloc::Global;
use walrus_arena::UntypedCustomSectionId;
use walrus_emit_parts::{Part, write_bytes, write_name, write_section as write_part};
use walrus_errors::{ModuleError, Result};
use walrus_index_maps::IdsToIndices;
use walrus_sections::{CodeTransform, CustomSection, Sections};

// The sections that stand first.
fn is_first(name: &str) -> bool
    ensures { result ≡ due.is_first name.now }
{
    name == "dylink" || name == "dylink.0"
}

// The sections that aren't written.
fn is_skipped(name: &str) -> bool
    ensures { result ≡ due.is_skipped name.now }
{
    name.as_bytes().starts_with(b".debug")
}

// A name, and contents.
#[derive(Clone, Copy)]
struct Custom<'a> {
    name: &'a str,
    contents: &'a [u8],
}

impl<'a> Part for Custom<'a> {
    ghost use Rattle.walrus_emit_customs.specs.Customs.{named};

    ghost due = { λ c. named c.name.now c.contents.now };

    #[tactic(auto, using(walrus_emit_parts::proofs::Lemmas::writes_on, walrus_emit_parts::proofs::Lemmas::refused_front))]
    fn write(&self, out: &mut Vec<u8>) -> Result<()> {
        put!(write_name(out, self.name));
        write_bytes(out, self.contents)
    }
}

fn write_custom(out: &mut Vec<u8>, name: &str, contents: &[u8]) -> Result<()>
    ensures { Writes (custom name.now contents.now) out.old.items out.new.items result }
{
    write_part(out, 0, &Custom { name, contents })
}

// Asks a section of a program's own for its contents.
#[tactic(auto, using(crate::proofs::CustomLemmas::contents_given, crate::proofs::CustomLemmas::contents_refused))]
fn write_boxed<B: CustomSection>(
    alloc: Global,
    out: &mut Vec<u8>,
    section: &B,
    maps: &IdsToIndices,
) -> Result<()>
    ensures { Writes (due.told (B.own_name section.now) (B.contents section.now (indices maps.now))) out.old.items out.new.items result }
{
    let payload = match section.data(alloc, maps) {
        Ok(payload) => payload,
        Err(fault) => return Err(ModuleError::from(fault)),
    };
    write_custom(out, section.name(), payload.as_slice())
}

// A section of this id.
#[tactic(auto, using(crate::proofs::CustomLemmas::raw_written, crate::proofs::CustomLemmas::boxed_written, crate::proofs::CustomLemmas::none_written))]
fn write_section<B: CustomSection>(
    alloc: Global,
    out: &mut Vec<u8>,
    sections: &Sections<B>,
    id: UntypedCustomSectionId,
    maps: &IdsToIndices,
) -> Result<()>
    ensures { Writes (any_due B.own_name (λ b. B.contents b (indices maps.now)) (item_at sections.now id)) out.old.items out.new.items result }
{
    if let Some(section) = sections.get_raw(id) {
        return write_custom(out, section.name.as_str(), section.bytes.as_slice());
    }
    match sections.get(id) {
        Some(section) => write_boxed(alloc, out, section, maps),
        None => Ok(()),
    }
}

// Whether one of this name is written among those that stand first, or among the others.
fn is_there(name: &str, first: bool) -> bool
    ensures { result ≡ due.stands first name.now }
{
    if first {
        is_first(name)
    } else {
        !is_first(name) && !is_skipped(name)
    }
}

// Whether a section is.
fn stands<B: CustomSection>(sections: &Sections<B>, id: UntypedCustomSectionId, first: bool) -> bool
    ensures { result ≡ stands_at B.own_name first (item_at sections.now id) }
{
    match sections.name(id) {
        Some(name) => is_there(name, first),
        None => false,
    }
}

// One of these, if it stands there.
#[tactic(auto, using(crate::proofs::CustomLemmas::not_standing, crate::proofs::CustomLemmas::standing))]
fn write_standing<B: CustomSection>(
    alloc: Global,
    out: &mut Vec<u8>,
    sections: &Sections<B>,
    id: UntypedCustomSectionId,
    first: bool,
    maps: &IdsToIndices,
) -> Result<()>
    ensures { Writes (standing_due B.own_name (λ b. B.contents b (indices maps.now)) first (item_at sections.now id)) out.old.items out.new.items result }
{
    if !stands(sections, id, first) {
        return Ok(());
    }
    write_section(alloc, out, sections, id, maps)
}

/// The sections that stand first, or the others, by id.
///
/// # Errors
///
/// `SectionRefused` where a section of a program's own refuses to say what is in it; `OutputLimit` of strings where the name of a section is
/// longer than a reader takes; want of memory. What was there stands at the front.
pub fn write_sections<B: CustomSection>(
    alloc: Global,
    out: &mut Vec<u8>,
    sections: &Sections<B>,
    first: bool,
    maps: &IdsToIndices,
) -> Result<()>
    ensures { Writes (customs B.own_name (λ b. B.contents b (indices maps.now)) first sections.now) out.old.items out.new.items result }
{
    for id in sections.iter() {
        put!(write_standing(alloc, out, sections, id, first, maps));
    }
    Ok(())
}

// Tells a section of a program's own where code stands.
fn transform_one<B: CustomSection>(
    sections: &mut Sections<B>,
    id: UntypedCustomSectionId,
    transform: &CodeTransform,
)
    ensures { sections.new ≡ change_at (λ b. B.transformed b transform.now) sections.old id }
{
    match sections.get_mut(id) {
        Some(section) => section.apply_code_transform(transform),
        None => {}
    }
}

// The ids of the sections that are told.
fn told<B: CustomSection>(
    alloc: Global,
    sections: &Sections<B>,
) -> Result<Vec<UntypedCustomSectionId>>
    ensures { IfOk result (λ ids. ids.items ≡ told_ids B.own_name sections.now) }
{
    let mut ids = Vec::new(alloc);
    for id in sections.iter() {
        if stands(sections, id, false) {
            ids.push(id)?;
        }
    }
    Ok(ids)
}

/// Tells the sections of a program's own, but those that stand first, where code stands.
///
/// # Errors
///
/// Want of memory. None is told.
pub fn transform_sections<B: CustomSection>(
    alloc: Global,
    sections: &mut Sections<B>,
    transform: &CodeTransform,
) -> Result<()>
    ensures told { OnOk result (sections.new ≡ all_told (λ b. B.transformed b transform.now) B.own_name sections.old) }
    ensures untold { OnErr result (sections.new ≡ sections.old) }
{
    let ids = told(alloc, &*sections)?;
    for id in &ids {
        transform_one(sections, *id, transform);
    }
    Ok(())
}
