//! Custom sections, what they keep and are told, and producers.

use crate::own::{keep, refuse};
use std::alloc::{AllocError, Global};
use walrus_arena::{FunctionId, GlobalId, MemoryId, TableId, TagId, UntypedCustomSectionId};
use walrus_config::ModuleConfig;
use walrus_customs::{ModuleProducers, RawCustomSection};
use walrus_index_maps::IdsToIndices;
use walrus_roots::Roots;
use walrus_sections::{CodeTransform, CustomSection, ModuleCustomSections, Section, SectionFault};

// The number of the first function that is kept, how many are, or why that isn't known.
fn kept(sections: &ModuleCustomSections, alloc: Global) -> Result<(usize, u32), SectionFault> {
    let roots = sections.gc_roots(alloc)?;
    match roots.items().first() {
        Some(item) => Ok((roots.items().len(), item.id)),
        None => Ok((0, 0)),
    }
}

fn holds(
    sections: &ModuleCustomSections,
    id: UntypedCustomSectionId,
    alloc: Global,
    bytes: &[u8],
) -> bool {
    let numbers = IdsToIndices::new(alloc);
    match sections.get(id) {
        Some(section) => match section.data(alloc, &numbers) {
            Ok(found) => found.as_slice() == bytes,
            Err(_) => false,
        },
        None => false,
    }
}

fn tell(
    sections: &mut ModuleCustomSections,
    id: UntypedCustomSectionId,
    transform: &CodeTransform,
) {
    if let Some(section) = sections.get_mut(id) {
        section.apply_code_transform(transform);
    }
}

// A place in the code of one function.
fn transform(alloc: Global) -> Result<CodeTransform, AllocError> {
    let mut ranges = Vec::new(alloc);
    ranges.push((FunctionId::from_index(5), 9..12))?;
    Ok(CodeTransform {
        instruction_map: Vec::new(alloc),
        code_section_start: 8,
        function_ranges: ranges,
    })
}

fn is_told(
    alloc: Global,
    sections: &mut ModuleCustomSections,
    id: UntypedCustomSectionId,
) -> Result<bool, AllocError> {
    let transform = transform(alloc)?;
    let copy = transform.clone()?;
    let before = holds(sections, id, alloc, &[0]);
    tell(sections, id, &copy);
    Ok(before && copy.function_ranges.len() == 1 && holds(sections, id, alloc, &[1]))
}

fn is_copied(raw: Option<RawCustomSection>) -> Result<bool, AllocError> {
    match raw {
        Some(raw) => Ok(raw.clone()?.bytes.as_slice() == [0x2a].as_slice()),
        None => Ok(false),
    }
}

// Whether a raw section and one of our own are there until they go, what ours keeps is told, and of two refusals the first.
fn stand(alloc: Global, sections: &mut ModuleCustomSections) -> Result<bool, AllocError> {
    let raw = sections.add_raw("x", &[0x2a])?;
    let own = keep(alloc, sections, FunctionId::from_index(3))?;
    let has_both = sections.name(raw) == Some("x") && sections.name(own) == Some("k");
    let is_told = is_told(alloc, sections, own)? && kept(sections, alloc) == Ok((1, 3));
    let refuser = refuse(alloc, sections, SectionFault::Refused)?;
    refuse(alloc, sections, SectionFault::Memory)?;
    let is_first = kept(sections, alloc) == Err(SectionFault::Refused);
    let is_gone = matches!(sections.delete(refuser), Some(Section::Boxed(_)));
    Ok(
        has_both
            && is_told
            && is_first
            && is_gone
            && kept(sections, alloc) == Err(SectionFault::Memory)
            && is_copied(sections.remove_raw("x"))?
            && !sections.contains(raw),
    )
}

fn add_roots(roots: &mut Roots) -> Result<(), AllocError> {
    roots.push_func(FunctionId::from_index(5))?;
    roots.push_table(TableId::from_index(4))?;
    roots.push_memory(MemoryId::from_index(3))?;
    roots.push_global(GlobalId::from_index(2))?;
    roots.push_tag(TagId::from_index(1))
}

fn have_roots(roots: &mut Roots) -> Result<bool, AllocError> {
    add_roots(roots)?;
    Ok(roots.clone()?.items().len() == 5)
}

#[test]
fn sections_and_roots(rt: HostRuntime) {
    let mut sections = ModuleCustomSections::new(rt.alloc());
    assert!(rt; stand(rt.alloc(), &mut sections) == Ok(true));
    let mut roots = Roots::new(rt.alloc());
    assert!(rt; have_roots(&mut roots) == Ok(true));
}

// Whether a language, a kit and a tool are told, the last version of each, and a copy stands by itself.
fn are_told(producers: &mut ModuleProducers) -> Result<bool, AllocError> {
    producers.add_language("Rust", "1.0")?;
    producers.add_language("Rust", "1.1")?;
    producers.add_sdk("kit", "2")?;
    producers.add_processed_by("walrus", "0.28.0")?;
    let mut versions = producers.fields().len() == 3;
    for field in producers.fields() {
        match field.clone()?.values() {
            [value] => versions &= value.version() != "1.0",
            _ => versions = false,
        }
    }
    let copy = producers.clone()?;
    producers.clear();
    Ok(versions && producers.fields().is_empty() && copy.fields().len() == 3)
}

#[test]
fn producers(rt: HostRuntime) {
    let mut producers = ModuleProducers::new(rt.alloc());
    assert!(rt; are_told(&mut producers) == Ok(true));
}

fn set_some(config: &mut ModuleConfig) {
    config
        .generate_name_section(false)
        .generate_producers_section(false)
        .generate_dwarf(true)
        .preserve_code_transform(true)
        .strict_validate(false)
        .generate_synthetic_names_for_anonymous_items(true)
        .only_stable_features(true)
        .legacy_exceptions(false)
        .shared_types(true)
        .keep_segments(true);
}

#[test]
fn a_chain_of_setters_sets_its_flags(rt: HostRuntime) {
    let mut config = ModuleConfig::new();
    set_some(&mut config);
    assert!(rt; !config.generate_name_section && config.shared_types && config.keep_segments);
}
