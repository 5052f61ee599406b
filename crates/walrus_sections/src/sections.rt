//! The custom sections of a module.
ghost use Rattle.std.specs.Prelude.{◌≡◌, ◌↔◌, ◌≤◌, ◌+◌, [], ◌∷◌, ◌++◌, IsTrue, IsSome, IfOk, OnOk, OnErr, IfSome, Some, None, slice_set, option_copied};
ghost use Rattle.std.specs.Option.{option_map, option_and_then, option_copied_mut};
ghost use Rattle.std.specs.Borrow.{sem};
ghost use Rattle.walrus_arena.specs.Arena.{item_at, IsLive, next_id, lowest_id, entries, ids};
ghost use Rattle.walrus_sections.specs.Answers.{Answers, Pushes};
ghost use Rattle.walrus_sections.specs.Sections.{name_in, raw_of, boxed_of, raw_at, boxed_at, is_raw_named, pushed, without, IsRaw, AddsRaw};
ghost use Rattle.walrus_sections.specs.Lends.{lends_boxed_at, lends_get};
ghost use Rattle.walrus_sections.specs.declared.section.Section.TheVariants.{Raw, Boxed};

use crate::custom::CustomSection;
use crate::fault::SectionFault;
use crate::section::Section;
use std::alloc::{AllocError, Global};
use std::marker::Model;
use walrus_arena::{Ids, TombstoneArena, UntypedCustomSectionId, UntypedCustomSectionSpace};
use walrus_customs::RawCustomSection;
use walrus_roots::Roots;

/// Custom sections under ids, raw ones and those that a program brought. A deleted section's id stays dead, and no id is given out
/// twice.
///
/// Finding by id, adding and deleting take constant time. What goes by name goes through the sections.
#[derive(Drop)]
pub struct Sections<B> {
    alloc: Global,
    arena: TombstoneArena<Section<B>, UntypedCustomSectionSpace>,
}

impl<B> Model for Sections<B> {
    ghost use Rattle.walrus_arena.specs.Arena.{Arena};
    ghost use Rattle.walrus_sections.specs.declared.section.Section.{Section};

    ghost Value = { Arena (Section B) };

    ghost view = { λ s. s.arena };
}

// A raw section of this name and these bytes.
fn raw_section(alloc: Global, name: &str, bytes: &[u8]) -> Result<RawCustomSection, AllocError>
    ensures { IfOk result (IsRaw name.now bytes.now) }
{
    Ok(RawCustomSection {
        name: String::from_str(alloc, name)?,
        bytes: bytes.to_vec(alloc)?,
    })
}

/// The custom sections of a module.
pub type ModuleCustomSections = Sections<Box<dyn CustomSection>>;

impl<B> Sections<B> {
    /// No sections. Takes no memory.
    pub fn new(alloc: Global) -> Self
        ensures empty { result.slots ≡ [] }
        ensures room { result.room ≡ 0 }
    {
        Sections {
            alloc,
            arena: TombstoneArena::new(alloc),
        }
    }

    /// Whether the id's section lives.
    pub fn contains(&self, id: UntypedCustomSectionId) -> bool
        ensures { IsTrue result ↔ IsLive self.now id }
    {
        self.arena.contains(id)
    }

    /// The live ids, by rising id.
    pub fn iter(&self) -> Ids<'_, Section<B>, UntypedCustomSectionSpace>
        ensures { result ≡ ids self.now }
    {
        self.arena.ids()
    }

    /// The raw section of an id, or `None` where it is dead or a boxed one's.
    pub fn get_raw(&self, id: UntypedCustomSectionId) -> Option<&RawCustomSection>
        ensures { option_copied result ≡ raw_at self.now id }
    {
        match self.arena.get(id) {
            Some(section) => section.raw(),
            None => None,
        }
    }

    /// The boxed section of an id, or `None` where it is dead or a raw one's.
    pub fn get(&self, id: UntypedCustomSectionId) -> Option<&B>
        ensures { option_copied result ≡ boxed_at self.now id }
    {
        match self.arena.get(id) {
            Some(section) => section.boxed(),
            None => None,
        }
    }
    /// The boxed section of an id for writing, or `None` where it is dead or a raw one's.
    pub fn get_mut(&mut self, id: UntypedCustomSectionId) -> Option<&mut B>
        ensures* writes_back { sem 𝓛 (lends_get B.row self.entry id result) }
        ensures value { option_copied_mut result ≡ boxed_at self.old id }
    {
        if self.get(id).is_some() {
            Some(self.boxed_mut(id))
        } else {
            None
        }
    }

    fn boxed_mut(&mut self, id: UntypedCustomSectionId) -> &mut B
        requires { IsSome (boxed_at self.old id) }
        ensures* writes_back { sem 𝓛 (lends_boxed_at B.row self.entry id result) }
        ensures value { boxed_at self.old id ≡ Some result.now }
    {
        self.arena[id].boxed_mut()
    }
}

impl<B: Drop> Sections<B> {
    /// Adds a section that stands as in a file, and gives its id.
    ///
    /// # Errors
    ///
    /// Want of memory. The sections stay as they were.
    pub fn add_raw(
        &mut self,
        name: &str,
        bytes: &[u8],
    ) -> Result<UntypedCustomSectionId, AllocError>
        ensures id { IfOk result (λ id. id ≡ next_id self.old) }
        ensures added { OnOk result (AddsRaw name.now bytes.now self.old.slots self.new.slots) }
        ensures refused { OnErr result (self.new ≡ self.old) }
    {
        let section = raw_section(self.alloc, name, bytes)?;
        let id = self.arena.alloc(Section::Raw(section))?;
        Ok(id)
    }

    /// Adds a section that a program brings, and gives its id.
    ///
    /// # Errors
    ///
    /// Want of memory. The sections stay as they were, and the section is dropped.
    pub fn add(&mut self, section: B) -> Result<UntypedCustomSectionId, AllocError>
        ensures id { IfOk result (λ id. id ≡ next_id self.old) }
        ensures added { OnOk result (self.new.slots ≡ self.old.slots ++ Some (Boxed section) ∷ []) }
        ensures refused { OnErr result (self.new ≡ self.old) }
    {
        self.arena.alloc(Section::Boxed(section))
    }

    /// Hands out the section of an id, or `None` where it is dead. The id stays dead. Takes no memory.
    pub fn delete(&mut self, id: UntypedCustomSectionId) -> Option<Section<B>>
        ensures section { result ≡ item_at self.old id }
        ensures deleted { self.new.slots ≡ slice_set self.old.slots id None }
        ensures room { self.old.room ≤ self.new.room }
    {
        if self.arena.contains(id) {
            Some(self.arena.take(id))
        } else {
            None
        }
    }

    /// Hands out the raw section of this name that has the lowest id, or `None` where no raw one has the name. Its id stays dead.
    /// Goes through the sections, and takes no memory.
    pub fn remove_raw(&mut self, name: &str) -> Option<RawCustomSection>
        ensures section { result ≡ option_and_then (raw_at self.old) (lowest_id (is_raw_named name.now) self.old) }
        ensures deleted { self.new.slots ≡ without (lowest_id (is_raw_named name.now) self.old) self.old.slots }
        ensures room { self.old.room ≤ self.new.room }
    {
        let id = self.lowest_raw(name)?;
        match self.delete(id) {
            Some(Section::Raw(section)) => Some(section),
            _ => None,
        }
    }

    fn lowest_raw(&self, name: &str) -> Option<UntypedCustomSectionId>
        ensures { result ≡ lowest_id (is_raw_named name.now) self.now }
    {
        for (id, section) in self.arena.iter() {
            if section.is_raw_named(name) {
                return Some(id);
            }
        }
        None
    }
}

impl<B: CustomSection> Sections<B> {
    /// The name of an id's section, or `None` where it is dead.
    pub fn name(&self, id: UntypedCustomSectionId) -> Option<&str>
        ensures { option_copied result ≡ option_map (name_in B.own_name) (item_at self.now id) }
    {
        match self.arena.get(id) {
            Some(section) => Some(section.name()),
            None => None,
        }
    }

    /// Adds the items that the sections keep: each section is asked once, by rising id, until one refuses.
    ///
    /// # Errors
    ///
    /// The first refusal. What the roots hold then is not said.
    pub fn add_gc_roots(&self, roots: &mut Roots) -> Result<(), SectionFault>
        ensures { Pushes (pushed B.gc_roots (entries self.now)) roots.old roots.new result }
    {
        for (_, section) in self.arena.iter() {
            section.add_gc_roots(roots)?;
        }
        Ok(())
    }

    /// The items that the sections keep, those of each behind those of lower ids.
    ///
    /// # Errors
    ///
    /// The first refusal.
    pub fn gc_roots(&self, alloc: Global) -> Result<Roots, SectionFault>
        ensures { Answers (pushed B.gc_roots (entries self.now)) result }
    {
        let mut roots = Roots::new(alloc);
        self.add_gc_roots(&mut roots)?;
        Ok(roots)
    }
}
