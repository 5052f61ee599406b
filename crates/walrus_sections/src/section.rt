//! A custom section, raw or boxed.
ghost use Rattle.std.specs.Prelude.{◌≡◌, option_copied, Some};
ghost use Rattle.std.specs.Borrow.{sem};
ghost use Rattle.walrus_sections.specs.Answers.{Pushes};
ghost use Rattle.walrus_sections.specs.Sections.{name_in, pushed_by, raw_of, boxed_of, is_raw_named, IsBoxed};
ghost use Rattle.walrus_sections.specs.Lends.{lends_boxed};
ghost use Rattle.walrus_sections.specs.declared.section.Section.TheVariants.{Boxed};

use crate::custom::CustomSection;
use crate::fault::SectionFault;
use walrus_arena::Tombstone;
use walrus_customs::RawCustomSection;
use walrus_roots::Roots;

/// A custom section of a module.
#[derive(Drop)]
pub enum Section<B = Box<dyn CustomSection>> {
    /// One that stands as in a file.
    Raw(RawCustomSection),
    /// One that a program brought.
    Boxed(B),
}

impl<B> Tombstone for Section<B> {
    fn on_delete(&mut self) {}
}

impl<B> Section<B> {
    pub(crate) fn raw(&self) -> Option<&RawCustomSection>
        ensures { option_copied result ≡ raw_of self.now }
    {
        match self {
            Section::Raw(section) => Some(section),
            Section::Boxed(_) => None,
        }
    }

    pub(crate) fn is_raw_named(&self, name: &str) -> bool
        ensures { result ≡ is_raw_named name.now self.now }
    {
        match self {
            Section::Raw(section) => section.name.as_str() == name,
            Section::Boxed(_) => false,
        }
    }

    pub(crate) fn boxed(&self) -> Option<&B>
        ensures { option_copied result ≡ boxed_of self.now }
    {
        match self {
            Section::Raw(_) => None,
            Section::Boxed(section) => Some(section),
        }
    }

    pub(crate) fn boxed_mut(&mut self) -> &mut B
        requires { IsBoxed self.old }
        ensures* lends { sem 𝓛 (lends_boxed B.row self.entry result) }
        ensures value { self.old ≡ Boxed result.now }
    {
        match self {
            Section::Boxed(section) => section,
            Section::Raw(_) => unreachable!(),
        }
    }
}

impl<B: CustomSection> Section<B> {
    pub(crate) fn name(&self) -> &str
        ensures { result.now ≡ name_in B.own_name self.now }
    {
        match self {
            Section::Raw(section) => section.name.as_str(),
            Section::Boxed(section) => section.name(),
        }
    }

    pub(crate) fn add_gc_roots(&self, roots: &mut Roots) -> Result<(), SectionFault>
        ensures { Pushes (pushed_by B.gc_roots self.now) roots.old roots.new result }
    {
        match self {
            Section::Raw(_) => Ok(()),
            Section::Boxed(section) => section.add_gc_roots(roots),
        }
    }
}
