//! Custom sections that a program brings.
ghost use Rattle.std.specs.Prelude.{◌≡◌, ℕ, List, [], Option, Some};
ghost use Rattle.walrus_roots.specs.declared.item.Item.{Item};
ghost use Rattle.walrus_index_maps.specs.Maps.{Indices};
ghost use Rattle.walrus_index_maps.specs.Views.{indices};
ghost use Rattle.walrus_sections.specs.declared.transform.CodeTransform.{CodeTransform};
ghost use Rattle.walrus_sections.specs.Answers.{Gives, Pushes};

use crate::fault::SectionFault;
use crate::transform::CodeTransform;
use std::alloc::Global;
use walrus_index_maps::IdsToIndices;
use walrus_roots::Roots;

/// A custom section that a program brings (Core Specification, custom section). What it answers is a function of its value.
///
/// A section that keeps no items writes an `add_gc_roots` that answers `Ok`, one that holds no place in the code an
/// `apply_code_transform` that does nothing.
pub trait CustomSection: Drop {
    /// Its name, in UTF-8.
    ghost own_name: { Self → List ℕ };

    /// Its contents behind the name, given the numbers of ids; none where it refuses.
    ghost contents: { Self → Indices → Option (List ℕ) };

    /// The items that it keeps, in the order in which it adds them; none where it refuses.
    ghost gc_roots: { Self → Option (List Item) } = { λ _. Some [] };

    /// What it is after it was told where the code was written.
    ghost transformed: { Self → CodeTransform → Self } = { λ section _. section };

    /// Its name.
    fn name(&self) -> &str
        ensures { result.now ≡ own_name self.now };

    /// Its contents behind the name, where each id is written as its number.
    ///
    /// # Errors
    ///
    /// Want of memory, or the section's own refusal.
    fn data(&self, alloc: Global, ids_to_indices: &IdsToIndices) -> Result<Vec<u8>, SectionFault>
        ensures { Gives (contents self.now (indices ids_to_indices.now)) result };

    /// Adds the items that are to be kept, whatever names them.
    ///
    /// # Errors
    ///
    /// Want of memory, or the section's own refusal. What the roots hold then is not said.
    fn add_gc_roots(&self, roots: &mut Roots) -> Result<(), SectionFault>
        ensures { Pushes (gc_roots self.now) roots.old roots.new result };

    /// Is told where the code was written, before it is asked for its contents.
    fn apply_code_transform(&mut self, transform: &CodeTransform)
        ensures { self.new ≡ transformed self.old transform.now };
}
