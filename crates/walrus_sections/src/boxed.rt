//! A box of a custom section is one.
ghost use Rattle.std.specs.DynBox.{dyn_box_with};

use crate::custom::CustomSection;
use crate::fault::SectionFault;
use crate::transform::CodeTransform;
use std::alloc::Global;
use walrus_index_maps::IdsToIndices;
use walrus_roots::Roots;

impl CustomSection for Box<dyn CustomSection> {
    ghost own_name = { λ b. (CustomSection-box b).own_name b.value };

    ghost contents = { λ b. (CustomSection-box b).contents b.value };

    ghost gc_roots = { λ b. (CustomSection-box b).gc_roots b.value };

    ghost transformed = { λ b transform. dyn_box_with b b.vtable ((CustomSection-box b).transformed b.value transform) };

    fn name(&self) -> &str {
        (**self).name()
    }

    fn data(&self, alloc: Global, ids_to_indices: &IdsToIndices) -> Result<Vec<u8>, SectionFault> {
        (**self).data(alloc, ids_to_indices)
    }

    fn add_gc_roots(&self, roots: &mut Roots) -> Result<(), SectionFault> {
        (**self).add_gc_roots(roots)
    }

    fn apply_code_transform(&mut self, transform: &CodeTransform) {
        (**self).apply_code_transform(transform)
    }
}
