//! Custom sections of the tests' own.
ghost use Rattle.std.specs.Prelude.{[], ◌∷◌, ◌+◌, ◌%◌, ◌^◌, Some, None, codes, if◌then◌else◌};

use std::alloc::{AllocError, Global};
use walrus_index_maps::IdsToIndices;
use walrus_passes::module::Module;
use walrus_roots::Roots;
use walrus_sections::{CodeTransform, CustomSection, SectionFault};

/// A section `y`, or one `dylink.0` that leads, in which stands how often it was told where code stands, or that refuses.
#[derive(Clone, Copy)]
pub(crate) struct Own {
    pub(crate) leads: bool,
    pub(crate) refuses: bool,
    pub(crate) told: u8,
}

impl CustomSection for Own {
    ghost own_name = { λ s. if s.leads then codes "dylink.0" else codes "y" };

    ghost contents = { λ s _. if s.refuses then None else Some (s.told ∷ []) };

    ghost transformed = { λ s _. record { leads = s.leads; refuses = s.refuses; told = (s.told + 1) % 2 ^ 8 } };

    fn name(&self) -> &str {
        if self.leads { "dylink.0" } else { "y" }
    }

    fn data(&self, alloc: Global, _ids: &IdsToIndices) -> Result<Vec<u8>, SectionFault> {
        if self.refuses {
            return Err(SectionFault::Refused);
        }
        let bytes = vec![in alloc; self.told]?;
        Ok(bytes)
    }

    fn add_gc_roots(&self, _roots: &mut Roots) -> Result<(), SectionFault> {
        Ok(())
    }

    fn apply_code_transform(&mut self, _transform: &CodeTransform) {
        self.told = self.told.wrapping_add(1);
    }
}

/// Adds a section.
pub(crate) fn add_own(alloc: Global, module: &mut Module, own: Own) -> Result<(), AllocError> {
    module.customs.add(Box::new(alloc, own)?)?;
    Ok(())
}
