//! A custom section of the tests' own.
ghost use Rattle.std.specs.Prelude.{true, [], ◌∷◌, Some, None, if◌then◌else◌};
ghost use Rattle.wasm_formats.specs.declared.fault.Space.TheVariants as spaces;
ghost use Rattle.walrus_roots.specs.Items.{item};

use std::alloc::{AllocError, Global};
use walrus_arena::{FunctionId, UntypedCustomSectionId};
use walrus_index_maps::IdsToIndices;
use walrus_roots::Roots;
use walrus_sections::{CodeTransform, CustomSection, ModuleCustomSections, SectionFault};

/// Keeps a function, or refuses to say what it keeps and holds; else it holds whether it was told where the code was written.
#[derive(Drop)]
pub(crate) struct Own {
    function: FunctionId,
    refuses: bool,
    fault: SectionFault,
    told: bool,
}

impl CustomSection for Own {
    ghost own_name = { λ _. 0x6b ∷ [] };

    ghost contents = { λ s _. if s.refuses then None else Some ((if s.told then 1 else 0) ∷ []) };

    ghost gc_roots = { λ s. if s.refuses then None else Some (item spaces.Function s.function ∷ []) };

    ghost transformed = { λ s _. record s { told = true } };

    fn name(&self) -> &str {
        "k"
    }

    fn data(&self, alloc: Global, _ids_to_indices: &IdsToIndices) -> Result<Vec<u8>, SectionFault> {
        if self.refuses {
            return Err(self.fault);
        }
        let byte = if self.told { 1u8 } else { 0u8 };
        let bytes = vec![in alloc; byte]?;
        Ok(bytes)
    }

    fn add_gc_roots(&self, roots: &mut Roots) -> Result<(), SectionFault> {
        if self.refuses {
            return Err(self.fault);
        }
        roots.push_func(self.function)?;
        Ok(())
    }

    fn apply_code_transform(&mut self, _transform: &CodeTransform) {
        self.told = true;
    }
}

/// Adds a section that keeps this function.
pub(crate) fn keep(
    alloc: Global,
    sections: &mut ModuleCustomSections,
    function: FunctionId,
) -> Result<UntypedCustomSectionId, AllocError> {
    sections.add(Box::new(
        alloc,
        Own {
            function,
            refuses: false,
            fault: SectionFault::Refused,
            told: false,
        },
    )?)
}

/// Adds a section that answers this when it is asked.
pub(crate) fn refuse(
    alloc: Global,
    sections: &mut ModuleCustomSections,
    fault: SectionFault,
) -> Result<UntypedCustomSectionId, AllocError> {
    sections.add(Box::new(
        alloc,
        Own {
            function: FunctionId::from_index(0),
            refuses: true,
            fault,
            told: false,
        },
    )?)
}
