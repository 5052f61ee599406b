//! A module of the tests' own, and what indices name in it.

use crate::forms::{EMPTY, id};
use std::alloc::{AllocError, Global};
use walrus_arena::{LocalId, MemoryId, TagId, TypeId};
use walrus_body_env::BodyEnv;
use walrus_index_maps::IndicesToIds;
use walrus_instr::InstrSeqType;
use walrus_types::ValType;

/// What bodies ask of it. Of its types the first has neither parameters nor results, the second and the third have the parameters
/// `one`, the third has the results `one`; none but the first is a pick. Its tags are of the second, its handlers of the third.
#[derive(Clone, Copy)]
pub(crate) struct TestModule<'a> {
    /// An i32.
    pub(crate) one: &'a [ValType],
    /// Whether it has a data count section.
    pub(crate) has_data_count: bool,
    /// Where the contents of its code section begin.
    pub(crate) code_start: u32,
}

impl<'a> BodyEnv for TestModule<'a> {
    ghost use Rattle.std.specs.Prelude.{◌==◌, [], Some, None, false, length, if◌then◌else◌};
    ghost use Rattle.walrus_instr.specs.declared.seq.InstrSeqType.TheVariants.{Simple, MultiValue};

    ghost type_params = { λ e ty. if ty == 0 then Some [] else Some e.one.now };

    ghost type_results = { λ e ty. if ty == 2 then Some e.one.now else Some [] };

    ghost block_type = { λ e params results. if length params == 0 then (if length results == 0 then Some (Simple None) else None) else None };

    ghost handler_type = { λ e params results. Some (MultiValue 2) };

    ghost local_type = { λ e local. None };

    ghost tag_type = { λ e tag. Some 1 };

    ghost is_wide = { λ e memory. false };

    ghost has_data_count = { λ e. e.has_data_count };

    ghost code_start = { λ e. e.code_start };

    fn params(&self, ty: TypeId) -> Option<&[ValType]> {
        if ty.index() == 0 {
            return Some(&[]);
        }
        Some(self.one)
    }

    fn results(&self, ty: TypeId) -> Option<&[ValType]> {
        if ty.index() == 2 {
            return Some(self.one);
        }
        Some(&[])
    }

    fn block_type(&self, params: &[ValType], results: &[ValType]) -> Option<InstrSeqType> {
        if params.len() == 0 {
            if results.len() == 0 {
                return Some(EMPTY);
            }
        }
        None
    }

    fn handler_type(&self, _params: &[ValType], _results: &[ValType]) -> Option<InstrSeqType> {
        Some(InstrSeqType::MultiValue(TypeId::from_index(2)))
    }

    fn local_type(&self, _local: LocalId) -> Option<ValType> {
        None
    }

    fn tag_type(&self, _tag: TagId) -> Option<TypeId> {
        Some(TypeId::from_index(1))
    }

    fn is_memory64(&self, _memory: MemoryId) -> bool {
        false
    }

    fn has_data_count(&self) -> bool {
        self.has_data_count
    }

    fn code_start(&self) -> u64 {
        self.code_start as u64
    }
}

/// Three types, three functions, a memory, a global, a tag and a data segment.
pub(crate) fn indices(alloc: Global) -> Result<IndicesToIds, AllocError> {
    let mut indices = IndicesToIds::new(alloc);
    for number in 0..3u64 {
        indices.push_type(id(number))?;
        indices.push_func(id(number))?;
    }
    indices.push_memory(id(0))?;
    indices.push_global(id(0))?;
    indices.push_tag(id(0))?;
    indices.push_data(id(0))?;
    Ok(indices)
}
