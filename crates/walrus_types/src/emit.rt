//! Writing a table as the records of a type section.
ghost use Rattle.std.specs.Prelude.{◌≡◌, None, IfOk, IfErr, length, map, slice_index_or};
ghost use Rattle.walrus_type_arenas.specs.Emission.{IsEmission, IsRefusal};
ghost use Rattle.walrus_types.specs.Inverse.{AreInverse};
ghost use Rattle.walrus_types.specs.Mergers.{entries_of};
ghost use Rattle.walrus_types.specs.Parsing.{AreBelow};
ghost use Rattle.walrus_type_arenas.specs.walrus_type_index.walrus_items.walrus_forms.Records.{type_group};

use crate::error::IrError;
use crate::table::ModuleTypes;
use std::marker::Model;
use walrus_type_arenas::type_index::arena::TypeId;
use walrus_type_arenas::type_index::forms::GroupRecord;
use walrus_type_arenas::{group_records, groups_in_order, indices_of, written_of};

/// The index of each type that was written, a finite map.
#[derive(Drop)]
pub struct TypeIndices {
    pub(crate) indices: Vec<Option<u32>>,
}

impl Model for TypeIndices {
    ghost use Rattle.std.specs.Prelude.{ℕ, List, Option};

    ghost Value = { List (Option ℕ) };

    ghost view = { λ t. t.indices.items };
}

impl TypeIndices {
    /// The index of this type, if it was written.
    pub fn get(&self, id: TypeId) -> Option<u32>
        ensures { result ≡ slice_index_or self.now id None }
    {
        match self.indices.get(id.index()) {
            Some(index) => *index,
            None => None,
        }
    }
}

/// A table as it is written: the groups of a type section, the index of each type, and the type at each
/// index.
#[derive(Drop)]
pub struct EmittedTypes {
    pub groups: Vec<GroupRecord>,
    pub indices: TypeIndices,
    /// The types in the order in which they are written.
    pub ids: Vec<TypeId>,
}

impl ModuleTypes {
    /// The table as the groups of a type section, in the order in which they are written, with the index
    /// of each type and the type at each index. Entry types aren't written.
    ///
    /// Groups stand by rising id. Those that are written as groups, and single types that name a type,
    /// keep this order; the single types between two of them are sorted, equal ones by id: functions,
    /// structures, arrays; by parameters and then results, or fields; open ones before final ones. A type
    /// names types below the end of its group, so that [`ModuleTypes::parse_types`] reads the groups.
    ///
    /// # Errors
    ///
    /// The fault of the first name, in the order of what is written, with which anything is wrong: `Dead`
    /// where it names a deleted type, `EntryOnly` where it names an entry type, and `Later` where it names
    /// a type past the group that it stands in. `Memory` for want of memory, and where more types are
    /// written than indices can number.
    pub fn emit(&self) -> Result<EmittedTypes, IrError>
        ensures emitted { IfOk result (λ emitted. IsEmission self.now (map type_group emitted.groups.items) emitted.indices) }
        ensures inverse { IfOk result (λ emitted. AreInverse emitted.ids.items emitted.indices) }
        ensures counted { IfOk result (λ emitted. length emitted.ids.items ≡ length (entries_of (map type_group emitted.groups.items))) }
        ensures below { IfOk result (λ emitted. AreBelow 0 (map type_group emitted.groups.items)) }
        ensures refused { IfErr result (IsRefusal self.now) }
    {
        let groups = groups_in_order(self.alloc, &self.types, &self.groups)?;
        let written = written_of(self.alloc, &self.types, groups.as_slice())?;
        if written.len() > u32::MAX as usize {
            return Err(IrError::Memory);
        }
        let count = self.types.next_id().index();
        let indices = indices_of(self.alloc, count, written.as_slice())?;
        let made = group_records(
            self.alloc,
            &self.types,
            indices.as_slice(),
            groups.as_slice(),
        )?;
        match made {
            Ok(groups) => Ok(EmittedTypes {
                groups,
                indices: TypeIndices { indices },
                ids: written,
            }),
            Err(fault) => Err(fault),
        }
    }
}
