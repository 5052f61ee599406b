//! The types that were read.

ghost use Rattle.std.specs.Prelude.{◌≡◌, ◌++◌, ◌∷◌, [], length, map, slice_get, OnOk, OnErr};
ghost use Rattle.walrus_forms.specs.Records.{record_form, type_group};
ghost use Rattle.wasm_sections.specs.wasm_grammar.States.{is_function, form_test};
ghost use Rattle.walrus_known_sections.specs.Types.{kinds_in, form_fault, is_function_type};

use std::alloc::{AllocError, Global};
use std::marker::Model;
use std::mem;
use walrus_forms::{CompositeRecord, GroupRecord, TypeRecord};

/// The groups of types that were read, and of each type by its number whether it is a function type. Contracts see the groups.
#[derive(Drop)]
pub struct KnownTypes {
    groups: Vec<GroupRecord>,
    functions: Vec<bool>,
}

impl Model for KnownTypes {
    ghost use Rattle.std.specs.Prelude.{◌≡◌, List, map};
    ghost use Rattle.walrus_forms.specs.Records.{TypeGroup, type_group};
    ghost use Rattle.walrus_known_sections.specs.Types.{functions_in};

    ghost Value = { List TypeGroup };

    ghost view = { λ t. map type_group t.groups.items };

    ghost invariant = { λ t. t.functions.items ≡ functions_in (map type_group t.groups.items) };
}

// Whether it is a function type.
fn is_function(ty: &TypeRecord) -> bool
    ensures { result ≡ is_function_type ty.now }
{
    matches!(ty.kind, CompositeRecord::Function { .. })
}

// Which of the types are function types, behind those before.
fn push_functions(functions: &mut Vec<bool>, types: &[TypeRecord]) -> Result<(), AllocError>
    ensures pushed { OnOk result (functions.new.items ≡ functions.old.items ++ map is_function_type types.now) }
    ensures refused { OnErr result (functions.new.items ≡ functions.old.items) }
{
    functions.reserve(types.len())?;
    for ty in types {
        functions.push_reserved(is_function(ty));
    }
    Ok(())
}

impl KnownTypes {
    /// No types.
    pub fn new(alloc: Global) -> Self
        ensures { result ≡ [] }
    {
        KnownTypes {
            groups: Vec::new(alloc),
            functions: Vec::new(alloc),
        }
    }

    /// How many types there are.
    #[tactic(auto, using(crate::specs::Types::count_is))]
    pub fn len(&self) -> usize
        ensures { result ≡ length (kinds_in self.now) }
    {
        self.functions.len()
    }

    /// Whether the type of this number is a function type; none where there is no such type.
    #[tactic(auto, using(crate::specs::Types::there_is, crate::specs::Types::none_is))]
    pub fn is_function(&self, index: u32) -> Option<bool>
        ensures { form_test (slice_get (kinds_in self.now) index) ≡ form_fault result }
    {
        let index = index as usize;
        if index >= self.functions.len() {
            return None;
        }
        Some(self.functions[index])
    }

    /// Lets go of the groups: none are left here. Takes no memory.
    pub fn take_groups(&mut self) -> Vec<GroupRecord>
        ensures groups { map type_group result.items ≡ self.old }
        ensures left { self.new ≡ [] }
    {
        let alloc = *self.groups.allocator();
        self.functions = Vec::new(alloc);
        mem::replace(&mut self.groups, Vec::new(alloc))
    }

    /// One more group.
    ///
    /// # Errors
    ///
    /// Want of memory: nothing is added.
    #[tactic(auto, using(crate::specs::Types::one_more))]
    pub fn push(&mut self, group: GroupRecord) -> Result<(), AllocError>
        ensures pushed { OnOk result (self.new ≡ self.old ++ type_group group ∷ []) }
        ensures refused { OnErr result (self.new ≡ self.old) }
    {
        self.groups.reserve(1)?;
        push_functions(&mut self.functions, group.types.as_slice())?;
        self.groups.push_reserved(group);
        Ok(())
    }
}
