//! Block types as sequences hold them.
ghost use Rattle.std.specs.Prelude.{◌≡◌};
ghost use Rattle.walrus_instr.specs.declared.seq.InstrSeqType.TheVariants.{Simple};
ghost use Rattle.walrus_types.specs.walrus_forms.declared.value.ValType.TheVariants.{Ref};
ghost use Rattle.walrus_instr.specs.SeqTypes.{bare, IsOwn, seq_type};

use crate::seq::InstrSeqType;
use std::marker::Model;
use walrus_types::arena::TypeId;
use walrus_types::{AbstractHeapType, HeapType, RefType, ValType};

// What a block type is, but for the type that it names, for null, and for which abstract type it is.
#[derive(Clone, Copy, PartialEq, Eq)]
enum Form {
    Empty,
    I32,
    I64,
    F32,
    F64,
    V128,
    Abstract,
    Shared,
    Concrete,
    Exact,
    Function,
}

/// A block type in 8 bytes, where `InstrSeqType` takes 24. Contracts see it as the block type.
// What a form has none of is the id 0, false, and the first abstract type: each block type is held in one way.
#[derive(Clone, Copy, PartialEq, Eq)]
pub struct SeqType {
    id: TypeId,
    form: Form,
    nullable: bool,
    heap: AbstractHeapType,
}

impl Model for SeqType {
    ghost use Rattle.walrus_instr.specs.declared.seq.InstrSeqType.{InstrSeqType};

    ghost Value = { InstrSeqType };

    ghost use Rattle.walrus_instr.specs.SeqTypes.{IsOwn, parts, seq_type};

    ghost view = { seq_type };

    ghost invariant = { IsOwn };

    ghost inverse = { parts };

    ghost inverse_ok = { λ a h. h };
}

impl SeqType {
    /// This block type.
    #[inline]
    pub fn new(ty: InstrSeqType) -> Self
        ensures { result ≡ ty }
    {
        match ty {
            InstrSeqType::Simple(ty) => SeqType::of_written(ty),
            InstrSeqType::MultiValue(id) => SeqType {
                id,
                form: Form::Function,
                nullable: false,
                heap: AbstractHeapType::Func,
            },
        }
    }

    /// The block type.
    #[inline]
    pub fn get(self) -> InstrSeqType
        ensures { result ≡ self }
    {
        match self.form {
            Form::Empty => InstrSeqType::Simple(None),
            Form::I32 => InstrSeqType::Simple(Some(ValType::I32)),
            Form::I64 => InstrSeqType::Simple(Some(ValType::I64)),
            Form::F32 => InstrSeqType::Simple(Some(ValType::F32)),
            Form::F64 => InstrSeqType::Simple(Some(ValType::F64)),
            Form::V128 => InstrSeqType::Simple(Some(ValType::V128)),
            Form::Abstract => reference(self.nullable, HeapType::Abstract(self.heap)),
            Form::Shared => reference(self.nullable, HeapType::Shared(self.heap)),
            Form::Concrete => reference(self.nullable, HeapType::Concrete(self.id)),
            Form::Exact => reference(self.nullable, HeapType::Exact(self.id)),
            Form::Function => InstrSeqType::MultiValue(self.id),
        }
    }

    // The block type of at most one result.
    #[inline]
    fn of_written(ty: Option<ValType>) -> Self
        ensures { result ≡ Simple ty }
    {
        match ty {
            None => SeqType::of_form(Form::Empty),
            Some(ty) => SeqType::of_value(ty),
        }
    }

    // The block type of a result.
    fn of_value(ty: ValType) -> Self
        ensures { result ≡ Simple (Some ty) }
    {
        match ty {
            ValType::I32 => SeqType::of_form(Form::I32),
            ValType::I64 => SeqType::of_form(Form::I64),
            ValType::F32 => SeqType::of_form(Form::F32),
            ValType::F64 => SeqType::of_form(Form::F64),
            ValType::V128 => SeqType::of_form(Form::V128),
            ValType::Ref(ty) => SeqType::of_reference(ty.nullable, ty.heap_type),
        }
    }

    // The block type of a reference.
    fn of_reference(nullable: bool, heap_type: HeapType) -> Self
        ensures { result ≡ Simple (Some (Ref (record { nullable = nullable; heap_type = heap_type }))) }
    {
        match heap_type {
            HeapType::Abstract(heap) => SeqType {
                id: TypeId::from_index(0),
                form: Form::Abstract,
                nullable,
                heap,
            },
            HeapType::Shared(heap) => SeqType {
                id: TypeId::from_index(0),
                form: Form::Shared,
                nullable,
                heap,
            },
            HeapType::Concrete(id) => SeqType {
                id,
                form: Form::Concrete,
                nullable,
                heap: AbstractHeapType::Func,
            },
            HeapType::Exact(id) => SeqType {
                id,
                form: Form::Exact,
                nullable,
                heap: AbstractHeapType::Func,
            },
        }
    }

    // The block type of a form that has nothing besides.
    fn of_form(form: Form) -> Self
        requires { IsOwn (bare form) }
        ensures { result ≡ seq_type (bare form) }
    {
        SeqType {
            id: TypeId::from_index(0),
            form,
            nullable: false,
            heap: AbstractHeapType::Func,
        }
    }
}

// The block type of a reference.
fn reference(nullable: bool, heap_type: HeapType) -> InstrSeqType
    ensures { result ≡ Simple (Some (Ref (record { nullable = nullable; heap_type = heap_type }))) }
{
    InstrSeqType::Simple(Some(ValType::Ref(RefType {
        nullable,
        heap_type,
    })))
}
