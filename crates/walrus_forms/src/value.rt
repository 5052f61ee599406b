//! Value types (Core Specification, value types) and what fields hold (field types).
ghost use Rattle.std.specs.Prelude.{◌≡◌};
ghost use Rattle.walrus_forms.specs.Values.{unpacked, heap_name, ref_name, value_name, storage_name, field_name};

use walrus_arena::TypeId;

/// A heap type without an index, in the order in which types are written.
#[derive(Clone, Copy, PartialEq, Eq, PartialOrd, Ord, Hash)]
pub enum AbstractHeapType {
    Func,
    Extern,
    Any,
    None,
    NoExtern,
    NoFunc,
    Eq,
    Struct,
    Array,
    I31,
    Exn,
    NoExn,
}

/// What a reference points to.
#[derive(Clone, Copy, PartialEq, Eq, PartialOrd, Ord, Hash)]
pub enum HeapType {
    Abstract(AbstractHeapType),
    /// The same among what threads share (the proposal of shared-everything threads).
    Shared(AbstractHeapType),
    /// Values of this type and of its subtypes.
    Concrete(TypeId),
    /// Values of this type alone.
    Exact(TypeId),
}

/// A reference type. Those without null come first in the order.
#[derive(Clone, Copy, PartialEq, Eq, PartialOrd, Ord, Hash)]
pub struct RefType {
    pub nullable: bool,
    pub heap_type: HeapType,
}

impl HeapType {
    /// The type that it names, if it names one.
    pub fn type_id(&self) -> Option<TypeId>
        ensures { result ≡ heap_name self.now }
    {
        match self {
            HeapType::Abstract(_) | HeapType::Shared(_) => None,
            HeapType::Concrete(id) | HeapType::Exact(id) => Some(*id),
        }
    }
}

impl RefType {
    pub const ANYREF: RefType = RefType {
        nullable: true,
        heap_type: HeapType::Abstract(AbstractHeapType::Any),
    };

    pub const EQREF: RefType = RefType {
        nullable: true,
        heap_type: HeapType::Abstract(AbstractHeapType::Eq),
    };

    pub const FUNCREF: RefType = RefType {
        nullable: true,
        heap_type: HeapType::Abstract(AbstractHeapType::Func),
    };

    pub const EXTERNREF: RefType = RefType {
        nullable: true,
        heap_type: HeapType::Abstract(AbstractHeapType::Extern),
    };

    pub const I31REF: RefType = RefType {
        nullable: true,
        heap_type: HeapType::Abstract(AbstractHeapType::I31),
    };

    pub const ARRAYREF: RefType = RefType {
        nullable: true,
        heap_type: HeapType::Abstract(AbstractHeapType::Array),
    };

    pub const STRUCTREF: RefType = RefType {
        nullable: true,
        heap_type: HeapType::Abstract(AbstractHeapType::Struct),
    };

    pub const EXNREF: RefType = RefType {
        nullable: true,
        heap_type: HeapType::Abstract(AbstractHeapType::Exn),
    };

    pub const NULLREF: RefType = RefType {
        nullable: true,
        heap_type: HeapType::Abstract(AbstractHeapType::None),
    };

    pub const NULLEXTERNREF: RefType = RefType {
        nullable: true,
        heap_type: HeapType::Abstract(AbstractHeapType::NoExtern),
    };

    pub const NULLFUNCREF: RefType = RefType {
        nullable: true,
        heap_type: HeapType::Abstract(AbstractHeapType::NoFunc),
    };

    /// Whether null is a value of the type.
    pub fn is_nullable(&self) -> bool
        ensures { result ≡ self.now.nullable }
    {
        self.nullable
    }

    /// The type that it names, if it names one.
    pub fn type_id(&self) -> Option<TypeId>
        ensures { result ≡ ref_name self.now }
    {
        self.heap_type.type_id()
    }
}

/// The type of a value on the stack, in the order in which types are written.
#[derive(Clone, Copy, PartialEq, Eq, PartialOrd, Ord, Hash)]
pub enum ValType {
    I32,
    I64,
    F32,
    F64,
    V128,
    Ref(RefType),
}

impl ValType {
    /// The type that it names, if it names one.
    pub fn type_id(&self) -> Option<TypeId>
        ensures { result ≡ value_name self.now }
    {
        match self {
            ValType::Ref(ty) => ty.type_id(),
            _ => None,
        }
    }
}

/// What a field holds: a value, or an integer of 8 or 16 bits.
#[derive(Clone, Copy, PartialEq, Eq, PartialOrd, Ord, Hash)]
pub enum StorageType {
    Val(ValType),
    I8,
    I16,
}

impl StorageType {
    /// The type of the field's value on the stack.
    pub fn unpack(&self) -> ValType
        ensures { result ≡ unpacked self.now }
    {
        match self {
            StorageType::Val(ty) => *ty,
            StorageType::I8 | StorageType::I16 => ValType::I32,
        }
    }

    /// The type that it names, if it names one.
    pub fn type_id(&self) -> Option<TypeId>
        ensures { result ≡ storage_name self.now }
    {
        self.unpack().type_id()
    }
}

/// The type of a field. Those that can't be written come first in the order.
#[derive(Clone, Copy, PartialEq, Eq, PartialOrd, Ord, Hash)]
pub struct FieldType {
    pub element_type: StorageType,
    pub mutable: bool,
}

impl FieldType {
    /// The type that it names, if it names one.
    pub fn type_id(&self) -> Option<TypeId>
        ensures { result ≡ field_name self.now }
    {
        self.element_type.type_id()
    }
}
