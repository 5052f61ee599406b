//! Field types (Core Specification, types: composite types).

ghost use Rattle.std.specs.Prelude.{◌≡◌};
ghost use Rattle.wasm_composite_types.specs.Fields.{is_packed, unpacked};

use wasm_ref_types::ValType;

/// What a field holds: a value, or an integer of 8 or 16 bits.
#[derive(Clone, Copy, PartialEq, Eq, PartialOrd, Ord, Hash)]
pub enum StorageType {
    /// An integer of 8 bits.
    I8,
    /// An integer of 16 bits.
    I16,
    /// A value.
    Val(ValType),
}

impl StorageType {
    /// Whether it is narrower than each value type.
    pub fn is_packed(&self) -> bool
        ensures { result ≡ is_packed self.now }
    {
        match self {
            StorageType::I8 | StorageType::I16 => true,
            StorageType::Val(_) => false,
        }
    }

    /// The type of the field's value on the stack: i32 for i8 and i16.
    pub fn unpack(&self) -> ValType
        ensures { result ≡ unpacked self.now }
    {
        match self {
            StorageType::I8 | StorageType::I16 => ValType::I32,
            StorageType::Val(ty) => *ty,
        }
    }
}

/// The type of a field.
#[derive(Clone, Copy, PartialEq, Eq, PartialOrd, Ord, Hash)]
pub struct FieldType {
    /// What the field holds.
    pub element_type: StorageType,
    /// Whether the field can be written.
    pub mutable: bool,
}
