//! What form an operator's immediates are of.

use walrus_operators::Immediates;

/// The forms in the order of the arms below: one text, as a text an arm would be dear.
pub(crate) const FORMS: &str =
    "bare block handlers tag label labels function type-table type values local global table access memory i32 i64 f32 f64 heap data-memory data memory-memory element-table element table-table type-number type-data type-element type-type cast vector lane access-lane zero";

/// The place of their form in the text.
pub(crate) fn place(immediates: &Immediates) -> u32 {
    match immediates {
        Immediates::Bare => 0,
        Immediates::Block(_) => 1,
        Immediates::TryTable(_, _) => 2,
        Immediates::Tag(_) => 3,
        Immediates::Label(_) => 4,
        Immediates::BrTable(_, _) => 5,
        Immediates::Function(_) => 6,
        Immediates::TypeTable(_, _) => 7,
        Immediates::Type(_) => 8,
        Immediates::Select(_) => 9,
        Immediates::Local(_) => 10,
        Immediates::Global(_) => 11,
        Immediates::Table(_) => 12,
        Immediates::Access(_) => 13,
        Immediates::Memory(_) => 14,
        Immediates::I32(_) => 15,
        Immediates::I64(_) => 16,
        Immediates::F32(_) => 17,
        Immediates::F64(_) => 18,
        Immediates::Heap(_) => 19,
        Immediates::DataMemory(_, _) => 20,
        Immediates::Data(_) => 21,
        Immediates::MemoryMemory(_, _) => 22,
        Immediates::ElementTable(_, _) => 23,
        Immediates::Element(_) => 24,
        Immediates::TableTable(_, _) => 25,
        Immediates::TypeNumber(_, _) => 26,
        Immediates::TypeData(_, _) => 27,
        Immediates::TypeElement(_, _) => 28,
        Immediates::TypeType(_, _) => 29,
        Immediates::Cast(_, _, _, _) => 30,
        Immediates::Vector(_) => 31,
        Immediates::Lane(_) => 32,
        Immediates::AccessLane(_, _) => 33,
        Immediates::Zero => 34,
    }
}
