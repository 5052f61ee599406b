//! The texts of refusals.

use test_words::are_shown;
use walrus_body_env::BodyError;
use walrus_errors::{ErrorKind, Form, Limited, ModuleError, Space};
use walrus_index_maps::{Space as IndexSpace, UnknownIndex};

// Each but for `Read`; first those that have a place.
const OF_MODULES: [ModuleError; 25] = [
    ModuleError::Header { offset: 0 },
    ModuleError::SectionOrder { offset: 8 },
    ModuleError::SectionSize { offset: 9 },
    ModuleError::Count { offset: 9 },
    ModuleError::Index {
        space: Space::Element,
        offset: 9,
    },
    ModuleError::TypeForm { offset: 9 },
    ModuleError::ConstExpr { offset: 9 },
    ModuleError::OffsetType { offset: 9 },
    ModuleError::Nesting { offset: 9 },
    ModuleError::Position { offset: 9 },
    ModuleError::Operator { offset: 9 },
    ModuleError::Unsupported {
        form: Form::SharedGlobal,
        offset: Some(9),
    },
    ModuleError::DuplicateExport { offset: 9 },
    ModuleError::Bounds { offset: 9 },
    ModuleError::Limit {
        of: Limited::Locals,
        offset: 9,
    },
    ModuleError::OutputLimit { of: Limited::Body },
    ModuleError::DeadReference { space: Space::Type },
    ModuleError::NoTree,
    ModuleError::NotLinked,
    ModuleError::Memory,
    ModuleError::InputTooLong,
    ModuleError::NotFound,
    ModuleError::Several,
    ModuleError::WrongKind,
    ModuleError::SectionRefused,
];

// Those of bodies, but for `Read`.
const OF_BODIES: [BodyError; 10] = [
    BodyError::Index {
        space: Space::Element,
        offset: Some(31),
    },
    BodyError::TypeForm { offset: Some(31) },
    BodyError::Nesting { offset: Some(31) },
    BodyError::Position { offset: Some(31) },
    BodyError::Operator { offset: Some(31) },
    BodyError::Unsupported {
        form: Form::Select,
        offset: Some(31),
    },
    BodyError::Bounds { offset: Some(31) },
    BodyError::Limit {
        of: Limited::Locals,
        offset: Some(31),
    },
    BodyError::NoTree,
    BodyError::Memory,
];

#[test]
fn texts(rt: HostRuntime) {
    let words =
        b"not a WebAssembly module;section out of order;section size is wrong;counts do not agree;index of a element is out of range;a function type is needed;not a constant expression;offset has the wrong type;blocks do not nest;operator may not stand here;unknown operator;not supported: shared global;duplicate export name;number out of bounds;limit passed: locals;output limit passed: body;reference to a deleted type;instructions form no tree;import and item do not agree;out of memory;input is too long;NotFound;Several;WrongKind;SectionRefused";
    assert!(rt; are_shown(rt.alloc(), &OF_MODULES, words));
    let words =
        b"index of a element is out of range;a function type is needed;blocks do not nest;operator may not stand here;unknown operator;not supported: select;number out of bounds;limit passed: locals;instructions form no tree;out of memory";
    assert!(rt; are_shown(rt.alloc(), &OF_BODIES, words));
    let unknown = [UnknownIndex(IndexSpace::Element)];
    assert!(rt; are_shown(rt.alloc(), &unknown, b"index of a element is out of range"));
    let invalid = [ErrorKind::InvalidWasm];
    assert!(rt; are_shown(rt.alloc(), &invalid, b"The input WebAssembly is invalid"));
}
