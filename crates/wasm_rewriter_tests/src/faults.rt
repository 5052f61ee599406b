//! What faults say, and where they stand.
use test_words::are_shown;
use wasm_rewriter::{Fault, Form, Limited, Space};

fn stand_at(faults: &[Fault], offset: Option<u64>) -> bool {
    let mut agree = true;
    for fault in faults {
        agree &= fault.offset() == offset;
    }
    agree
}

#[test]
fn faults_in_the_bytes_tell_their_place(rt: HostRuntime) {
    let offset = 5;
    let space = Space::Function;
    let form = Form::Select;
    let of = Limited::Types;
    let faults = [
        Fault::Header { offset },
        Fault::SectionOrder { offset },
        Fault::SectionSize { offset },
        Fault::Count { offset },
        Fault::Index { space, offset },
        Fault::TypeForm { offset },
        Fault::ConstExpr { offset },
        Fault::OffsetType { offset },
        Fault::Nesting { offset },
        Fault::Position { offset },
        Fault::Operator { offset },
        Fault::Unsupported { form, offset },
        Fault::DuplicateExport { offset },
        Fault::Bounds { offset },
        Fault::Limit { of, offset },
    ];
    let texts =
        b"not a WebAssembly module;section out of order;section size is wrong;counts do not agree;index of a function is out of range;a function type is needed;not a constant expression;offset has the wrong type;blocks do not nest;operator may not stand here;unknown operator;not supported: select;duplicate export name;number out of bounds;limit passed: types";
    assert!(rt; are_shown(rt.alloc(), &faults, texts) && stand_at(&faults, Some(5)));
}

#[test]
fn faults_outside_the_bytes_have_no_place(rt: HostRuntime) {
    let of = Limited::File;
    let space = Space::Type;
    let faults = [
        Fault::OutputLimit { of },
        Fault::DeadReference { space },
        Fault::NoTree,
        Fault::NotLinked,
        Fault::Memory,
        Fault::InputTooLong,
        Fault::ReaderFault,
        Fault::WriterFault { written: 3 },
        Fault::PlacesFault { written: 0 },
    ];
    let texts =
        b"output limit passed: file;reference to a deleted type;instructions form no tree;import and item do not agree;out of memory;input is too long;input can not be read;output can not be written after 3 bytes;places can not be written after 0 bytes";
    assert!(rt; are_shown(rt.alloc(), &faults, texts) && stand_at(&faults, None));
}

#[test]
fn items_forms_and_limits_have_names(rt: HostRuntime) {
    let spaces = [
        Space::Type,
        Space::Function,
        Space::Table,
        Space::Memory,
        Space::Tag,
        Space::Global,
        Space::Element,
        Space::Data,
        Space::Local,
        Space::Label,
    ];
    let names = b"type;function;table;memory;tag;global;element;data;local;label";
    assert!(rt; are_shown(rt.alloc(), &spaces, names));
    let forms = [
        Form::SharedTable,
        Form::SharedGlobal,
        Form::SharedType,
        Form::ExactType,
        Form::ContinuationType,
        Form::Select,
    ];
    let names = b"shared table;shared global;shared type;exact type;continuation type;select";
    assert!(rt; are_shown(rt.alloc(), &forms, names));
    let limits = [
        Limited::Types,
        Limited::Imports,
        Limited::Functions,
        Limited::Globals,
        Limited::Tags,
        Limited::Exports,
        Limited::Tables,
        Limited::Memories,
        Limited::Elements,
        Limited::Data,
        Limited::Locals,
        Limited::Body,
        Limited::File,
        Limited::List,
        Limited::String,
    ];
    let names =
        b"types;imports;functions;globals;tags;exports;tables;memories;elements;data;locals;body;file;list;string";
    assert!(rt; are_shown(rt.alloc(), &limits, names));
}
