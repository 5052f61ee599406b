//! What gc deletes and refuses.
use crate::modules::{Step, leave, leave_with};
use walrus_config::ModuleConfig;

// Steps, and how many types, functions, tables, elements and imports they leave.
const ROWS: [(&[Step], [usize; 5]); 27] = [
    // A table that is exported keeps its segment, with the function and its type.
    (
        &[
            Step::Table,
            Step::ExportTable(0),
            Step::Function,
            Step::Segment {
                table: 0,
                function: 0,
            },
            Step::Gc(0),
        ],
        [1, 1, 1, 1, 0],
    ),
    // It is dropped with all of these, once it isn't exported.
    (
        &[
            Step::Table,
            Step::ExportTable(0),
            Step::Function,
            Step::Segment {
                table: 0,
                function: 0,
            },
            Step::Gc(0),
            Step::DeleteExport(0),
            Step::Gc(0),
        ],
        [0, 0, 0, 0, 0],
    ),
    // A segment keeps to its own table.
    (
        &[
            Step::Table,
            Step::Table,
            Step::ExportTable(0),
            Step::Function,
            Step::Segment {
                table: 1,
                function: 0,
            },
            Step::Gc(0),
        ],
        [0, 0, 1, 0, 0],
    ),
    // A declared segment is a root.
    (
        &[Step::Function, Step::Declared(0), Step::Gc(0)],
        [1, 1, 0, 1, 0],
    ),
    // Of two functions the exported one is kept; what it names behind a `return`, too.
    (
        &[
            Step::Function,
            Step::Function,
            Step::ExportFunction(1),
            Step::Gc(0),
            Step::Function,
            Step::Return(1),
            Step::Call {
                callee: 2,
                caller: 1,
            },
            Step::Gc(0),
        ],
        [1, 2, 0, 0, 0],
    ),
    // A refusal drops nothing, not even a function that nothing names.
    (
        &[
            Step::Function,
            Step::Function,
            Step::ExportFunction(0),
            Step::DeleteFunction(0),
            Step::Gc(3),
            Step::Lives(1),
            Step::DeleteExport(0),
            Step::Gc(0),
        ],
        [0, 0, 0, 0, 0],
    ),
    // A body inside itself.
    (
        &[
            Step::Function,
            Step::ExportFunction(0),
            Step::Nest(0),
            Step::Gc(2),
            Step::DeleteExport(0),
            Step::Gc(0),
        ],
        [0, 0, 0, 0, 0],
    ),
    // An import of a function with a body.
    (
        &[
            Step::Function,
            Step::ExportFunction(0),
            Step::ImportOf(0),
            Step::Gc(1),
            Step::DeleteImport(0),
            Step::Gc(0),
        ],
        [1, 1, 0, 0, 0],
    ),
    // An imported function without import.
    (
        &[
            Step::ImportedFunction,
            Step::ExportFunction(0),
            Step::DeleteImport(0),
            Step::Gc(1),
            Step::DeleteExport(0),
            Step::Gc(0),
        ],
        [0, 0, 0, 0, 0],
    ),
    // An import goes with its function.
    (
        &[
            Step::ImportedFunction,
            Step::ImportedFunction,
            Step::ExportFunction(1),
            Step::Gc(0),
        ],
        [1, 1, 0, 0, 1],
    ),
    // A function without body.
    (
        &[
            Step::Function,
            Step::ExportFunction(0),
            Step::Uninitialize(0),
            Step::Gc(1),
        ],
        [1, 1, 0, 0, 0],
    ),
    // A branch to a sequence that is not around it.
    (
        &[
            Step::Function,
            Step::ExportFunction(0),
            Step::Stray(0),
            Step::Gc(2),
        ],
        [1, 1, 0, 0, 0],
    ),
    // A function of a dead type.
    (
        &[
            Step::Function,
            Step::ExportFunction(0),
            Step::DeleteType(0),
            Step::Gc(4),
        ],
        [0, 1, 0, 0, 0],
    ),
    // A body that isn't a tree is told before a dead function, and a wrong import before both.
    (
        &[
            Step::Function,
            Step::Function,
            Step::Function,
            Step::ExportFunction(0),
            Step::ExportFunction(1),
            Step::ExportFunction(2),
            Step::DeleteFunction(0),
            Step::Nest(1),
            Step::ImportOf(2),
            Step::Gc(1),
            Step::DeleteImport(0),
            Step::Gc(2),
            Step::DeleteExport(1),
            Step::Gc(3),
        ],
        [1, 2, 0, 0, 0],
    ),
    // An id that was never given out is dead; where an import says that it brings it, the two don't name each other, which is told first.
    (
        &[
            Step::Function,
            Step::ExportFunction(7),
            Step::Gc(3),
            Step::ImportOf(9),
            Step::Gc(3),
            Step::ImportOf(7),
            Step::Gc(1),
            Step::ExportFunction(8),
            Step::Gc(1),
            Step::DeleteExport(0),
            Step::Gc(3),
        ],
        [1, 1, 0, 0, 2],
    ),
    // What stands in no file is refused where it is reached.
    (
        &[
            Step::SharedGlobal,
            Step::ExportGlobal(0),
            Step::Gc(5),
            Step::DeleteExport(0),
            Step::Gc(0),
        ],
        [0, 0, 0, 0, 0],
    ),
    // A table of an exact type.
    (
        &[
            Step::Function,
            Step::TypedTable { ty: 0, exact: true },
            Step::ExportTable(0),
            Step::Gc(6),
            Step::DeleteExport(0),
            Step::Gc(0),
        ],
        [0, 0, 0, 0, 0],
    ),
    // An imported table has no initialiser: a function in that field isn't kept, and may be deleted.
    (
        &[
            Step::Function,
            Step::ImportedTable(0),
            Step::ExportTable(0),
            Step::Gc(0),
            Step::Gc(0),
        ],
        [0, 0, 1, 0, 1],
    ),
    // A type may name itself and those before it, and none past its own group.
    (
        &[
            Step::Struct(0),
            Step::TypedTable {
                ty: 0,
                exact: false,
            },
            Step::ExportTable(0),
            Step::Gc(0),
            Step::Struct(2),
            Step::Struct(0),
            Step::TypedTable {
                ty: 1,
                exact: false,
            },
            Step::ExportTable(1),
            Step::Gc(4),
        ],
        [3, 0, 2, 0, 0],
    ),
    // The start function is a root.
    (
        &[
            Step::Function,
            Step::Function,
            Step::Start(1),
            Step::Gc(0),
            Step::Lives(1),
        ],
        [1, 1, 0, 0, 0],
    ),
    // The first live memory stays where a data segment is reached and no memory is.
    (
        &[
            Step::Memory,
            Step::Memory,
            Step::Memory,
            Step::DeleteMemory(0),
            Step::Data,
            Step::Function,
            Step::ExportFunction(0),
            Step::Drops {
                data: 0,
                function: 0,
            },
            Step::Gc(0),
            Step::HasMemory(1),
            Step::NoMemory(2),
        ],
        [1, 1, 0, 0, 0],
    ),
    // It goes where another memory is reached.
    (
        &[
            Step::Memory,
            Step::Memory,
            Step::ExportMemory(1),
            Step::Data,
            Step::Function,
            Step::ExportFunction(0),
            Step::Drops {
                data: 0,
                function: 0,
            },
            Step::Gc(0),
            Step::NoMemory(0),
            Step::HasMemory(1),
        ],
        [1, 1, 0, 0, 0],
    ),
    // It goes where no data segment is reached.
    (
        &[
            Step::Memory,
            Step::Data,
            Step::Function,
            Step::ExportFunction(0),
            Step::Gc(0),
            Step::NoMemory(0),
        ],
        [1, 1, 0, 0, 0],
    ),
    // The type of a used local stays, which nothing else names.
    (
        &[
            Step::Struct(0),
            Step::Function,
            Step::ExportFunction(0),
            Step::Local(0),
            Step::Reads {
                local: 0,
                function: 0,
            },
            Step::Gc(0),
        ],
        [2, 1, 0, 0, 0],
    ),
    // That of an unused one goes.
    (
        &[
            Step::Struct(0),
            Step::Function,
            Step::ExportFunction(0),
            Step::Local(0),
            Step::Gc(0),
        ],
        [1, 1, 0, 0, 0],
    ),
    // Functions in the place of exported ones, and of an imported one.
    (&[Step::ExportsReplaced], [1, 3, 0, 0, 0]),
    (&[Step::ImportReplaced], [1, 1, 0, 0, 0]),
];

#[test]
fn gc_deletes_and_refuses(rt: HostRuntime) {
    for (steps, counts) in ROWS {
        assert!(rt; matches!(leave(rt.alloc(), steps, counts), Ok(true)));
    }
}

// A segment of a table that isn't exported any more.
const UNEXPORTED: [Step; 7] = [
    Step::Table,
    Step::ExportTable(0),
    Step::Function,
    Step::Segment {
        table: 0,
        function: 0,
    },
    Step::Gc(0),
    Step::DeleteExport(0),
    Step::Gc(0),
];

#[test]
fn all_active_segments_are_kept(rt: HostRuntime) {
    let mut config = ModuleConfig::new();
    config.keep_segments(true);
    assert!(rt;
        matches!(
            leave_with(rt.alloc(), config, &UNEXPORTED, [1, 1, 1, 1, 0]),
            Ok(true)
        )
    );
}
