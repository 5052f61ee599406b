//! Custom sections are asked for what they keep.

use crate::modules::{Step, leave};

// Steps, and how many types, functions, tables, elements and imports they leave.
const ROWS: [(&[Step], [usize; 5]); 6] = [
    // Of two functions, of which the first returns, the second is exported; with a section that keeps the first both are used.
    (
        &[
            Step::Function,
            Step::Function,
            Step::Return(0),
            Step::ExportFunction(1),
            Step::Used(1),
            Step::Unused(0),
            Step::Keep(0),
            Step::Used(1),
            Step::Used(0),
        ],
        [1, 2, 0, 0, 0],
    ),
    // What a section keeps stays.
    (
        &[
            Step::Function,
            Step::Function,
            Step::Keep(0),
            Step::Gc(0),
            Step::Keep(0),
            Step::Gc(0),
        ],
        [1, 1, 0, 0, 0],
    ),
    // What no section keeps goes.
    (
        &[
            Step::Function,
            Step::Keep(0),
            Step::Gc(0),
            Step::DeleteSection(0),
            Step::Gc(0),
        ],
        [0, 0, 0, 0, 0],
    ),
    // A section that refuses is told before an item that isn't linked.
    (
        &[
            Step::Function,
            Step::ExportFunction(0),
            Step::Uninitialize(0),
            Step::Refuse,
            Step::Gc(7),
        ],
        [1, 1, 0, 0, 0],
    ),
    // Sections are asked by rising id, before anything else.
    (
        &[
            Step::Function,
            Step::ExportFunction(0),
            Step::Uninitialize(0),
            Step::Short,
            Step::Refuse,
            Step::Gc(8),
            Step::DeleteSection(0),
            Step::Gc(7),
        ],
        [1, 1, 0, 0, 0],
    ),
    // A section that keeps a dead function.
    (
        &[
            Step::Function,
            Step::Keep(0),
            Step::DeleteFunction(0),
            Step::Gc(3),
            Step::DeleteSection(0),
            Step::Gc(0),
        ],
        [0, 0, 0, 0, 0],
    ),
];

#[test]
fn sections_are_asked(rt: HostRuntime) {
    for (steps, counts) in ROWS {
        assert!(rt; matches!(leave(rt.alloc(), steps, counts), Ok(true)));
    }
}
