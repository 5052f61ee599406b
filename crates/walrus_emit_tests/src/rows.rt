//! Modules that calls made or broke, step by step.
use crate::edits::{Edit, Item};
use crate::files::{
    BRINGS_TABLE, CALLS_BEHIND, DECLARED, DECLARED_WITH_OWN, EMPTY, MADE, NOP, OWN, PLAIN, REFERS,
    RETURNS, SHARED_TABLES, TABLE_ALONE, THREE, TOLD_NEVER, TOLD_ONCE, TOLD_TWICE, USED,
};
use crate::own::Own;
use crate::steps::{Step, steps_taken};
use walrus_errors::{Form, Limited, ModuleError, Space};

const DEAD: ModuleError = ModuleError::DeadReference {
    space: Space::Function,
};

const DEAD_TYPE: ModuleError = ModuleError::DeadReference { space: Space::Type };

const NO_TREE: ModuleError = ModuleError::NoTree;

const NOT_LINKED: ModuleError = ModuleError::NotLinked;

const TELLS_NONE: Step = Step::Own(Own {
    leads: false,
    refuses: false,
    told: 0,
});

const TELLS_ONE: Step = Step::Own(Own {
    leads: false,
    refuses: false,
    told: 1,
});

const REFUSES: Step = Step::Own(Own {
    leads: false,
    refuses: true,
    told: 0,
});

const LEADS: Step = Step::Own(Own {
    leads: true,
    refuses: false,
    told: 0,
});

const LONG_STRING: ModuleError = ModuleError::OutputLimit {
    of: Limited::String,
};

const LONG_LIST: ModuleError = ModuleError::OutputLimit { of: Limited::List };

const MANY_TABLES: ModuleError = ModuleError::OutputLimit {
    of: Limited::Tables,
};

// A file, whether places are kept of it, and the steps.
const ROWS: [(&[u8], bool, &[Step]); 27] = [
    // What calls made is written, once more the same, and then what is used of it.
    (
        EMPTY,
        false,
        &[
            Step::Each,
            Step::Writes(MADE),
            Step::Writes(MADE),
            Step::Gc(None),
            Step::Writes(USED),
            Step::Gc(None),
            Step::Writes(USED),
        ],
    ),
    // A section that was removed isn't written, one of a program's own is.
    (EMPTY, false, &[Step::Raw, TELLS_ONE, Step::Writes(OWN)]),
    // A deleted function that is exported.
    (
        NOP,
        false,
        &[
            Step::Delete(0, Item::Function),
            Step::Refused(DEAD),
            Step::Gc(Some(DEAD)),
            Step::Delete(0, Item::Export),
            Step::Written,
            Step::Gc(None),
            Step::Writes(EMPTY),
        ],
    ),
    // A body that is put into itself.
    (
        NOP,
        false,
        &[
            Step::Edit(0, Edit::Nest),
            Step::Refused(NO_TREE),
            Step::Gc(Some(NO_TREE)),
            Step::Delete(0, Item::Export),
            Step::Refused(NO_TREE),
            Step::Gc(None),
            Step::Writes(EMPTY),
        ],
    ),
    // An import of a function with a body.
    (
        NOP,
        false,
        &[
            Step::ImportOf(0),
            Step::Refused(NOT_LINKED),
            Step::Gc(Some(NOT_LINKED)),
            Step::Delete(0, Item::Import),
            Step::Writes(PLAIN),
            Step::Gc(None),
            Step::Writes(PLAIN),
        ],
    ),
    // An imported function whose import was deleted.
    (
        NOP,
        false,
        &[
            Step::Imported,
            Step::Delete(0, Item::Import),
            Step::Refused(NOT_LINKED),
            Step::Gc(None),
            Step::Writes(PLAIN),
        ],
    ),
    // A function without body.
    (
        NOP,
        false,
        &[
            Step::Uninitialize(0),
            Step::Refused(NOT_LINKED),
            Step::Gc(Some(NOT_LINKED)),
        ],
    ),
    // A shared global.
    (
        NOP,
        false,
        &[
            Step::Shared,
            Step::Unsupported(Form::SharedGlobal),
            Step::Gc(None),
            Step::Writes(PLAIN),
        ],
    ),
    // Shared types, which a module may have where they aren't read.
    (
        EMPTY,
        false,
        &[
            Step::SharedTables,
            Step::Writes(SHARED_TABLES),
            Step::Gc(None),
            Step::Writes(EMPTY),
        ],
    ),
    // An exact type.
    (
        NOP,
        false,
        &[
            Step::Exact,
            Step::Unsupported(Form::ExactType),
            Step::Gc(None),
            Step::Writes(PLAIN),
        ],
    ),
    // All of these in one module: wrong imports are told first, then bodies, then what is deleted, then forms.
    (
        THREE,
        false,
        &[
            Step::Shared,
            Step::Delete(0, Item::Function),
            Step::Edit(1, Edit::Nest),
            Step::ImportOf(2),
            Step::Refused(NOT_LINKED),
            Step::Gc(Some(NOT_LINKED)),
            Step::Delete(0, Item::Import),
            Step::Refused(NO_TREE),
            Step::Gc(Some(NO_TREE)),
            Step::Delete(1, Item::Function),
            Step::Delete(1, Item::Export),
            Step::Refused(DEAD),
            Step::Gc(Some(DEAD)),
            Step::Delete(0, Item::Export),
            Step::Unsupported(Form::SharedGlobal),
            Step::Gc(None),
            Step::Written,
        ],
    ),
    // A refused section leaves one declared segment, and later ones add no other.
    (
        REFERS,
        false,
        &[
            Step::Gc(None),
            REFUSES,
            Step::Refused(ModuleError::SectionRefused),
            Step::Segments(1),
            Step::Delete(0, Item::Section),
            Step::Writes(DECLARED),
            TELLS_ONE,
            Step::Writes(DECLARED_WITH_OWN),
            Step::Writes(DECLARED_WITH_OWN),
            Step::Segments(1),
        ],
    ),
    // Sections are told once each time where code stands, but for those that lead.
    (
        NOP,
        true,
        &[
            TELLS_NONE,
            LEADS,
            Step::Writes(TOLD_ONCE),
            Step::Writes(TOLD_TWICE),
        ],
    ),
    // They are not, where places aren't kept.
    (
        NOP,
        false,
        &[
            TELLS_NONE,
            LEADS,
            Step::Writes(TOLD_NEVER),
            Step::Writes(TOLD_NEVER),
        ],
    ),
    // What stands behind a `return` is written.
    (
        RETURNS,
        false,
        &[
            Step::Edit(1, Edit::CallBehind),
            Step::Gc(None),
            Step::Writes(CALLS_BEHIND),
        ],
    ),
    // A branch to a sequence that isn't around it.
    (
        NOP,
        false,
        &[
            Step::Edit(0, Edit::Stray),
            Step::Refused(NO_TREE),
            Step::Gc(Some(NO_TREE)),
        ],
    ),
    // A function whose type was deleted.
    (
        NOP,
        false,
        &[
            Step::Delete(0, Item::Type),
            Step::Refused(DEAD_TYPE),
            Step::Gc(Some(DEAD_TYPE)),
        ],
    ),
    // An imported table has no initialiser: what its field names isn't kept, nor is the field written.
    (
        NOP,
        false,
        &[
            Step::ImportedTable(0),
            Step::Writes(BRINGS_TABLE),
            Step::Delete(0, Item::Export),
            Step::Gc(None),
            Step::Writes(TABLE_ALONE),
        ],
    ),
    // What its field names may be deleted.
    (
        NOP,
        false,
        &[
            Step::ImportedTable(0),
            Step::Delete(0, Item::Export),
            Step::Delete(0, Item::Function),
            Step::Written,
            Step::Gc(None),
            Step::Writes(TABLE_ALONE),
        ],
    ),
    // An import of what was never there, and a start function.
    (
        EMPTY,
        false,
        &[Step::ImportOf(9), Step::Refused(NOT_LINKED)],
    ),
    (EMPTY, false, &[Step::Start(3), Step::Refused(DEAD)]),
    // As many bytes of a name, parameters and tables as readers take, and one more.
    (EMPTY, false, &[Step::Named(100_000), Step::Written]),
    (
        EMPTY,
        false,
        &[Step::Named(100_001), Step::Refused(LONG_STRING)],
    ),
    (EMPTY, false, &[Step::Parameters(1_000), Step::Written]),
    (
        EMPTY,
        false,
        &[Step::Parameters(1_001), Step::Refused(LONG_LIST)],
    ),
    (EMPTY, false, &[Step::Tables(100), Step::Written]),
    (
        EMPTY,
        false,
        &[Step::Tables(101), Step::Refused(MANY_TABLES)],
    ),
];

#[test]
fn edited_modules_are_written_or_refused(rt: HostRuntime) {
    for (at, (file, keeps_places, steps)) in ROWS.iter().enumerate() {
        let count = steps_taken(rt.alloc(), file, *keeps_places, steps);
        assert!(rt; count == Ok(steps.len()), "row {at}: {count:?}");
    }
}
