// All cases of files.
use super::causes::are_told;
use super::failing::{are_left, are_tried_again, is_written_through};
use super::files::{
    are_printed, are_refused, has_cause, is_closed, is_refused, is_rewritten, is_spared,
    is_unopened, is_written_over, stays,
};
use super::folder::Folder;

// What becomes of files that a folder is given.
#[derive(Clone, Copy)]
enum Case {
    /// A module is rewritten, to a new file and to one that a link names.
    Done,
    /// An input may be its output.
    Same,
    /// A refused module leaves the files.
    Refused,
    /// One file for two things is refused.
    Twice,
    /// A file that can't be opened is told.
    Unopened,
    /// Each fault of a file names that file.
    Faults,
    /// An input is closed at its end.
    End,
    /// What the system says is kept.
    Cause,
    /// A file that may not be written stays.
    Unwritable,
    /// Places are printed.
    Printed,
    /// An input is never open while something is written.
    Spared,
    /// A failed output leaves the old file and no other.
    Failing,
    /// A link whose end can't be told is written through.
    Untold,
    /// An interrupted call is made again.
    Signals,
}

// With the names of their folders.
const CASES: [(&str, Case); 14] = [
    ("done", Case::Done),
    ("same", Case::Same),
    ("refused", Case::Refused),
    ("twice", Case::Twice),
    ("unopened", Case::Unopened),
    ("faults", Case::Faults),
    ("end", Case::End),
    ("cause", Case::Cause),
    ("unwritable", Case::Unwritable),
    ("printed", Case::Printed),
    ("spared", Case::Spared),
    ("failing", Case::Failing),
    ("untold", Case::Untold),
    ("signals", Case::Signals),
];

fn holds(rt: &HostRuntime, folder: &Folder<'_>, case: Case) -> bool {
    match case {
        Case::Done => is_rewritten(rt, folder),
        Case::Same => is_written_over(rt, folder),
        Case::Refused => is_refused(rt, folder),
        Case::Twice => are_refused(rt, folder),
        Case::Unopened => is_unopened(rt, folder),
        Case::Faults => are_told(rt, folder),
        Case::End => is_closed(rt, folder),
        Case::Cause => has_cause(rt, folder),
        Case::Unwritable => stays(rt, folder),
        Case::Printed => are_printed(rt, folder),
        Case::Spared => is_spared(rt, folder),
        Case::Failing => are_left(rt, folder),
        Case::Untold => is_written_through(rt, folder),
        Case::Signals => are_tried_again(rt, folder),
    }
}

// Whether it holds in a new folder of that name.
fn is_so(rt: &HostRuntime, name: &str, case: Case) -> bool {
    let folder = Folder::new(rt, name);
    folder.make() && holds(rt, &folder, case) && folder.remove()
}

#[test]
fn all_cases(rt: HostRuntime) {
    for (name, case) in CASES {
        assert!(rt; is_so(&rt, name, case), "in the folder {name}");
    }
}
