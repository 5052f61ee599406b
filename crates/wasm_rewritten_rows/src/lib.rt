//! Files and what is written of them, computed from the definitions of rewriting: facts, as functions with nothing to do.
#![tactic(auto)]

ghost use Rattle.wasm_rewritten_rows.specs.Rows.{FilesAreWritten};

/// Of worked files the part by their plan has the canonical bytes that are to be written, and the pairs of places.
pub fn worked_files_are_written()
    ensures { FilesAreWritten }
{}
