// What is said of files, whole.
use super::folder::Folder;
use rewriter_program::{Failure, Job, Mistake, Targets, job_of, rewrite_files};
use std::io;
use test_words::is_shown;
use wasm_rewriter::Fault;

// The least module.
const EMPTY: [u8; 8] = [0x00, 0x61, 0x73, 0x6d, 0x01, 0x00, 0x00, 0x00];

const UNREAD: &[u8] =
    b"error: input can not be read\n  none/input: No such file or directory (os error 2)";

const UNWRITTEN: &[u8] =
    b"error: output can not be written after 0 bytes\n  none/output: No such file or directory (os error 2)";

const UNPLACED: &[u8] =
    b"error: places can not be written after 0 bytes\n  none/places: No such file or directory (os error 2)";

// Whether this is said of the job.
fn is_said(rt: &HostRuntime, job: &Job<'_>, wanted: &[u8]) -> bool {
    let Ok(targets) = Targets::of(rt, job) else {
        return false;
    };
    match rewrite_files(rt, job, &targets) {
        Ok(()) => false,
        Err(failure) => is_shown(rt.alloc(), &failure, wanted),
    }
}

// Whether this is said of a run over these files.
fn says(rt: &HostRuntime, input: &str, output: &str, wanted: &[u8]) -> bool {
    let words = ["wasm_rewriter", "--places", "none/places", input, output];
    match job_of(rt.alloc(), &words) {
        Ok(job) => is_said(rt, &job, wanted),
        Err(_) => false,
    }
}

// Whether what the file has begins as a text.
fn is_text(rt: &HostRuntime, path: &str) -> bool {
    let mut input = rewriter_program::InputFile::new(rt, path);
    crate::devices::read_of(&mut input).is_some() && input.is_text()
}

/// Whether each fault is told of its own file, in a folder that has an input.
pub fn are_told(rt: &HostRuntime, folder: &Folder<'_>) -> bool {
    let input = folder.at("input");
    let output = folder.at("output");
    folder.add("input", &EMPTY)
        && says(rt, "none/input", "none/output", UNREAD)
        && says(rt, input.as_str(), "none/output", UNWRITTEN)
        && says(rt, input.as_str(), output.as_str(), UNPLACED)
        && !is_text(rt, input.as_str())
        && folder.add("text", b"\n (module)")
        && is_text(rt, folder.at("text").as_str())
}

#[test]
fn failures_and_mistakes_are_told(rt: HostRuntime) {
    let missing = Failure {
        fault: Fault::ReaderFault,
        cause: Some(("in.wasm", io::Error::from_raw_os_error(2))),
    };
    let text = b"error: input can not be read\n  in.wasm: No such file or directory (os error 2)";
    assert!(rt; is_shown(rt.alloc(), &missing, text));
    let header = Failure::from(Fault::Header { offset: 0 });
    assert!(rt; is_shown(rt.alloc(), &header, b"error at 0: not a WebAssembly module"));
    assert!(rt; Mistake::PlacesIsOutput.text() == "OUTPUT and FILE are one file");
    assert!(rt; Mistake::PlacesIsInput.text() == "INPUT and FILE are one file");
}
