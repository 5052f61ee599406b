// What becomes of the files.
use super::folder::Folder;
use super::host::{Failing, Host};
use super::outputs::{Fate, becomes};
use crate::devices::read_of;
use crate::modules::{INPUT, OUTPUT, PLACE};
use rewriter_program::{InputFile, run_words};
use std::alloc::Global;
use std::fs;
use std::io::{PipeReader, PipeWriter, Read};
use std::os::fd::AsRawFd;
use std::rt::Files;
use std::test::Fail;
use test_words::{Bytes, cut, number, text_of, written};

// The status of a run over these files.
fn status_of<R: Files + Input + Print + Eprint + AllocGlobal>(
    rt: &R,
    places: &str,
    input: &str,
    output: &str,
) -> u8 {
    let words = [
        "wasm_rewriter",
        "--no-names",
        "--no-producers",
        "--places",
        places,
        input,
        output,
    ];
    run_words(rt, &words)
}

// Whether a run over files of the folder, which take the places, are read and are written, ends with a status and leaves so
// many files, all as a row says.
fn ends<R: Files + Input + Print + Eprint + AllocGlobal>(
    rt: &R,
    folder: &Folder<'_>,
    row: &[u8],
) -> bool {
    let (places, rest) = cut(row, b' ');
    let (input, rest) = cut(rest, b' ');
    let (output, rest) = cut(rest, b' ');
    let (status, count) = cut(rest, b' ');
    let places = folder.at(text_of(places));
    let input = folder.at(text_of(input));
    let output = folder.at(text_of(output));
    let found = status_of(rt, places.as_str(), input.as_str(), output.as_str());
    u64::from(found) == number(status) && folder.has(number(count))
}

fn all_end(rt: &HostRuntime, folder: &Folder<'_>, rows: &[u8]) -> bool {
    let mut rest = rows;
    for _ in 0..rows.len() {
        let (row, next) = cut(rest, b'\n');
        if !ends(rt, folder, row) {
            return false;
        }
        if next.is_empty() {
            return true;
        }
        rest = next;
    }
    false
}

/// To a new file, and to one that a link names.
pub fn is_rewritten(rt: &HostRuntime, folder: &Folder<'_>) -> bool {
    folder.add("input", INPUT)
        && folder.add_link("none", "link")
        && ends(rt, folder, b"places input output 0 4")
        && folder.holds("output", OUTPUT)
        && folder.holds("places", PLACE)
        && ends(rt, folder, b"places input link 0 5")
        && folder.holds("none", OUTPUT)
        && folder.is_link("link")
}

/// With its permissions, through a link.
pub fn is_written_over(rt: &HostRuntime, folder: &Folder<'_>) -> bool {
    folder.add("input", INPUT)
        && folder.set_mode("input", 0o640)
        && folder.add_link("input", "link")
        && ends(rt, folder, b"places input link 0 3")
        && folder.holds("input", OUTPUT)
        && folder.is_link("link")
        && matches!(folder.mode_and_owner("input"), Some((0o640, _)))
}

/// What is no module leaves the files.
pub fn is_refused(rt: &HostRuntime, folder: &Folder<'_>) -> bool {
    folder.add("input", b"no module")
        && folder.add("output", b"old")
        && ends(rt, folder, b"places input output 1 2")
        && folder.holds("output", b"old")
}

// Two files, each also by other names, a link to a file that isn't there, and a folder.
fn add_names(folder: &Folder<'_>) -> bool {
    folder.add("in", INPUT)
        && folder.add("out", b"old")
        && folder.add_name("out", "hard")
        && folder.add_link("in", "in-link")
        && folder.add_link("out", "out-link")
        && folder.add_link("none", "none-link")
        && folder.add_folder("sub")
}

// In the last one nothing was read: else the input would be missing.
const TWICE: &[u8] = b"out in out 2 7
./out in out 2 7
sub/../out in out 2 7
hard in out 2 7
out in out-link 2 7
none in sub/../none 2 7
none-link in none 2 7
in in out 2 7
in-link in out 2 7
in in-link none 2 7
none none out 2 7
out none out 2 7";

/// One file for two things, by all its names.
pub fn are_refused(rt: &HostRuntime, folder: &Folder<'_>) -> bool {
    add_names(folder)
        && all_end(rt, folder, TWICE)
        && folder.holds("in", INPUT)
        && folder.holds("out", b"old")
}

// In the last one the bytes are written before the places are.
const UNOPENED: &[u8] = b"none none output 2 1
none/output none output 3 1
none input none/output 3 1
none/output input output 3 2";

/// Files that can't be opened.
pub fn is_unopened(rt: &HostRuntime, folder: &Folder<'_>) -> bool {
    folder.add("input", INPUT) && all_end(rt, folder, UNOPENED) && folder.holds("output", OUTPUT)
}

// Where this process has the file that is open by that number.
fn open_path(alloc: Global, number: i32) -> Bytes {
    let mut path = Bytes::of(b"/proc/self/fd/");
    path.push_all(written(alloc, &number).as_slice());
    path
}

// Whether this process has the file open by that number.
fn is_open_by(rt: &HostRuntime, path: &str, number: i32) -> bool {
    match rt.read_link(rt.alloc(), open_path(rt.alloc(), number).as_str()) {
        Ok(link) => link.as_str() == path,
        Err(_) => false,
    }
}

// Whether this process has the file open.
fn is_open(rt: &HostRuntime, path: &str) -> bool {
    let mut is_any = false;
    for number in 0..32i32 {
        is_any |= is_open_by(rt, path, number);
    }
    is_any
}

fn is_closed_behind(rt: &HostRuntime, path: &str, whole: &str) -> bool {
    let mut input = InputFile::new(rt, path);
    let is_open_then = read_of(&mut input) == Some(3) && is_open(rt, whole);
    let is_closed_then = read_of(&mut input) == Some(0) && !is_open(rt, whole);
    is_open_then && is_closed_then && read_of(&mut input) == Some(0)
}

/// An input at its end.
pub fn is_closed(rt: &HostRuntime, folder: &Folder<'_>) -> bool {
    let path = folder.at("input");
    if !folder.add("input", b"abc") {
        return false;
    }
    match rt.canonicalize(rt.alloc(), path.as_str()) {
        Ok(whole) => is_closed_behind(rt, path.as_str(), whole.as_str()),
        Err(_) => false,
    }
}

// Whether a write to what the path names is refused, and the system said that.
fn is_refused_there(rt: &HostRuntime, path: &str, cause: &[u8]) -> bool {
    becomes(rt, path, Fate::IsRefused, cause)
}

/// What the system said of writes that are refused.
pub fn has_cause(rt: &HostRuntime, folder: &Folder<'_>) -> bool {
    let path = folder.at("file/new");
    folder.add("file", b"old")
        && is_refused_there(rt, path.as_str(), b"Not a directory (os error 20)")
        && is_refused_there(rt, "/dev/full", b"No space left on device (os error 28)")
        && is_refused_there(rt, "/dev", b"Is a directory (os error 21)")
}

fn is_denied(rt: &HostRuntime, folder: &Folder<'_>) -> bool {
    let path = folder.at("file");
    is_refused_there(rt, path.as_str(), b"Permission denied (os error 13)")
        && folder.holds("file", b"old")
        && folder.has(1)
}

/// Who may not write a file may not replace it, but for the system's own user.
pub fn stays(rt: &HostRuntime, folder: &Folder<'_>) -> bool {
    folder.add("file", b"old")
        && folder.set_mode("file", 0o444)
        && (folder.mode_and_owner("file") == Some((0o444, 0)) || is_denied(rt, folder))
}

// Whether three bytes stand in the pipe, and no more.
fn gives_three(reader: &mut PipeReader) -> bool {
    let mut buffer = [0; 8];
    match reader.read(&mut buffer) {
        Ok(count) => count == 3 && &buffer[..3] == b"abc".as_slice(),
        Err(_) => false,
    }
}

// Whether three bytes are written there, by one write and a flush.
fn fills_pipe(rt: &HostRuntime, writer: PipeWriter) -> bool {
    let path = open_path(rt.alloc(), writer.as_raw_fd());
    becomes(rt, path.as_str(), Fate::TakesThree, b"")
}

#[test]
fn a_pipe_is_written_directly(rt: HostRuntime) -> Result<(), Fail> {
    let (mut reader, writer) = rt.pipe()?;
    assert!(rt; fills_pipe(&rt, writer) && gives_three(&mut reader));
    Ok(())
}

/// Whether standard output takes the places, where a file takes the bytes.
pub fn are_printed(rt: &HostRuntime, folder: &Folder<'_>) -> bool {
    let from = folder.at("input");
    let to = folder.at("output");
    let printed = folder.at("printed");
    let host = Host {
        rt,
        failing: Failing::Nothing,
        printed: printed.as_str(),
    };
    folder.add("input", INPUT)
        && status_of(&host, "-", from.as_str(), to.as_str()) == 0
        && folder.holds("output", OUTPUT)
        && folder.holds("printed", PLACE)
        && folder.has(3)
}

// A path of the next file that is opened, as long as it is.
fn next_path(rt: &HostRuntime, path: &str) -> Bytes {
    match fs::open(rt, path) {
        Ok(file) => open_path(rt.alloc(), file.as_raw_fd()),
        Err(_) => Bytes::of(b""),
    }
}

/// Were the input open while something is written, it would be the file of that path, and a run through the link, which
/// this host opens as it stands, would overwrite it. (By the path itself a new file would be made beside it, which that
/// folder refuses.)
pub fn is_spared(rt: &HostRuntime, folder: &Folder<'_>) -> bool {
    let from = folder.at("input");
    let to = folder.at("output");
    let host = Host {
        rt,
        failing: Failing::Nothing,
        printed: "",
    };
    if !folder.add("input", INPUT) {
        return false;
    }
    let path = next_path(rt, from.as_str());
    folder.add_link(path.as_str(), "link")
        && status_of(rt, path.as_str(), from.as_str(), to.as_str()) == 3
        && ends(&host, folder, b"link input output 3 3")
        && ends(&host, folder, b"places input link 3 3")
        && folder.holds("input", INPUT)
}
