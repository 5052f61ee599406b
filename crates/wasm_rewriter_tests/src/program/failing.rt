// What becomes of files where a call fails, or a signal comes between.
use super::folder::Folder;
use super::host::{Failing, Host};
use super::outputs::{Fate, becomes};
use crate::devices::gives;
use rewriter_program::InputFile;

// Whether an output that fails so leaves so many files.
fn leaves(rt: &HostRuntime, folder: &Folder<'_>, failing: Failing, count: u64) -> bool {
    let host = Host {
        rt,
        failing,
        printed: "",
    };
    let output = folder.at("output");
    becomes(&host, output.as_str(), Fate::Fails, b"other error") && folder.has(count)
}

/// Where a call fails and no file was there, none is left, else the old one.
pub fn are_left(rt: &HostRuntime, folder: &Folder<'_>) -> bool {
    let mut agree = true;
    for failing in [Failing::Write, Failing::Sync, Failing::Rename] {
        agree &= leaves(rt, folder, failing, 0);
    }
    agree &= folder.add("output", b"old");
    for failing in [
        Failing::Write,
        Failing::Permissions,
        Failing::Sync,
        Failing::Rename,
    ] {
        agree &= leaves(rt, folder, failing, 1);
    }
    agree && folder.holds("output", b"old")
}

/// Whether a link is written through whose end the host can't tell, as one that is no UTF-8 text.
pub fn is_written_through(rt: &HostRuntime, folder: &Folder<'_>) -> bool {
    let host = Host {
        rt,
        failing: Failing::Rename,
        printed: "",
    };
    folder.add("output", b"old")
        && folder.add_link("output", "link")
        && becomes(&host, folder.at("link").as_str(), Fate::TakesTwo, b"")
        && folder.is_link("link")
        && folder.holds("output", b"ne")
}

// Whether four bytes are sent to the folder's file, which then has them, and behind them the mark of one flush.
fn is_sent_once(host: &Host<'_>, folder: &Folder<'_>, name: &str) -> bool {
    becomes(host, folder.at(name).as_str(), Fate::IsSent, b"") && folder.holds(name, b"wasm|")
}

fn is_read(host: &Host<'_>, path: &str) -> bool {
    gives(host.rt.alloc(), &mut InputFile::new(host, path), b"abc")
}

/// Whether an interrupted call is made again: to a file that isn't there, to one that is, and to one that is written
/// through a link.
pub fn are_tried_again(rt: &HostRuntime, folder: &Folder<'_>) -> bool {
    let host = Host {
        rt,
        failing: Failing::Signal,
        printed: "",
    };
    folder.add("input", b"abc")
        && folder.add("old", b"old")
        && folder.add_link("none", "link")
        && is_read(&host, folder.at("input").as_str())
        && is_sent_once(&host, folder, "new")
        && is_sent_once(&host, folder, "old")
        && is_sent_once(&host, folder, "link")
        && folder.holds("none", b"wasm|")
        && folder.has(5)
}
