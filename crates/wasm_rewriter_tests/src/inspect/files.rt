// Statuses of whole runs, and what is said where one fails.
use inspect_program::config::ModuleConfig;
use inspect_program::errors::ModuleError;
use inspect_program::lines::Counts;
use inspect_program::{Failure, Inspector, run_words};
use std::alloc::Global;
use std::test::Fail;
use std::{fs, io, process};
use test_words::is_shown;

const COUNTS: Counts = Counts {
    types: 1,
    functions: 2,
    tables: 3,
    memories: 4,
    tags: 5,
    globals: 6,
    elements: 7,
    data: 8,
    imports: 9,
    exports: 10,
    operators: 11,
};

// Counts just what is asked with these flags and bytes, and refuses all else.
#[derive(Clone, Copy)]
struct Wanted {
    flags: [bool; 3],
}

impl Inspector for Wanted {
    ghost answers = { λ _ _ _ _ _. Unit };

    fn inspect(
        &self,
        _alloc: Global,
        bytes: &[u8],
        config: ModuleConfig,
        kept: bool,
    ) -> Result<Counts, ModuleError> {
        let flags = [config.only_stable_features, !config.legacy_exceptions, kept];
        if bytes == b"abc".as_slice() && flags == self.flags {
            Ok(COUNTS)
        } else {
            Err(ModuleError::Header { offset: 0 })
        }
    }
}

// The status of a run with this word before that of the file, where these flags are wanted.
fn status_of(rt: &HostRuntime, flags: [bool; 3], word: &str, file: &str) -> u8 {
    let words = ["walrus_inspect", word, file];
    run_words(rt, &Wanted { flags }, &words)
}

#[test]
fn a_run_ends_with_its_status(rt: HostRuntime) -> Result<(), Fail> {
    let number = process::id(rt.process());
    let path = format!(in rt.alloc(); "/tmp/walrus_inspect-{number}")?;
    fs::write(&rt, path.as_str(), b"abc")?;
    let rows = [
        ([false, false, false], "--", 0),
        ([true, false, false], "--stable", 0),
        ([false, true, false], "--no-legacy", 0),
        ([false, false, true], "--kept", 0),
        ([false, false, false], "--kept", 1),
        ([false, false, false], "--fast", 2),
        ([false, false, false], "other", 2),
        ([false, false, false], "--help", 0),
    ];
    for (flags, word, status) in rows {
        assert_eq!(rt; status_of(&rt, flags, word, &path), status, "{word}");
    }
    fs::remove_file(&rt, path.as_str())?;
    assert_eq!(rt; status_of(&rt, [false; 3], "--", &path), 3);
    Ok(())
}

fn missing() -> io::Error {
    io::Error::from_raw_os_error(2)
}

#[test]
fn failures_are_told(rt: HostRuntime) {
    let rows = [
        (
            Failure::Refused(ModuleError::Header { offset: 7 }),
            "error at 7: not a WebAssembly module",
        ),
        (
            Failure::Refused(ModuleError::Memory),
            "error: out of memory",
        ),
        (
            Failure::of_refusal("in.wat", b"\n (module)", ModuleError::Header { offset: 0 }),
            "error at 0: not a WebAssembly module\n  in.wat: this is a text; `wat2wasm` (WABT) and `wasm-as` (Binaryen) make a module of one",
        ),
        (
            Failure::of_refusal("in.wasm", b"module", ModuleError::Header { offset: 0 }),
            "error at 0: not a WebAssembly module",
        ),
        (
            Failure::of_file("in.wasm", missing()),
            "error: input can not be read\n  in.wasm: No such file or directory (os error 2)",
        ),
        (
            Failure::of_file("-", missing()),
            "error: input can not be read\n  standard input: No such file or directory (os error 2)",
        ),
        (
            Failure::of_file("in.wasm", io::Error::from(io::ErrorKind::OutOfMemory)),
            "error: out of memory",
        ),
        (
            Failure::Unwritten { cause: missing() },
            "error: output can not be written\n  standard output: No such file or directory (os error 2)",
        ),
    ];
    for (failure, text) in rows {
        assert!(rt; is_shown(rt.alloc(), &failure, text.as_bytes()));
    }
}
