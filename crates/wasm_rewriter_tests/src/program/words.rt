// Words, and what is said of them.
use super::host::{Failing, Host};
use rewriter_program::{job_of, run_words, status, words_of};
use std::alloc::Global;
use std::fmt::Display;
use test_words::is_shown;
use wasm_rewriter::Options;

// Whether the word chooses these options, beside which the files are named.
fn is_chosen(alloc: Global, word: &str, options: Options) -> bool {
    let words = ["wasm_rewriter", word, "in", "out"];
    match job_of(alloc, &words) {
        Ok(job) => {
            job.options == options
                && (job.input, job.output) == ("in", "out")
                && job.places == options.places.then_some("FILE")
        }
        Err(_) => false,
    }
}

// What the word `--` chooses, which is no option.
const PLAIN: Options = Options {
    only_stable_features: false,
    legacy_exceptions: true,
    names: true,
    producers: true,
    places: false,
    shared_types: false,
    keep_segments: false,
};

#[test]
fn each_flag_chooses_an_option(rt: HostRuntime) {
    let rows = [
        ("--", PLAIN),
        (
            "--stable",
            Options {
                only_stable_features: true,
                ..PLAIN
            },
        ),
        (
            "--no-legacy",
            Options {
                legacy_exceptions: false,
                ..PLAIN
            },
        ),
        (
            "--no-names",
            Options {
                names: false,
                ..PLAIN
            },
        ),
        (
            "--no-producers",
            Options {
                producers: false,
                ..PLAIN
            },
        ),
        (
            "--places=FILE",
            Options {
                places: true,
                ..PLAIN
            },
        ),
        (
            "--shared-types",
            Options {
                shared_types: true,
                ..PLAIN
            },
        ),
        (
            "--keep-segments",
            Options {
                keep_segments: true,
                ..PLAIN
            },
        ),
    ];
    for (word, options) in rows {
        assert!(rt; is_chosen(rt.alloc(), word, options));
    }
}

const WRONG: [&[&str]; 5] = [
    &["wasm_rewriter"],
    &["wasm_rewriter", "in"],
    &["wasm_rewriter", "--fast", "in", "out"],
    &["wasm_rewriter", "--places"],
    &["wasm_rewriter", "--places", "-", "in", "-"],
];

#[test]
fn wrong_words_are_refused(rt: HostRuntime) {
    for words in WRONG {
        assert!(rt; run_words(&rt, words) == 2);
    }
}

// Words that are wrong, or that ask for something else, and what is said of them.
const TOLD: [(&[&str], &[u8]); 4] = [
    (
        &["wasm_rewriter", "input"],
        b"error: the following required arguments were not provided:\n  <OUTPUT>\n\nUsage: wasm_rewriter <INPUT> <OUTPUT>\n\nFor more information, try '--help'.\n",
    ),
    (
        &["wasm_rewriter", "input", "output", "other"],
        b"error: unexpected argument 'other' found\n\nUsage: wasm_rewriter [OPTIONS] <INPUT> <OUTPUT>\n\nFor more information, try '--help'.\n",
    ),
    (
        &["wasm_rewriter", "--places"],
        b"error: a value is required for '--places <FILE>' but none was supplied\n\nFor more information, try '--help'.\n",
    ),
    (&["wasm_rewriter", "--version"], b"wasm_rewriter 0.28.0\n"),
];

fn is_said(alloc: Global, words: &[&str], text: &[u8]) -> bool {
    match job_of(alloc, words) {
        Ok(_) => false,
        Err(error) => is_shown(alloc, &error, text),
    }
}

#[test]
fn wrong_words_and_the_version_are_told(rt: HostRuntime) {
    for (words, text) in TOLD {
        assert!(rt; is_said(rt.alloc(), words, text));
    }
}

fn has_part<T: Display>(alloc: Global, value: &T, part: &str) -> bool {
    match value.to_string(alloc) {
        Ok(text) => text.contains(part),
        Err(_) => false,
    }
}

// Whether the help has this part.
fn helps(alloc: Global, part: &str) -> bool {
    match job_of(alloc, &["wasm_rewriter", "--help"]) {
        Ok(_) => false,
        Err(error) => has_part(alloc, &error, part),
    }
}

#[test]
fn help_is_told(rt: HostRuntime) {
    let parts = [
        "Keeps of a WebAssembly module what its exports and its start function need, in the shortest spelling\n\nUsage: wasm_rewriter [OPTIONS] <INPUT> <OUTPUT>\n",
        "it is replaced once INPUT was accepted and all is written",
        "A fault's offset is counted from the start of INPUT, and a place from the function count of the code section, both in bytes and in decimal.\n",
        "\n\nAn object file (a module with a section `linking` or `reloc.*`) is rewritten, too. These sections are copied as they are: its symbol table then names what is gone.\n",
    ];
    for part in parts {
        assert!(rt; helps(rt.alloc(), part));
    }
}

// Whether the words that the program was started with are wrong.
fn are_wrong(host: &Host<'_>) -> bool {
    let text =
        b"error: a word is no UTF-8 text\n\nUsage: wasm_rewriter [OPTIONS] <INPUT> <OUTPUT>\n\nFor more information, try '--help'.\n";
    match words_of(host) {
        Ok(_) => false,
        Err(error) => is_shown(host.rt.alloc(), &error, text) && status(host, false) == 2,
    }
}

#[test]
fn words_that_are_no_text_are_wrong(rt: HostRuntime) {
    let host = Host {
        rt: &rt,
        failing: Failing::Nothing,
        printed: "",
    };
    assert!(rt; are_wrong(&host));
}
