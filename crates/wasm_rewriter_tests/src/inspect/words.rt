// Words, and what is said of them.
use inspect_program::job_of;
use std::alloc::Global;
use test_words::is_shown;

// Which flags these words set, where INPUT is as it is named.
fn chosen(alloc: Global, words: &[&str]) -> Option<[bool; 3]> {
    match job_of(alloc, words) {
        Ok(job) if job.input == "in" => Some([
            job.config.only_stable_features,
            !job.config.legacy_exceptions,
            job.kept,
        ]),
        _ => None,
    }
}

#[test]
fn each_flag_is_chosen_alone(rt: HostRuntime) {
    let rows = [
        ("--", [false; 3]),
        ("--stable", [true, false, false]),
        ("--no-legacy", [false, true, false]),
        ("--kept", [false, false, true]),
    ];
    for (flag, flags) in rows {
        assert!(rt; chosen(rt.alloc(), &["walrus_inspect", flag, "in"]) == Some(flags));
    }
}

// Words that are wrong, or that ask for something else, and what is said of them.
const TOLD: [(&[&str], &[u8]); 3] = [
    (
        &["walrus_inspect"],
        b"error: the following required arguments were not provided:\n  <INPUT>\n\nUsage: walrus_inspect <INPUT>\n\nFor more information, try '--help'.\n",
    ),
    (
        &["walrus_inspect", "input", "output"],
        b"error: unexpected argument 'output' found\n\nUsage: walrus_inspect [OPTIONS] <INPUT>\n\nFor more information, try '--help'.\n",
    ),
    (&["walrus_inspect", "--version"], b"walrus_inspect 0.28.0\n"),
];

fn is_said(alloc: Global, words: &[&str], text: &[u8]) -> bool {
    match job_of(alloc, words) {
        Ok(_) => false,
        Err(error) => is_shown(alloc, &error, text),
    }
}

#[test]
fn wrong_words_are_told(rt: HostRuntime) {
    for (words, text) in TOLD {
        assert!(rt; is_said(rt.alloc(), words, text));
    }
}
