// What becomes of what is written to a path.
use crate::devices::{cut_at, stays_failed};
use rewriter_program::{OutputFile, Target, locate};
use std::alloc::Global;
use std::io;
use std::rt::Files;
use test_words::is_shown;
use wasm_rewriter::Sink;

/// What becomes of it.
#[derive(Clone, Copy)]
pub enum Fate {
    /// Two writes and a flush aren't all done, and all calls behind that fail.
    Fails,
    /// One write is refused.
    IsRefused,
    /// One write takes its two bytes, and a flush is done.
    TakesTwo,
    /// The same of three bytes.
    TakesThree,
    /// Four bytes are sent.
    IsSent,
}

fn fails<S: Sink>(sink: &mut S) -> bool {
    let mut is_done = false;
    for _ in 0..2 {
        is_done = sink.write(b"new").is_ok();
    }
    let is_flushed = is_done && sink.flush().is_ok();
    !is_flushed && sink.write(b"new").is_err() && stays_failed(sink)
}

fn takes<S: Sink>(sink: &mut S, bytes: &[u8]) -> bool {
    sink.write(bytes) == Ok(bytes.len()) && sink.flush() == Ok(())
}

fn meets<S: Sink>(sink: &mut S, fate: Fate) -> bool {
    match fate {
        Fate::Fails => fails(sink),
        Fate::IsRefused => sink.write(b"new").is_err(),
        Fate::TakesTwo => takes(sink, b"ne"),
        Fate::TakesThree => takes(sink, b"abc"),
        Fate::IsSent => cut_at(sink, b"wasm").is_none(),
    }
}

// Whether that is what the system said.
fn is_cause(alloc: Global, cause: Option<io::Error>, text: &[u8]) -> bool {
    match cause {
        Some(cause) => is_shown(alloc, &cause, text),
        None => text.is_empty(),
    }
}

// Whether this becomes of what is written to the target, and the system said that.
fn is_met<R: Files + Print + AllocGlobal>(
    rt: &R,
    target: &Target,
    fate: Fate,
    cause: &[u8],
) -> bool {
    let mut sink = OutputFile::new(rt, target);
    let is_met = meets(&mut sink, fate);
    is_cause(rt.alloc(), sink.into_cause(), cause) && is_met
}

/// Whether this becomes of what is written to the path, and the system said that: nothing where no call failed.
pub fn becomes<R: Files + Print + AllocGlobal>(
    rt: &R,
    path: &str,
    fate: Fate,
    cause: &[u8],
) -> bool {
    match locate(rt, path) {
        Ok((_, target)) => is_met(rt, &target, fate, cause),
        Err(_) => false,
    }
}
