// What rewriting gave, in the words of a row.
use std::alloc::{AllocError, Global};
use wasm_rewriter::{Fault, Rewritten};

// As many pairs are told of.
const MOST_PAIRS: usize = 16;

fn output_line(alloc: Global, bytes: &[u8]) -> Result<String, AllocError> {
    format!(in alloc; "output {}", hex::encode(alloc, bytes)?)
}

fn places_line(alloc: Global, places: &[(u32, u32)]) -> Result<String, AllocError> {
    let mut line = format!(in alloc; "places {}", places.len())?;
    for (old, new) in places.iter().take(MOST_PAIRS) {
        line.push_str(format!(in alloc; " {old} {new}")?.as_str())?;
    }
    Ok(line)
}

fn refused_line(alloc: Global, fault: Fault) -> Result<String, AllocError> {
    match fault.offset() {
        Some(offset) => format!(in alloc; "refused error at {offset}: {fault}"),
        None => format!(in alloc; "refused error: {fault}"),
    }
}

/// What a line that begins with this word would say of the answer.
pub(crate) fn line_of(
    alloc: Global,
    word: &str,
    input: &[u8],
    answer: &Result<Rewritten, Fault>,
) -> Result<String, AllocError> {
    let rewritten = match answer {
        Ok(rewritten) => rewritten,
        Err(fault) => return refused_line(alloc, *fault),
    };
    match (word, &rewritten.places) {
        ("places", Some(places)) => places_line(alloc, places),
        ("unchanged", _) if rewritten.bytes.as_slice() == input => {
            String::from_str(alloc, "unchanged")
        }
        _ => output_line(alloc, &rewritten.bytes),
    }
}

/// Whether a row's line says this, or of places the first part of it.
pub(crate) fn says(line: &str, said: &str) -> bool {
    match said.strip_prefix(line) {
        Some(rest) => rest.is_empty() || line.starts_with("places") && rest.starts_with(' '),
        None => false,
    }
}
