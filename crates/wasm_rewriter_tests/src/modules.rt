//! Modules of one exported function, and what is made of them.

use std::alloc::{AllocError, Global};
use wasm_rewriter::{Options, Rewritten, rewrite};

/// One whose body is a `nop`.
pub const INPUT: &[u8] =
    b"\0asm\x01\0\0\0\x01\x04\x01\x60\0\0\x03\x02\x01\0\x07\x05\x01\x01f\0\0\x0a\x05\x01\x03\0\x01\x0b";

/// What it is rewritten to: its body does nothing.
pub const OUTPUT: &[u8] =
    b"\0asm\x01\0\0\0\x01\x04\x01\x60\0\0\x03\x02\x01\0\x07\x05\x01\x01f\0\0\x0a\x04\x01\x02\0\x0b";

/// The old and the new place of its `end`, as a line.
pub const PLACE: &[u8] = b"4 3\n";

/// No names and no producers, but places.
pub fn with_places() -> Options {
    let mut options = Options::new();
    options.names = false;
    options.producers = false;
    options.places = true;
    options
}

fn is_copied(rewritten: &Rewritten) -> Result<bool, AllocError> {
    let copy = rewritten.clone()?;
    Ok(
        copy.bytes.as_slice() == OUTPUT
            && matches!(&copy.places, Some(places) if places.as_slice() == [(4, 3)].as_slice()),
    )
}

fn copies(alloc: Global) -> Result<bool, AllocError> {
    match rewrite(alloc, INPUT, &with_places()) {
        Ok(rewritten) => is_copied(&rewritten),
        Err(_) => Ok(false),
    }
}

#[test]
fn what_is_rewritten_is_copied(rt: HostRuntime) {
    assert!(rt; copies(rt.alloc()) == Ok(true));
}
