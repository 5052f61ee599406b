//! Where devices fail in a run, and what stands then.

use crate::modules::{INPUT, OUTPUT, PLACE, with_places};
use std::alloc::Global;
use wasm_rewriter::{Fault, MemorySink, MemorySource, SinkFail, Space, Summary, run};

// Where the devices of a run fail: the reader before this read, and the two writers.
type Failing = (Option<u64>, SinkFail, SinkFail);

// Whether a run answers this, and both sinks took the first so many bytes of what is written and of the line of its place.
fn is_run(
    alloc: Global,
    source: &mut MemorySource<'_>,
    (sink, places): (&mut MemorySink, &mut MemorySink),
    answer: Result<Summary, Fault>,
    (bytes, line): (usize, usize),
) -> bool {
    let found = run(alloc, source, sink, places, &with_places());
    found == answer
        && sink.bytes().len() == bytes
        && OUTPUT.starts_with(sink.bytes())
        && places.bytes().len() == line
        && PLACE.starts_with(places.bytes())
}

// The same of a run on these bytes whose devices fail so.
fn runs(
    alloc: Global,
    input: &[u8],
    (failing_read, fail, places_fail): Failing,
    answer: Result<Summary, Fault>,
    taken: (usize, usize),
) -> bool {
    let Ok(mut sink) = MemorySink::new(alloc, 40, fail) else {
        return false;
    };
    let Ok(mut places) = MemorySink::new(alloc, 8, places_fail) else {
        return false;
    };
    let mut source = MemorySource::new(input, failing_read);
    is_run(alloc, &mut source, (&mut sink, &mut places), answer, taken)
}

const DONE: Result<Summary, Fault> = Ok(Summary {
    bytes: 31,
    places: 1,
});

const REFUSED: Result<Summary, Fault> = Err(Fault::Index {
    space: Space::Function,
    offset: 14,
});

// An export of a function that isn't there.
const NO_FUNCTION: &[u8] = b"\0asm\x01\0\0\0\x07\x05\x01\x01f\0\0";

fn unwritten(written: u64) -> Result<Summary, Fault> {
    Err(Fault::WriterFault { written })
}

fn unplaced(written: u64) -> Result<Summary, Fault> {
    Err(Fault::PlacesFault { written })
}

// A writer that fails has the first bytes, one of places, behind all bytes, the first of the lines. Nothing is written behind a read that fails, and of
// what is refused.
#[test]
fn a_run_tells_which_device_failed_and_how_much_it_took(rt: HostRuntime) {
    let never = SinkFail::Never;
    let rows = [
        (INPUT, (None, never, never), DONE, (31, 4)),
        (
            INPUT,
            (None, SinkFail::After(0), never),
            unwritten(0),
            (0, 0),
        ),
        (
            INPUT,
            (None, SinkFail::Zero(1), never),
            unwritten(1),
            (1, 0),
        ),
        (
            INPUT,
            (None, SinkFail::After(30), never),
            unwritten(30),
            (30, 0),
        ),
        (
            INPUT,
            (None, SinkFail::Flush, never),
            unwritten(31),
            (31, 0),
        ),
        (
            INPUT,
            (None, never, SinkFail::After(0)),
            unplaced(0),
            (31, 0),
        ),
        (
            INPUT,
            (None, never, SinkFail::Zero(2)),
            unplaced(2),
            (31, 2),
        ),
        (INPUT, (None, never, SinkFail::Flush), unplaced(4), (31, 4)),
        (
            INPUT,
            (Some(0), never, never),
            Err(Fault::ReaderFault),
            (0, 0),
        ),
        (
            INPUT,
            (Some(1), never, never),
            Err(Fault::ReaderFault),
            (0, 0),
        ),
        (NO_FUNCTION, (None, never, never), REFUSED, (0, 0)),
    ];
    for (input, failing, answer, taken) in rows {
        assert!(rt; runs(rt.alloc(), input, failing, answer, taken));
    }
}
