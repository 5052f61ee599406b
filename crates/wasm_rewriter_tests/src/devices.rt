//! Devices over readers and writers of std's, and what is asked of devices of any kind.

use crate::modules::OUTPUT;
use rewriter_devices::{Sink, Source, StdSource, read_all, send};
use std::alloc::Global;
use std::io;
use std::io::{ErrorKind, Read};

/// How many bytes the next read gives, none where it fails.
pub fn read_of<S: Source>(source: &mut S) -> Option<usize> {
    let mut buffer = [0; 8];
    match source.read(&mut buffer) {
        Ok(count) => Some(count),
        Err(_) => None,
    }
}

/// How many bytes were written where the sending failed, none where it didn't.
pub fn cut_at<S: Sink>(sink: &mut S, bytes: &[u8]) -> Option<u64> {
    match send(sink, bytes) {
        Ok(()) => None,
        Err(fault) => Some(fault.written),
    }
}

pub fn stays_failed<S: Sink>(sink: &mut S) -> bool {
    let is_refused = sink.write(b"").is_err();
    let is_unflushed = sink.flush().is_err();
    is_refused && is_unflushed
}

/// Whether the source gives just these bytes.
pub fn gives<S: Source>(alloc: Global, source: &mut S, bytes: &[u8]) -> bool {
    match read_all(alloc, source) {
        Ok(read) => read.as_slice() == bytes,
        Err(_) => false,
    }
}

// Gives a byte, is interrupted, gives a byte, and fails.
#[derive(Drop)]
struct Stumbling(u8);

impl Read for Stumbling {
    fn read(&mut self, buf: &mut [u8]) -> io::Result<usize> {
        self.0 = self.0.saturating_add(1);
        if self.0 == 2 {
            return Err(io::Error::from(ErrorKind::Interrupted));
        }
        if self.0 > 3 || buf.is_empty() {
            return Err(io::Error::from(ErrorKind::Other));
        }
        buf[0] = b'x';
        Ok(1)
    }
}

#[test]
fn a_source_of_std_reads_all(rt: HostRuntime) {
    assert!(rt; gives(rt.alloc(), &mut StdSource::new(OUTPUT), OUTPUT));
    let mut stumbling = StdSource::new(Stumbling(0));
    for count in [Some(1), Some(1), None, None] {
        assert!(rt; read_of(&mut stumbling) == count);
    }
}
