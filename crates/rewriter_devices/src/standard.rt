// Devices over the readers and writers of `std::io`.
ghost use Rattle.std.specs.Prelude.{◌≡◌, ◌≤◌, ◌+◌, true, false, None, IsErr, OnOk, OnErr, IfOk, is_err, length, take};
ghost use Rattle.std.specs.Io.{ReadsAtMost, WritesAtMost};
ghost use Rattle.std.specs.Io.KnownBytes.{Keeps, ReadConsumes, WriteAppends};
ghost use Rattle.rewriter_devices.specs.Devices.{write_fails};

use crate::{DeviceFailed, Sink, Source};
use std::io;
use std::io::{ErrorKind, Read, Write};

/// A source over a reader of std's. It doesn't tell its bytes, and reads again where a signal came between.
#[derive(Drop)]
pub struct StdSource<R> {
    reader: R,
    has_failed: bool,
}

impl<R> StdSource<R> {
    pub fn new(reader: R) -> StdSource<R>
        ensures { result ≡ record { reader = reader; has_failed = false } }
    {
        StdSource {
            reader,
            has_failed: false,
        }
    }
}

impl<R: Read> Source for StdSource<R> {
    ghost left = { λ _. None };

    ghost failed = { λ s. s.has_failed };

    ghost reads = { λ _. 0 };

    fn read(&mut self, buf: &mut [u8]) -> Result<usize, DeviceFailed>
        ensures bound { ReadsAtMost result buf.new }
        ensures bytes { ReadConsumes None None result buf.new }
        ensures fails { self.new.has_failed ≡ is_err result }
        ensures stays_failed { self.old.has_failed ≡ true → IsErr result }
        ensures counted { 0 ≤ 0 + 1 }

        ensures inner { ReadConsumes (R.remaining self.old.reader) (R.remaining self.new.reader) result buf.new }
    {
        if self.has_failed {
            return Err(DeviceFailed);
        }
        let answer = read_once(&mut self.reader, buf);
        self.has_failed = answer.is_err();
        answer
    }
}

/// A sink over a writer of std's. It doesn't tell its bytes, and writes again where a signal came between.
#[derive(Drop)]
pub struct StdSink<W> {
    writer: W,
    has_failed: bool,
    is_flushed: bool,
}

impl<W> StdSink<W> {
    pub fn new(writer: W) -> StdSink<W>
        ensures { result ≡ record { writer = writer; has_failed = false; is_flushed = true } }
    {
        StdSink {
            writer,
            has_failed: false,
            is_flushed: true,
        }
    }
}

impl<W: Write> Sink for StdSink<W> {
    ghost taken = { λ _. None };

    ghost failed = { λ s. s.has_failed };

    ghost flushed = { λ s. s.is_flushed };

    fn write(&mut self, buf: &[u8]) -> Result<usize, DeviceFailed>
        ensures bound { WritesAtMost result buf.now }
        ensures bytes { WriteAppends None None result buf.now }
        ensures fails { self.new.has_failed ≡ write_fails result (length buf.now) }
        ensures stays_failed { self.old.has_failed ≡ true → IsErr result }

        ensures inner { WriteAppends (W.contents self.old.writer) (W.contents self.new.writer) result buf.now }
    {
        if self.has_failed {
            return Err(DeviceFailed);
        }
        self.is_flushed = false;
        let answer = write_once(&mut self.writer, buf);
        self.has_failed = match answer {
            Ok(count) => count == 0 && buf.len() > 0,
            Err(_) => true,
        };
        answer
    }

    fn flush(&mut self) -> Result<(), DeviceFailed>
        ensures bytes { Keeps None None }
        ensures fails { self.new.has_failed ≡ is_err result }
        ensures stays_failed { self.old.has_failed ≡ true → IsErr result }
        ensures flushed { OnOk result (self.new.is_flushed ≡ true) }

        ensures inner { Keeps (W.contents self.old.writer) (W.contents self.new.writer) }
    {
        if self.has_failed {
            return Err(DeviceFailed);
        }
        let answer = self.writer.flush().map_err(|_| DeviceFailed);
        self.is_flushed = answer.is_ok();
        self.has_failed = answer.is_err();
        answer
    }
}

// One read, made again where a signal came between.
fn read_once<R: Read>(reader: &mut R, buf: &mut [u8]) -> Result<usize, DeviceFailed>
    ensures bound { ReadsAtMost result buf.new }
    ensures bytes { ReadConsumes (R.remaining reader.old) (R.remaining reader.new) result buf.new }
{
    for _ in 0..u64::MAX {
        match reader.read(buf) {
            Ok(count) => return Ok(count),
            Err(e) if e.kind() == ErrorKind::Interrupted => {}
            Err(_) => break,
        }
    }
    Err(DeviceFailed)
}

// One write, made again where a signal came between.
fn write_once<W: Write>(writer: &mut W, buf: &[u8]) -> Result<usize, DeviceFailed>
    ensures bound { WritesAtMost result buf.now }
    ensures bytes { WriteAppends (W.contents writer.old) (W.contents writer.new) result buf.now }
{
    for _ in 0..u64::MAX {
        match writer.write(buf) {
            Ok(count) => return Ok(count),
            Err(e) if e.kind() == ErrorKind::Interrupted => {}
            Err(_) => break,
        }
    }
    Err(DeviceFailed)
}
