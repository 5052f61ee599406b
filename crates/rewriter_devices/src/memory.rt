// Devices in memory, which tell their bytes and fail where they were told to.
ghost use Rattle.std.specs.Prelude.{◌≡◌, ◌≢◌, ℕ, ◌+◌, ◌-◌, ◌≤◌, List, [], ◌++◌, Bool, true, false, if◌then◌else◌, None, Some, IsErr, OnOk, IfOk, is_err, is_ok, length, take, drop, vec_len, vec_capacity, Result};
ghost use Rattle.std.specs.Result.{result_ok};
ghost use Rattle.std.specs.Io.{ReadsAtMost, WritesAtMost};
ghost use Rattle.std.specs.Io.KnownBytes.{Keeps, ReadConsumes, WriteAppends};
ghost use Rattle.rewriter_devices.specs.Devices.{write_fails};
ghost use Rattle.rewriter_devices.specs.MemorySourceState.{read_fails, read_len, after_read};
ghost use Rattle.rewriter_devices.specs.MemorySinkState.{write_answer, after_write, flush_fails, part_taken_of};

use crate::{DeviceFailed, Sink, Source};
use std::alloc::{AllocError, Global};
use std::marker::Model;

/// A source of bytes in memory, which can be told to fail.
#[derive(Drop)]
pub struct MemorySource<'a> {
    left: &'a [u8],
    reads: u64,
    failing_read: Option<u64>,
    has_failed: bool,
}

impl<'a> Model for MemorySource<'a> {
    ghost use Rattle.rewriter_devices.specs.MemorySourceState.{MemorySourceState};

    ghost Value = { MemorySourceState };

    ghost view = { λ s. record { left = s.left.now; reads = s.reads; failing_read = s.failing_read; has_failed = s.has_failed } };
}

impl<'a> MemorySource<'a> {
    /// A source of `bytes`, where the read with the number `failing_read` fails, counted from 0, or none.
    pub fn new(bytes: &'a [u8], failing_read: Option<u64>) -> MemorySource<'a>
        ensures { result ≡ record { left = bytes.now; reads = 0; failing_read = failing_read; has_failed = false } }
    {
        MemorySource {
            left: bytes,
            reads: 0,
            failing_read,
            has_failed: false,
        }
    }
}

impl Source for MemorySource<'_> {
    ghost left = { λ s. Some s.left };

    ghost failed = { λ s. s.has_failed };

    ghost reads = { λ s. s.reads };

    fn read(&mut self, buf: &mut [u8]) -> Result<usize, DeviceFailed>
        ensures bound { ReadsAtMost result buf.new }
        ensures bytes { ReadConsumes (Some self.old.left) (Some self.new.left) result buf.new }
        ensures fails { self.new.has_failed ≡ is_err result }
        ensures stays_failed { self.old.has_failed ≡ true → IsErr result }
        ensures counted { self.new.reads ≤ self.old.reads + 1 }

        ensures given { result_ok result ≡ (if read_fails self.old then None else Some (read_len self.old (length buf.old))) }
        ensures rest { drop (read_len self.old (length buf.old)) buf.new ≡ drop (read_len self.old (length buf.old)) buf.old }
        ensures after { self.new ≡ after_read self.old (length buf.old) }
    {
        let fails = self.has_failed || self.failing_read == Some(self.reads);
        self.reads = self.reads.saturating_add(1);
        if fails {
            self.has_failed = true;
            return Err(DeviceFailed);
        }
        let count = buf.len().min(self.left.len());
        let (given, left) = self.left.split_at(count);
        buf[..count].copy_from_slice(given);
        self.left = left;
        Ok(count)
    }
}

/// Where a sink in memory fails. A number is the bytes that it takes before.
#[derive(Clone, Copy, PartialEq, Eq, Debug)]
pub enum SinkFail {
    /// Nowhere, as long as there is room.
    Never,
    /// A write past so many bytes is an `Err`.
    After(u64),
    /// A write past so many bytes takes none.
    Zero(u64),
    /// A flush is an `Err`.
    Flush,
}

/// A sink that keeps what it took, which can be told to fail.
#[derive(Drop)]
pub struct MemorySink {
    bytes: Vec<u8>,
    room: usize,
    fail: SinkFail,
    has_failed: bool,
}

impl Model for MemorySink {
    ghost use Rattle.std.specs.Prelude.{◌≤◌, vec_len, vec_capacity};
    ghost use Rattle.rewriter_devices.specs.MemorySinkState.{MemorySinkState};

    ghost Value = { MemorySinkState };

    ghost view = { λ s. record { bytes = s.bytes.items; room = s.room; fail = s.fail; has_failed = s.has_failed } };

    ghost invariant = { λ s. (vec_len s.bytes ≤ s.room) × (s.room ≤ vec_capacity s.bytes) };
}

impl MemorySink {
    /// A sink with room for `room` bytes, reserved here. A write of more than there is room for is an `Err`.
    pub fn new(alloc: Global, room: usize, fail: SinkFail) -> Result<MemorySink, AllocError>
        ensures { IfOk result (λ sink. sink ≡ record { bytes = []; room = room; fail = fail; has_failed = false }) }
    {
        Ok(MemorySink {
            bytes: Vec::with_capacity(alloc, room)?,
            room,
            fail,
            has_failed: false,
        })
    }

    /// What it took.
    pub fn bytes(&self) -> &[u8]
        ensures { result.now ≡ self.now.bytes }
    {
        self.bytes.as_slice()
    }
}

impl Sink for MemorySink {
    ghost taken = { λ s. Some s.bytes };

    ghost failed = { λ s. s.has_failed };

    // There is nowhere to pass it on to.
    ghost flushed = { λ _. true };

    fn write(&mut self, buf: &[u8]) -> Result<usize, DeviceFailed>
        ensures bound { WritesAtMost result buf.now }
        ensures bytes { WriteAppends (Some self.old.bytes) (Some self.new.bytes) result buf.now }
        ensures fails { self.new.has_failed ≡ write_fails result (length buf.now) }
        ensures stays_failed { self.old.has_failed ≡ true → IsErr result }

        ensures answer { result_ok result ≡ write_answer self.old (length buf.now) }
        ensures after { self.new ≡ after_write self.old buf.now }
    {
        let answer = self.answer(buf.len());
        self.has_failed = match answer {
            Ok(count) => count == 0 && buf.len() > 0,
            Err(_) => true,
        };
        let count = answer?;
        self.bytes.extend_from_slice(&buf[..count]).unwrap();
        Ok(count)
    }

    fn flush(&mut self) -> Result<(), DeviceFailed>
        ensures bytes { Keeps (Some self.old.bytes) (Some self.new.bytes) }
        ensures fails { self.new.has_failed ≡ is_err result }
        ensures stays_failed { self.old.has_failed ≡ true → IsErr result }
        ensures flushed { OnOk result (true ≡ true) }

        ensures after { self.new ≡ record self.old { has_failed = flush_fails self.old } }
    {
        if self.fail == SinkFail::Flush {
            self.has_failed = true;
        }
        if self.has_failed {
            return Err(DeviceFailed);
        }
        Ok(())
    }
}

impl MemorySink {
    // How many of `len` bytes the next write takes.
    fn answer(&self, len: usize) -> Result<usize, DeviceFailed>
        ensures value { result_ok result ≡ write_answer self.now len }
        ensures fits { IfOk result (λ n. (n ≤ len) × (n + length self.now.bytes ≤ self.now.room)) }
    {
        if self.has_failed || self.room - self.bytes.len() < len {
            return Err(DeviceFailed);
        }
        part_taken(self.fail, self.bytes.len(), len)
    }
}

// How many of `len` bytes a sink that fails there takes after `taken`.
fn part_taken(fail: SinkFail, taken: usize, len: usize) -> Result<usize, DeviceFailed>
    ensures value { result_ok result ≡ part_taken_of fail taken len }
    ensures fits { IfOk result (λ n. n ≤ len) }
{
    match fail {
        SinkFail::Never | SinkFail::Flush => Ok(len),
        SinkFail::After(most) if most <= taken as u64 && len > 0 => Err(DeviceFailed),
        SinkFail::After(most) | SinkFail::Zero(most) => {
            let room = most.saturating_sub(taken as u64);
            Ok((len as u64).min(room) as usize)
        }
    }
}
