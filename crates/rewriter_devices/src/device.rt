// The two kinds of devices, and how one fails.
ghost use Rattle.std.specs.Prelude.{◌≡◌, ℕ, ◌+◌, ◌≤◌, List, Option, Bool, true, IsErr, OnOk, is_err, length};
ghost use Rattle.std.specs.Io.{ReadsAtMost, WritesAtMost};
ghost use Rattle.std.specs.Io.KnownBytes.{Keeps, ReadConsumes, WriteAppends};
ghost use Rattle.rewriter_devices.specs.Devices.{write_fails};

use thiserror::Error;

/// The call failed, and so will every later call of this device.
#[derive(Clone, Copy, PartialEq, Eq, Debug, Error)]
#[error("device failed")]
pub struct DeviceFailed;

/// What bytes are read from.
pub trait Source {
    // The bytes that reads will give from here on, where the source tells them.
    ghost left: { Self → Option (List ℕ) };

    // Whether a call has failed.
    ghost failed: { Self → Bool };

    // At most how many reads were made, for a source that counts them.
    ghost reads: { Self → ℕ };

    /// Reads into the front of `buf` and returns how many bytes it put there: none only at the end, or
    /// where `buf` has no room. An `Err` leaves the bytes.
    fn read(&mut self, buf: &mut [u8]) -> Result<usize, DeviceFailed>
        ensures bound { ReadsAtMost result buf.new }
        ensures bytes { ReadConsumes (left self.old) (left self.new) result buf.new }
        ensures fails { failed self.new ≡ is_err result }
        ensures stays_failed { failed self.old ≡ true → IsErr result }
        ensures counted { reads self.new ≤ reads self.old + 1 };
}

/// What bytes are written to.
pub trait Sink {
    // The bytes that it took, where the sink tells them.
    ghost taken: { Self → Option (List ℕ) };

    // Whether a call has failed.
    ghost failed: { Self → Bool };

    // Whether it holds nothing back of what it took.
    ghost flushed: { Self → Bool };

    /// Takes bytes from the front of `buf` and returns how many. To take none of some bytes is to fail,
    /// as an `Err` is. An `Err` takes none.
    fn write(&mut self, buf: &[u8]) -> Result<usize, DeviceFailed>
        ensures bound { WritesAtMost result buf.now }
        ensures bytes { WriteAppends (taken self.old) (taken self.new) result buf.now }
        ensures fails { failed self.new ≡ write_fails result (length buf.now) }
        ensures stays_failed { failed self.old ≡ true → IsErr result };

    /// Passes on what it took.
    fn flush(&mut self) -> Result<(), DeviceFailed>
        ensures bytes { Keeps (taken self.old) (taken self.new) }
        ensures fails { failed self.new ≡ is_err result }
        ensures stays_failed { failed self.old ≡ true → IsErr result }
        ensures flushed { OnOk result (flushed self.new ≡ true) };
}
