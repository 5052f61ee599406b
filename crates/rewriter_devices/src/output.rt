// Writing out what was made.
ghost use Rattle.std.specs.Prelude.{◌≡◌, ◌≤◌, ◌<◌, true, IsErr, OnOk, OnErr, MatchResult, is_err, length, take};
ghost use Rattle.std.specs.Io.KnownBytes.{Appends};

use crate::Sink;

/// A sink failed after it took the first `written` of the bytes.
#[derive(Clone, Copy, PartialEq, Eq, Debug)]
pub struct WriteFault {
    pub written: u64,
}

/// Writes all the bytes and flushes.
pub fn send<W: Sink>(writer: &mut W, bytes: &[u8]) -> Result<(), WriteFault>
    ensures sent { MatchResult result
        (λ _. Appends (W.taken writer.old) (W.taken writer.new) bytes.now)
        (λ e. (e.written ≤ length bytes.now)
        × Appends (W.taken writer.old) (W.taken writer.new) (take e.written bytes.now)) }
    ensures fails { W.failed writer.new ≡ is_err result }
    ensures stays_failed { W.failed writer.old ≡ true → IsErr result }
    ensures flushed { OnOk result (W.flushed writer.new ≡ true) }
{
    write_all(writer, bytes)?;
    let written = bytes.len() as u64;
    writer.flush().map_err(|_| WriteFault { written })
}

// Writes all the bytes. To take none of some bytes is a failure too, so the loop ends.
pub(crate) fn write_all<W: Sink>(writer: &mut W, bytes: &[u8]) -> Result<(), WriteFault>
    ensures sent { MatchResult result
        (λ _. Appends (W.taken writer.old) (W.taken writer.new) bytes.now)
        (λ e. (e.written < length bytes.now)
        × Appends (W.taken writer.old) (W.taken writer.new) (take e.written bytes.now)) }
    ensures fails { OnErr result (W.failed writer.new ≡ true) }
    ensures stays_failed { W.failed writer.old ≡ true → W.failed writer.new ≡ true }
{
    let mut written = 0;
    while written < bytes.len() {
        match writer.write(&bytes[written..]) {
            Ok(0) | Err(_) => {
                return Err(WriteFault {
                    written: written as u64,
                });
            }
            Ok(count) => written += count,
        }
    }
    Ok(())
}
