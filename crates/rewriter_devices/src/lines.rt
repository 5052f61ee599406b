// Writing a place list.
ghost use Rattle.std.specs.Prelude.{◌≡◌, ◌≤◌, ◌<◌, ◌+◌, ◌*◌, ◌^◌, ◌++◌, ◌∷◌, true, IsErr, OnOk, IfOk, OnErr, MatchResult, is_err, length, take, drop, decimal};
ghost use Rattle.std.specs.Io.KnownBytes.{Appends};
ghost use Rattle.rewriter_devices.specs.Lines.{line_of, lines_of};

use crate::output::write_all;
use crate::{Sink, WriteFault};
use itoa::write_digits;

// Two numbers of at most 10 digits, a space and a line feed.
const MAX_LINE_LEN: usize = 22;

const LINES_AT_ONCE: usize = 1024;

const BUFFER_LEN: usize = LINES_AT_ONCE * MAX_LINE_LEN;

/// Writes a line for each place, `old`, a space, `new` and a line feed in decimal, and flushes. It takes
/// no memory, and writes many lines at once.
pub fn send_places<W: Sink>(writer: &mut W, places: &[(u32, u32)]) -> Result<(), WriteFault>
    requires { length places.now ≤ 2 ^ 32 }
    ensures sent { MatchResult result
        (λ _. Appends (W.taken writer.old) (W.taken writer.new) (lines_of places.now))
        (λ e. (e.written ≤ length (lines_of places.now))
        × Appends (W.taken writer.old) (W.taken writer.new) (take e.written (lines_of places.now))) }
    ensures fails { W.failed writer.new ≡ is_err result }
    ensures stays_failed { W.failed writer.old ≡ true → IsErr result }
    ensures flushed { OnOk result (W.flushed writer.new ≡ true) }
{
    let mut written = 0;
    for chunk in places.chunks(LINES_AT_ONCE) {
        match write_lines(writer, chunk) {
            Ok(count) => written += count as u64,
            Err(e) => {
                return Err(WriteFault {
                    written: written + e.written,
                });
            }
        }
    }
    writer.flush().map_err(|_| WriteFault { written })
}

// Writes the lines of some places, and returns how many bytes they have.
fn write_lines<W: Sink>(writer: &mut W, places: &[(u32, u32)]) -> Result<usize, WriteFault>
    requires { length places.now ≤ 1024 }
    ensures len { IfOk result (λ n. n ≡ length (lines_of places.now)) }
    ensures short { length (lines_of places.now) ≤ 22 * length places.now }
    ensures sent { MatchResult result
        (λ _. Appends (W.taken writer.old) (W.taken writer.new) (lines_of places.now))
        (λ e. (e.written < length (lines_of places.now))
        × Appends (W.taken writer.old) (W.taken writer.new) (take e.written (lines_of places.now))) }
    ensures fails { OnErr result (W.failed writer.new ≡ true) }
    ensures stays_failed { W.failed writer.old ≡ true → W.failed writer.new ≡ true }
{
    let mut buffer = [0; BUFFER_LEN];
    let start = put_lines(places, &mut buffer);
    write_all(writer, &buffer[start..])?;
    Ok(BUFFER_LEN - start)
}

// Puts the lines at the end of the buffer, the last line first, and returns where they start.
fn put_lines(places: &[(u32, u32)], buffer: &mut [u8]) -> usize
    requires { 22 * length places.now ≤ length buffer.old }
    ensures starts { (result ≤ length buffer.old) × (length buffer.old ≤ result + 22 * length places.now) }
    ensures lines { drop result buffer.new ≡ lines_of places.now }
{
    let mut start = buffer.len();
    for index in (0..places.len()).rev() {
        let (old, new) = places[index];
        start = put_line(old, new, buffer, start);
    }
    start
}

// Puts a line before `end`, and returns where it starts.
fn put_line(old: u32, new: u32, buffer: &mut [u8], end: usize) -> usize
    requires fits { 22 ≤ end }
    requires within { end ≤ length buffer.old }
    ensures starts { (result ≤ end) × (end ≤ result + 22) }
    ensures line { drop result buffer.new ≡ line_of (old, new) ++ drop end buffer.old }
{
    let end = put_byte(b'\n', buffer, end);
    let end = put_number(new, buffer, end);
    let end = put_byte(b' ', buffer, end);
    put_number(old, buffer, end)
}

// Puts a number in decimal before `end`, and returns where it starts.
fn put_number(number: u32, buffer: &mut [u8], end: usize) -> usize
    requires fits { 10 ≤ end }
    requires within { end ≤ length buffer.old }
    ensures starts { (result ≤ end) × (end ≤ result + 10) }
    ensures digits { drop result buffer.new ≡ decimal number ++ drop end buffer.old }
{
    write_digits(u64::from(number), buffer, end)
}

// Puts a byte before `end`, and returns where it stands.
fn put_byte(byte: u8, buffer: &mut [u8], end: usize) -> usize
    requires fits { 0 < end }
    requires within { end ≤ length buffer.old }
    ensures starts { result + 1 ≡ end }
    ensures byte { drop result buffer.new ≡ byte ∷ drop end buffer.old }
{
    buffer[end - 1] = byte;
    end - 1
}
