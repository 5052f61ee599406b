// What is written.
ghost use Rattle.std.specs.Prelude.{◌≡◌, true, None, IsErr, OnOk, is_err, length};
ghost use Rattle.std.specs.Io.{WritesAtMost};
ghost use Rattle.std.specs.Io.KnownBytes.{Keeps, WriteAppends};
ghost use Rattle.wasm_rewriter.specs.Devices.{write_fails};

use program_parts::{NewFile, Place, Target};
use std::io::{ErrorKind, Write};
use std::rt::Files;
use std::{fs, io};
use wasm_rewriter::{DeviceFailed, Sink};

// What new files are called, in front of a number.
const NEW_FILE: &str = ".wasm_rewriter";

/// A sink over a target. What is there is opened, or a new file made, at the first write or flush. A new file takes its
/// name at the flush, behind which nothing more can be written; it is removed where a call fails. The sink keeps what
/// the system said then.
#[derive(Drop)]
pub struct OutputFile<'a, R: Files + Print> {
    rt: &'a R,
    target: &'a Target,
    writer: Option<Writer<'a, R>>,
    has_ended: bool,
    has_failed: bool,
    is_flushed: bool,
    cause: Option<io::Error>,
}

#[derive(Drop)]
enum Writer<'a, R: Files> {
    Standard,
    Direct(R::File),
    New(NewFile<R>, &'a Place),
}

impl<'a, R: Files + Print + AllocGlobal> OutputFile<'a, R> {
    pub fn new(rt: &'a R, target: &'a Target) -> OutputFile<'a, R> {
        OutputFile {
            rt,
            target,
            writer: None,
            has_ended: false,
            has_failed: false,
            is_flushed: true,
            cause: None,
        }
    }

    /// What the system said, where a call failed.
    pub fn into_cause(self) -> Option<io::Error> {
        self.cause
    }

    // What is written to, opened where it wasn't yet.
    fn take_writer(&mut self) -> io::Result<Writer<'a, R>> {
        if self.has_ended {
            return Err(io::Error::other("the file was finished"));
        }
        if let Some(writer) = self.writer.take() {
            return Ok(writer);
        }
        Ok(match self.target {
            Target::Standard => Writer::Standard,
            Target::Direct(path) => Writer::Direct(fs::create(self.rt, path.as_str())?),
            Target::Beside(place) => Writer::New(NewFile::create(self.rt, place, NEW_FILE)?, place),
        })
    }

    // A write that takes some bytes. Where it fails, a new file goes.
    fn write_part(&mut self, buf: &[u8]) -> io::Result<usize>
        ensures { WritesAtMost result buf.now }
    {
        match self.take_writer()? {
            Writer::Standard => {
                let count = write_once(&mut io::writer(self.rt), buf)?;
                self.writer = Some(Writer::Standard);
                Ok(count)
            }
            Writer::Direct(mut file) => {
                let count = write_once(&mut file, buf)?;
                self.writer = Some(Writer::Direct(file));
                Ok(count)
            }
            Writer::New(mut new, place) => match write_once(&mut new.file, buf) {
                Ok(count) => {
                    self.writer = Some(Writer::New(new, place));
                    Ok(count)
                }
                Err(e) => {
                    new.remove(self.rt);
                    Err(e)
                }
            },
        }
    }

    // Passes all on, and gives a new file its name.
    fn finish(&mut self) -> io::Result<()> {
        match self.take_writer()? {
            Writer::Standard => io::writer(self.rt).flush()?,
            Writer::Direct(mut file) => file.flush()?,
            Writer::New(new, place) => new.take_name(self.rt, place)?,
        }
        self.has_ended = true;
        Ok(())
    }
}

impl<R: Files + Print + AllocGlobal> Sink for OutputFile<'_, R> {
    ghost taken = { λ _. None };

    ghost failed = { λ s. s.has_failed };

    ghost flushed = { λ s. s.is_flushed };

    fn write(&mut self, buf: &[u8]) -> Result<usize, DeviceFailed>
        ensures bound { WritesAtMost result buf.now }
        ensures bytes { WriteAppends None None result buf.now }
        ensures fails { self.new.has_failed ≡ write_fails result (length buf.now) }
        ensures stays_failed { self.old.has_failed ≡ true → IsErr result }
    {
        if self.has_failed {
            return Err(DeviceFailed);
        }
        self.is_flushed = false;
        match self.write_part(buf) {
            Ok(count) => {
                self.has_failed = count == 0 && buf.len() > 0;
                Ok(count)
            }
            Err(e) => {
                self.has_failed = true;
                self.cause = Some(e);
                Err(DeviceFailed)
            }
        }
    }

    fn flush(&mut self) -> Result<(), DeviceFailed>
        ensures bytes { Keeps None None }
        ensures fails { self.new.has_failed ≡ is_err result }
        ensures stays_failed { self.old.has_failed ≡ true → IsErr result }
        ensures flushed { OnOk result (self.new.is_flushed ≡ true) }
    {
        if self.has_failed {
            return Err(DeviceFailed);
        }
        let answer = self.finish();
        self.is_flushed = answer.is_ok();
        self.has_failed = answer.is_err();
        match answer {
            Ok(()) => Ok(()),
            Err(e) => {
                self.cause = Some(e);
                Err(DeviceFailed)
            }
        }
    }
}

// One write, made again where a signal came between. To take none of some bytes is to fail.
fn write_once<W: Write>(writer: &mut W, buf: &[u8]) -> io::Result<usize>
    ensures { WritesAtMost result buf.now }
{
    for _ in 0..u64::MAX {
        match writer.write(buf) {
            Ok(0) if !buf.is_empty() => break,
            Err(e) if e.kind() == ErrorKind::Interrupted => {}
            answer => return answer,
        }
    }
    Err(io::Error::new(ErrorKind::WriteZero, "no more bytes are taken"))
}
