// What is read.
ghost use Rattle.std.specs.Prelude.{◌≡◌, ◌≤◌, ◌+◌, true, None, IsErr, is_err};
ghost use Rattle.std.specs.Io.{ReadsAtMost};
ghost use Rattle.std.specs.Io.KnownBytes.{ReadConsumes};

use input_words::{LONG_INPUT_LEN, Start};
use std::io::{ErrorKind, Read};
use std::rt::Files;
use std::{fs, io};
use wasm_rewriter::{DeviceFailed, Source};

/// A source over the file that a word names, `-` for standard input. It is opened at the first read, and closed at
/// its end. It keeps what the system said where a call failed, how many bytes it gave, and whether they begin as a text.
#[derive(Drop)]
pub struct InputFile<'a, R: Files + Input + Eprint> {
    rt: &'a R,
    word: &'a str,
    reader: Option<Reader<R>>,
    has_ended: bool,
    has_failed: bool,
    cause: Option<io::Error>,
    start: Start,
    count: u64,
    shows_progress: bool,
}

#[derive(Drop)]
enum Reader<R: Files + Input> {
    Standard(R::Reader),
    File(R::File),
}

impl<'a, R: Files + Input + Eprint> InputFile<'a, R> {
    pub fn new(rt: &'a R, word: &'a str) -> InputFile<'a, R> {
        InputFile {
            rt,
            word,
            reader: None,
            has_ended: false,
            has_failed: false,
            cause: None,
            start: Start::Blank,
            count: 0,
            shows_progress: false,
        }
    }

    /// Whether it is said on standard error when a long input was read.
    pub fn show_progress(&mut self, shows_progress: bool) {
        self.shows_progress = shows_progress;
    }

    /// Whether what was read begins as a text does.
    pub fn is_text(&self) -> bool {
        self.start == Start::Text
    }

    /// What the system said, where a call failed.
    pub fn into_cause(self) -> Option<io::Error> {
        self.cause
    }

    // The file, opened where it wasn't yet.
    fn take_reader(&mut self) -> io::Result<Reader<R>> {
        match self.reader.take() {
            Some(reader) => Ok(reader),
            None if self.word == "-" => Ok(Reader::Standard(self.rt.reader())),
            None => Ok(Reader::File(fs::open(self.rt, self.word)?)),
        }
    }

    // A read, behind which the file is kept unless it is at its end.
    fn read_part(&mut self, buf: &mut [u8]) -> io::Result<usize>
        ensures { ReadsAtMost result buf.new }
    {
        if self.has_ended {
            return Ok(0);
        }
        let mut reader = self.take_reader()?;
        let count = read_from(&mut reader, buf)?;
        self.note(&buf[..count]);
        if count == 0 && !buf.is_empty() {
            self.has_ended = true;
            self.tell_end();
        } else {
            self.reader = Some(reader);
        }
        Ok(count)
    }

    fn note(&mut self, bytes: &[u8]) {
        self.count = self.count.saturating_add(bytes.len() as u64);
        if self.start == Start::Blank {
            self.start = self.start.after(bytes);
        }
    }

    // Where nobody sees it, a run says nothing.
    fn tell_end(&self) {
        if self.shows_progress && self.count > LONG_INPUT_LEN {
            let megabytes = self.count / 1_000_000;
            let _ = eprintln!(self.rt;
                "wasm_rewriter: {megabytes} MB are read, and being rewritten"
            );
        }
    }
}

impl<R: Files + Input + Eprint> Source for InputFile<'_, R> {
    ghost left = { λ _. None };

    ghost failed = { λ s. s.has_failed };

    ghost reads = { λ _. 0 };

    fn read(&mut self, buf: &mut [u8]) -> Result<usize, DeviceFailed>
        ensures bound { ReadsAtMost result buf.new }
        ensures bytes { ReadConsumes None None result buf.new }
        ensures fails { self.new.has_failed ≡ is_err result }
        ensures stays_failed { self.old.has_failed ≡ true → IsErr result }
        ensures counted { 0 ≤ 0 + 1 }
    {
        if self.has_failed {
            return Err(DeviceFailed);
        }
        let answer = self.read_part(buf);
        self.has_failed = answer.is_err();
        match answer {
            Ok(count) => Ok(count),
            Err(e) => {
                self.cause = Some(e);
                Err(DeviceFailed)
            }
        }
    }
}

fn read_from<R: Files + Input>(reader: &mut Reader<R>, buf: &mut [u8]) -> io::Result<usize>
    ensures { ReadsAtMost result buf.new }
{
    match reader {
        Reader::Standard(standard) => read_once(standard, buf),
        Reader::File(file) => read_once(file, buf),
    }
}

// One read, made again where a signal came between.
fn read_once<R: Read>(reader: &mut R, buf: &mut [u8]) -> io::Result<usize>
    ensures { ReadsAtMost result buf.new }
{
    for _ in 0..u64::MAX {
        match reader.read(buf) {
            Err(e) if e.kind() == ErrorKind::Interrupted => {}
            answer => return answer,
        }
    }
    Err(io::Error::from(ErrorKind::TimedOut))
}
