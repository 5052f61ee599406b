// The system, of whose files one thing fails. It can't say where a link leads, and was started with a word that is no
// text.
use std::alloc::{Allocator, Global};
use std::env::FillError;
use std::fmt::Display;
use std::fs::{File, Metadata, OpenFile, OpenOptions, Permissions};
use std::io;
use std::io::{ErrorKind, Lines, Read, Seek, SeekFrom, Write};
use std::rt::{Env, Files};

/// What fails.
#[derive(Clone, Copy, PartialEq, Eq)]
pub enum Failing {
    Nothing,
    // writes, once a file took two bytes
    Write,
    Permissions,
    Sync,
    Rename,
    // A signal interrupts the first read or write of each file. A flush writes a mark, `|`.
    Signal,
}

#[derive(Drop)]
pub struct Host<'a> {
    pub rt: &'a HostRuntime,
    pub failing: Failing,
    /// The file that takes what is printed.
    pub printed: &'a str,
}

// A file, with the count of its reads and writes.
#[derive(Drop)]
pub struct HostFile {
    file: File,
    failing: Failing,
    calls: u64,
}

fn failed() -> io::Error {
    io::Error::from(ErrorKind::Other)
}

impl Read for HostFile {
    fn read(&mut self, buf: &mut [u8]) -> io::Result<usize> {
        self.calls = self.calls.saturating_add(1);
        if self.failing == Failing::Signal && self.calls == 1 {
            return Err(io::Error::from(ErrorKind::Interrupted));
        }
        self.file.read(buf)
    }
}

impl Write for HostFile {
    fn write(&mut self, buf: &[u8]) -> io::Result<usize> {
        self.calls = self.calls.saturating_add(1);
        if self.failing == Failing::Signal && self.calls == 1 {
            return Err(io::Error::from(ErrorKind::Interrupted));
        }
        if self.failing == Failing::Write && self.calls > 1 {
            return Err(failed());
        }
        self.file.write(&buf[..buf.len().min(2)])
    }

    fn flush(&mut self) -> io::Result<()> {
        if self.failing == Failing::Signal {
            self.file.write_all(b"|")?;
        }
        self.file.flush()
    }
}

impl Seek for HostFile {
    fn seek(&mut self, to: SeekFrom) -> io::Result<u64> {
        self.file.seek(to)
    }
}

impl OpenFile for HostFile {
    fn metadata(&self) -> io::Result<Metadata> {
        self.file.metadata()
    }

    fn set_len(&self, size: u64) -> io::Result<()> {
        self.file.set_len(size)
    }

    fn sync_all(&self) -> io::Result<()> {
        if self.failing == Failing::Sync {
            return Err(failed());
        }
        self.file.sync_all()
    }

    fn sync_data(&self) -> io::Result<()> {
        self.file.sync_data()
    }

    fn set_permissions(&self, permissions: Permissions) -> io::Result<()> {
        if self.failing == Failing::Permissions {
            return Err(failed());
        }
        self.file.set_permissions(permissions)
    }
}

impl Files for Host<'_> {
    type File = HostFile;

    type Dir = <HostRuntime as Files>::Dir;

    fn open_file(&self, how: &OpenOptions, path: &str) -> io::Result<HostFile> {
        Ok(HostFile {
            file: self.rt.open_file(how, path)?,
            failing: self.failing,
            calls: 0,
        })
    }

    fn open_dir(&self, path: &str) -> io::Result<Self::Dir> {
        self.rt.open_dir(path)
    }

    fn metadata(&self, path: &str) -> io::Result<Metadata> {
        self.rt.metadata(path)
    }

    fn symlink_metadata(&self, path: &str) -> io::Result<Metadata> {
        self.rt.symlink_metadata(path)
    }

    fn copy(&self, from: &str, to: &str) -> io::Result<u64> {
        self.rt.copy(from, to)
    }

    fn rename(&self, from: &str, to: &str) -> io::Result<()> {
        if self.failing == Failing::Rename {
            return Err(failed());
        }
        self.rt.rename(from, to)
    }

    fn remove_file(&self, path: &str) -> io::Result<()> {
        self.rt.remove_file(path)
    }

    fn create_dir(&self, path: &str) -> io::Result<()> {
        self.rt.create_dir(path)
    }

    fn remove_dir(&self, path: &str) -> io::Result<()> {
        self.rt.remove_dir(path)
    }

    fn remove_dir_all<B: Allocator>(&self, alloc: B, path: &str) -> io::Result<()> {
        self.rt.remove_dir_all(alloc, path)
    }
}

impl Alloc for Host<'_> {
    type A = Global;

    fn alloc(&self) -> Global {
        self.rt.alloc()
    }
}

impl Print for Host<'_> {
    fn print<D: Display + Drop>(&self, value: D) -> io::Result<()> {
        self.rt.print(value)
    }

    fn println<D: Display + Drop>(&self, value: D) -> io::Result<()> {
        self.rt.println(value)
    }

    fn write_all(&self, bytes: &[u8]) -> io::Result<()> {
        let mut options = OpenOptions::new();
        options.append(true).create(true);
        options.open(self.rt, self.printed)?.write_all(bytes)
    }
}

impl Eprint for Host<'_> {
    fn eprint<D: Display + Drop>(&self, value: D) -> io::Result<()> {
        self.rt.eprint(value)
    }

    fn eprintln<D: Display + Drop>(&self, value: D) -> io::Result<()> {
        self.rt.eprintln(value)
    }
}

impl Input for Host<'_> {
    type Reader = <HostRuntime as Input>::Reader;

    fn read_line<A: Allocator + Clone>(&self, buf: &mut String<A>) -> io::Result<usize> {
        self.rt.read_line(buf)
    }

    fn lines<A: Allocator>(&self, alloc: A) -> Lines<Self::Reader, A> {
        self.rt.lines(alloc)
    }

    fn reader(&self) -> Self::Reader {
        self.rt.reader()
    }
}

impl Env for Host<'_> {
    fn arg(&self, i: usize, buf: &mut [u8]) -> Result<usize, FillError> {
        if i > 0 || buf.is_empty() {
            return Err(FillError::NotPresent);
        }
        buf[0] = 0xff;
        Ok(1)
    }

    fn var(&self, _name: &str, _buf: &mut [u8]) -> Result<usize, FillError> {
        Err(FillError::NotPresent)
    }

    fn var_at(&self, _i: usize, _buf: &mut [u8]) -> Result<usize, FillError> {
        Err(FillError::NotPresent)
    }
}
