//! A file that is written beside another one, whose name it then takes.
use crate::target::Place;
use std::fs::{OpenFile, OpenOptions};
use std::io::{ErrorKind, Write};
use std::os::unix::fs::{MetadataExt, OpenOptionsExt, chown};
use std::path::PathBuf;
use std::rt::Files;
use std::{fs, io};

// How many names are tried.
const MAX_NAMES: u32 = 1000;

/// A new file, and its path.
#[derive(Drop)]
pub struct NewFile<R: Files> {
    /// The file.
    pub file: R::File,
    path: PathBuf,
}

impl<R: Files + AllocGlobal> NewFile<R> {
    /// Makes the file, with the permissions of the one that is there. It is called by `front` and the first number that no file has.
    ///
    /// # Errors
    ///
    /// What the system said. Want of memory.
    pub fn create(rt: &R, place: &Place, front: &str) -> io::Result<NewFile<R>> {
        if place.there.is_some() {
            // Who may not write the old file may not replace it.
            OpenOptions::new()
                .write(true)
                .open(rt, place.path.as_str())?;
        }
        let mode = if place.there.is_some() { 0o600 } else { 0o666 };
        let new = NewFile::create_in(rt, &place.folder, front, mode)?;
        match new.take_permissions(rt, place) {
            Ok(()) => Ok(new),
            Err(e) => {
                new.remove(rt);
                Err(e)
            }
        }
    }

    // Makes a file of a name that no other has.
    fn create_in(rt: &R, folder: &PathBuf, front: &str, mode: u32) -> io::Result<NewFile<R>> {
        let mut options = OpenOptions::new();
        options.write(true).create_new(true).mode(mode);
        for number in 0..MAX_NAMES {
            let name = format!(in rt.alloc(); "{front}-{number}")?;
            let path = folder.join(rt.alloc(), name.as_str())?;
            match options.open(rt, path.as_str()) {
                Ok(file) => return Ok(NewFile { file, path }),
                Err(e) if e.kind() == ErrorKind::AlreadyExists => {}
                Err(e) => return Err(e),
            }
        }
        Err(io::Error::from(ErrorKind::AlreadyExists))
    }

    // Gives it the permissions of the file that is there, and its owner where that is allowed.
    fn take_permissions(&self, rt: &R, place: &Place) -> io::Result<()> {
        if let Some(there) = &place.there {
            let _ = chown(rt, self.path.as_str(), Some(there.uid()), Some(there.gid()));
            self.file.set_permissions(there.permissions())?;
        }
        Ok(())
    }

    /// Closes the file once all its bytes reached it, and gives it the name. Where that fails, it goes.
    ///
    /// # Errors
    ///
    /// What the system said.
    pub fn take_name(mut self, rt: &R, place: &Place) -> io::Result<()> {
        let settled = self.settle();
        let NewFile { file, path } = self;
        drop(file);
        let answer = match settled {
            Ok(()) => fs::rename(rt, path.as_str(), place.path.as_str()),
            Err(e) => Err(e),
        };
        if answer.is_err() {
            let _ = fs::remove_file(rt, path.as_str());
        }
        answer
    }

    // Waits until its bytes reached the disk, so that no failure of theirs comes later.
    fn settle(&mut self) -> io::Result<()> {
        self.file.flush()?;
        self.file.sync_all()
    }

    /// Takes the file away, so far as that can be done.
    pub fn remove(self, rt: &R) {
        let NewFile { file, path } = self;
        drop(file);
        let _ = fs::remove_file(rt, path.as_str());
    }
}
