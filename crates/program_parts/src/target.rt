//! Which file a word names, and where bytes for it go.
ghost use Rattle.std.specs.Prelude.{◌↔◌, IsTrue};

use std::fs::Metadata;
use std::io::ErrorKind;
use std::os::unix::fs::MetadataExt;
use std::path::PathBuf;
use std::rt::Files;
use std::{fs, io};

// More links than the system follows.
const MAX_LINKS: u32 = 64;

/// What a word names: a file that is there, by its device and its number on it, or a name in a folder, given
/// likewise, that has no such file yet.
#[derive(Drop)]
pub enum FileId {
    There {
        device: u64,
        number: u64,
    },
    Missing {
        device: u64,
        number: u64,
        name: String,
    },
    Unknown,
}

impl FileId {
    ghost use Rattle.program_parts.specs.Files.{NamesOneFile};

    fn of(there: &Metadata) -> FileId {
        FileId::There {
            device: there.dev(),
            number: there.ino(),
        }
    }

    /// Whether both name one file, so far as that is known.
    pub fn is_same(&self, other: &FileId) -> bool
        ensures { IsTrue result ↔ NamesOneFile self.now other.now }
    {
        match (self, other) {
            (
                FileId::There { device, number },
                FileId::There {
                    device: other_device,
                    number: other_number,
                },
            ) => device == other_device && number == other_number,
            (
                FileId::Missing {
                    device,
                    number,
                    name,
                },
                FileId::Missing {
                    device: other_device,
                    number: other_number,
                    name: other_name,
                },
            ) => {
                device == other_device
                    && number == other_number
                    && name.as_bytes() == other_name.as_bytes()
            }
            _ => false,
        }
    }
}

/// Where bytes go.
#[derive(Drop)]
pub enum Target {
    /// To standard output.
    Standard,
    /// Into what is there: a pipe, a terminal, a device.
    Direct(PathBuf),
    /// To a new file, which then takes this place.
    Beside(Place),
}

/// A path at which a regular file may be, with its folder, and what is there.
#[derive(Drop)]
pub struct Place {
    /// The path.
    pub path: PathBuf,
    /// Its folder.
    pub folder: PathBuf,
    /// What is there.
    pub there: Option<Metadata>,
}

/// What a word names, and where bytes for it go. Links are followed, also those to a file that isn't there yet.
pub fn locate<R: Files + AllocGlobal>(rt: &R, word: &str) -> io::Result<(FileId, Target)> {
    if word == "-" {
        return Ok((id_of(rt, "/dev/stdout"), Target::Standard));
    }
    match fs::metadata(rt, word) {
        Ok(there) => {
            let id = FileId::of(&there);
            let Some(path) = follow(rt, word)? else {
                return Ok((id, direct(rt, word)?));
            };
            // The link of an open file that was deleted names none.
            let is_found = there.is_file() && id_of(rt, path.as_str()).is_same(&id);
            match folder_of(rt, &path)? {
                Some(folder) if is_found => Ok((
                    id,
                    Target::Beside(Place {
                        path,
                        folder,
                        there: Some(there),
                    }),
                )),
                _ => Ok((id, direct(rt, word)?)),
            }
        }
        Err(e) if e.kind() == ErrorKind::NotFound => {
            let Some(path) = follow(rt, word)? else {
                return Ok((FileId::Unknown, direct(rt, word)?));
            };
            match folder_of(rt, &path)? {
                Some(folder) => {
                    let id = missing_in(rt, &folder, &path)?;
                    Ok((
                        id,
                        Target::Beside(Place {
                            path,
                            folder,
                            there: None,
                        }),
                    ))
                }
                None => Ok((FileId::Unknown, Target::Direct(path))),
            }
        }
        // Opening it will say the same.
        Err(_) => Ok((FileId::Unknown, direct(rt, word)?)),
    }
}

fn direct<R: AllocGlobal>(rt: &R, word: &str) -> io::Result<Target> {
    Ok(Target::Direct(PathBuf::from_str(rt.alloc(), word)?))
}

/// The file that is read under a word.
pub fn input_id<R: Files + AllocGlobal>(rt: &R, word: &str) -> io::Result<FileId> {
    if word == "-" {
        return Ok(id_of(rt, "/dev/stdin"));
    }
    let (id, _) = locate(rt, word)?;
    Ok(id)
}

// The file at a path, where there is one.
fn id_of<R: Files>(rt: &R, path: &str) -> FileId {
    match fs::metadata(rt, path) {
        Ok(there) => FileId::of(&there),
        Err(_) => FileId::Unknown,
    }
}

// The file of that path, which isn't there, by its folder.
fn missing_in<R: Files + AllocGlobal>(
    rt: &R,
    folder: &PathBuf,
    path: &PathBuf,
) -> io::Result<FileId> {
    let name = path.file_name().unwrap_or("");
    Ok(match fs::metadata(rt, folder.as_str()) {
        Ok(there) => FileId::Missing {
            device: there.dev(),
            number: there.ino(),
            name: String::from_str(rt.alloc(), name)?,
        },
        Err(_) => FileId::Unknown,
    })
}

// Where the link that stands at the path leads, and the next, to a path at which no link stands. None where a link
// can't be told, as one that is no UTF-8 text.
fn follow<R: Files + AllocGlobal>(rt: &R, word: &str) -> io::Result<Option<PathBuf>> {
    let mut path = PathBuf::from_str(rt.alloc(), word)?;
    for _ in 0..MAX_LINKS {
        if !is_link(rt, &path) {
            return Ok(Some(path));
        }
        match fs::read_link(rt, path.as_str()) {
            Ok(link) => {
                path.pop();
                path.push(link.as_path())?;
            }
            Err(e) if e.kind() == ErrorKind::OutOfMemory => return Err(e),
            Err(_) => return Ok(None),
        }
    }
    Ok(None)
}

fn is_link<R: Files>(rt: &R, path: &PathBuf) -> bool {
    match fs::symlink_metadata(rt, path.as_str()) {
        Ok(there) => there.is_symlink(),
        Err(_) => false,
    }
}

// The folder of a path that ends in a name.
fn folder_of<R: AllocGlobal>(rt: &R, path: &PathBuf) -> io::Result<Option<PathBuf>> {
    let (Some(folder), Some(name)) = (path.parent(), path.file_name()) else {
        return Ok(None);
    };
    if !path.as_str().ends_with(name) {
        return Ok(None);
    }
    let folder = if folder.as_str().is_empty() {
        "."
    } else {
        folder.as_str()
    };
    Ok(Some(PathBuf::from_str(rt.alloc(), folder)?))
}
