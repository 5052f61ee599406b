// A folder of a test's own. (It owns nothing, and a call that fails is a `false`.)
use std::fs::Permissions;
use std::os::unix::fs::{MetadataExt, PermissionsExt};
use std::rt::Files;
use std::{fs, process};
use test_words::{Bytes, written};

#[derive(Clone, Copy)]
pub struct Folder<'a> {
    rt: &'a HostRuntime,
    path: Bytes,
}

impl<'a> Folder<'a> {
    /// The folder of that name, which isn't there yet.
    pub fn new(rt: &'a HostRuntime, name: &str) -> Folder<'a> {
        let number = process::id(rt.process());
        let mut path = Bytes::of(b"/tmp/wasm_rewriter-");
        path.push_all(written(rt.alloc(), &number).as_slice());
        path.push_all(b"-");
        path.push_all(name.as_bytes());
        Folder { rt, path }
    }

    pub fn make(&self) -> bool {
        self.rt.create_dir(self.path.as_str()).is_ok()
    }

    /// The path of a file of that name.
    pub fn at(&self, name: &str) -> Bytes {
        let mut path = self.path;
        path.push_all(b"/");
        path.push_all(name.as_bytes());
        path
    }

    /// Adds a file of that name.
    pub fn add(&self, name: &str, bytes: &[u8]) -> bool {
        fs::write(self.rt, self.at(name).as_str(), bytes).is_ok()
    }

    /// Adds a folder of that name.
    pub fn add_folder(&self, name: &str) -> bool {
        self.rt.create_dir(self.at(name).as_str()).is_ok()
    }

    /// Adds a link of that name, which leads to `to`.
    pub fn add_link(&self, to: &str, name: &str) -> bool {
        self.rt.symlink(to, self.at(name).as_str()).is_ok()
    }

    /// Gives the file another name.
    pub fn add_name(&self, name: &str, other: &str) -> bool {
        self.rt
            .hard_link(self.at(name).as_str(), self.at(other).as_str())
            .is_ok()
    }

    pub fn is_link(&self, name: &str) -> bool {
        match self.rt.symlink_metadata(self.at(name).as_str()) {
            Ok(there) => there.is_symlink(),
            Err(_) => false,
        }
    }

    /// Gives the file these permissions.
    pub fn set_mode(&self, name: &str, mode: u32) -> bool {
        self.rt
            .set_permissions(self.at(name).as_str(), Permissions::from_mode(mode))
            .is_ok()
    }

    /// The file's permissions, and the number of its owner.
    pub fn mode_and_owner(&self, name: &str) -> Option<(u32, u32)> {
        match self.rt.metadata(self.at(name).as_str()) {
            Ok(there) => Some((there.mode() & 0o777, there.uid())),
            Err(_) => None,
        }
    }

    /// Whether the file has these bytes.
    pub fn holds(&self, name: &str, bytes: &[u8]) -> bool {
        match fs::read(self.rt, self.at(name).as_str()) {
            Ok(found) => found.as_slice() == bytes,
            Err(_) => false,
        }
    }

    /// Whether it has so many files.
    pub fn has(&self, count: u64) -> bool {
        match fs::read_dir(self.rt, self.path.as_str()) {
            Ok(names) => names.count() as u64 == count,
            Err(_) => false,
        }
    }

    pub fn remove(&self) -> bool {
        self.rt
            .remove_dir_all(self.rt.alloc(), self.path.as_str())
            .is_ok()
    }
}
