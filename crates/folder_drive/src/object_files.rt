//! The files of a folder that are objects: `v.o` is object o of volume v, both in decimal. Any other file is left alone.
ghost use Rattle.std.specs.Prelude.{◌≤◌, length, IfOk, IfSome};

use std::alloc::{AllocError, Global};
use std::fs::{File, OpenOptions};
use std::io::{ErrorKind, Write};
use std::os::unix::fs::FileExt;
use std::path::Path;
use std::rt::Files;
use std::{fs, io};

/// The folder, which need not be there. What it holds is trusted to be what was written to it, and no contract speaks of it.
#[derive(Drop)]
pub(crate) struct ObjectFiles<R> {
    alloc: Global,
    files: R,
    folder: String,
}

impl<R: Files<File = File> + Drop> ObjectFiles<R> {
    pub(crate) fn new(alloc: Global, files: R, folder: String) -> ObjectFiles<R> {
        ObjectFiles {
            alloc,
            files,
            folder,
        }
    }

    /// The path of the object's file.
    pub(crate) fn path_of(&self, volume: u32, object: u32) -> Result<String, AllocError> {
        let folder = self.folder.as_str();
        format!(in self.alloc; "{folder}/{volume}.{object}")
    }

    /// How many bytes the object has, or none where it isn't there. What is there and is no file is an error, and so is a file of 2^32 bytes or more.
    pub(crate) fn len(&self, volume: u32, object: u32) -> io::Result<Option<u32>> {
        let path = self.path_of(volume, object)?;
        self.len_at(path.as_str())
    }

    fn len_at(&self, path: &str) -> io::Result<Option<u32>> {
        let found = match fs::metadata(&self.files, path) {
            Ok(found) => found,
            Err(why) if why.kind() == ErrorKind::NotFound => return Ok(None),
            Err(why) => return Err(why),
        };
        match u32::try_from(found.len()) {
            Ok(len) if found.is_file() => Ok(Some(len)),
            _ => Err(io::Error::from(ErrorKind::InvalidData)),
        }
    }

    /// Puts the object's bytes from that place on into the front of the buffer, as far as they fit, and says how many; or none where the object isn't
    /// there. It is looked at before it is opened, since to open what is no file may wait forever.
    pub(crate) fn read(
        &self,
        volume: u32,
        object: u32,
        at: u32,
        buf: &mut [u8],
    ) -> io::Result<Option<u32>>
        ensures { IfOk result (λ found. IfSome found (λ n. n ≤ length buf.old)) }
    {
        let path = self.path_of(volume, object)?;
        let Some(len) = self.len_at(path.as_str())? else {
            return Ok(None);
        };
        let count = (len.saturating_sub(at) as usize).min(buf.len());
        let file = File::open(&self.files, path.as_str())?;
        file.read_exact_at(&mut buf[..count], u64::from(at))?;
        Ok(Some(count as u32))
    }

    /// Writes a file that isn't there yet, whole, and waits until its bytes last. The folder is made where it isn't there.
    pub(crate) fn create(&self, path: &str, bytes: &[u8]) -> io::Result<()> {
        let mut file = match self.new_file(path) {
            Err(why) if why.kind() == ErrorKind::NotFound => {
                self.make_folder()?;
                self.new_file(path)?
            }
            opened => opened?,
        };
        file.write_all(bytes)?;
        file.sync_all()
    }

    fn new_file(&self, path: &str) -> io::Result<File> {
        OpenOptions::new()
            .write(true)
            .create_new(true)
            .open(&self.files, path)
    }

    /// Makes the folder, unless another drive did in the meantime, and waits until its name lasts.
    fn make_folder(&self) -> io::Result<()> {
        match fs::create_dir(&self.files, self.folder.as_str()) {
            Err(why) if why.kind() != ErrorKind::AlreadyExists => Err(why),
            _ => File::open(&self.files, parent_of(self.folder.as_str()))?.sync_all(),
        }
    }

    /// Waits until the names in the folder last, if it is there.
    pub(crate) fn sync(&self) -> io::Result<()> {
        match File::open(&self.files, self.folder.as_str()) {
            Ok(folder) => folder.sync_all(),
            Err(why) if why.kind() == ErrorKind::NotFound => Ok(()),
            Err(why) => Err(why),
        }
    }
}

/// The folder that a path leads into.
fn parent_of(path: &str) -> &str {
    match Path::new(path).parent() {
        Some(folder) if !folder.as_str().is_empty() => folder.as_str(),
        _ => ".",
    }
}
