//! A file in memory.
ghost use Rattle.std.specs.Prelude.{◌≡◌};

use crate::positioned::PositionedFile;
use disk_model::{Disk, Failed, MemDisk};
use std::io;
use std::marker::Model;

/// A file in memory that tells what it holds, which is what a disk in memory does. A call moves at most so many bytes, and
/// fails where that disk fails.
#[derive(Drop)]
pub struct MemFile {
    disk: MemDisk,
    most: usize,
    is_free: bool,
}

impl Model for MemFile {
    ghost use Rattle.hosts.specs.Files.{MemFileSeen};

    ghost Value = { MemFileSeen };

    ghost view = { λ f. record { disk = f.disk; most = f.most; is_free = f.is_free } };
}

impl MemFile {
    /// A file with the disk's bytes. Its lock can be taken where it is free.
    pub fn new(disk: MemDisk, most: usize, is_free: bool) -> MemFile
        ensures { result ≡ record { disk = disk; most = most; is_free = is_free } }
    {
        MemFile {
            disk,
            most,
            is_free,
        }
    }

    /// What it holds, and its calls.
    pub fn disk(&self) -> &MemDisk
        ensures { result.now ≡ self.now.disk }
    {
        &self.disk
    }
}

impl PositionedFile for MemFile {
    ghost use Rattle.std.specs.Prelude.{◌≡◌, true, length};
    ghost use Rattle.disk_model.specs.Medium.{medium_of, IsGiven, MayLeave, LeftSince, left_now, now_left};

    ghost gives = { λ f. IsGiven f.disk };

    ghost content = { λ f. (medium_of f.disk).now };

    ghost may_leave = { λ f. MayLeave f.disk };

    ghost moment = { λ f. length f.disk.calls };

    ghost left_since = { λ f t c. LeftSince f.disk.first f.disk.calls t c };

    ghost is_ours = { λ f. f.is_free ≡ true };

    ghost counts_now = { λ f t c le left. left_now f.disk.first f.disk.calls t c le left };

    ghost only_now = { λ f c left. now_left f.disk.first f.disk.calls c left };

    ghost one_content = { λ f c given. given };

    fn lock_alone(&self) -> io::Result<()> {
        if self.is_free {
            Ok(())
        } else {
            Err(io::Error::from(io::ErrorKind::WouldBlock))
        }
    }

    fn len(&self) -> io::Result<u64> {
        Ok(self.disk.len())
    }

    fn read_some(&mut self, at: u64, buf: &mut [u8]) -> io::Result<usize> {
        let count = buf.len().min(self.most);
        match self.disk.read(at, &mut buf[..count]) {
            Ok(()) => Ok(count),
            Err(Failed) => Err(io::Error::from(io::ErrorKind::Other)),
        }
    }

    fn write_some(&mut self, at: u64, bytes: &[u8]) -> io::Result<usize> {
        let count = bytes.len().min(self.most);
        match self.disk.write(at, &bytes[..count]) {
            Ok(()) => Ok(count),
            Err(Failed) => Err(io::Error::from(io::ErrorKind::Other)),
        }
    }

    fn sync(&mut self) -> io::Result<()> {
        match self.disk.sync() {
            Ok(()) => Ok(()),
            Err(Failed) => Err(io::Error::from(io::ErrorKind::Other)),
        }
    }
}
