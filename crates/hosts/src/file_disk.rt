//! A file as a disk.
ghost use Rattle.std.specs.Prelude.{◌≡◌, ◌+◌, ◌<◌, ◌^◌, ℕ, List, length, is_ok, IfOk, OnOk};
ghost use Rattle.disk_model.specs.Images.{part, IsWritten, Follows};
ghost use Rattle.disk_model.specs.Calls.{HasCause};
ghost use Rattle.hosts.specs.Files.{Fits};
ghost use Rattle.hosts.specs.FileCalls.{HasLength, Stays, Frees};

use crate::positioned::PositionedFile;
use disk_model::{Disk, Failed};
use std::fs::File;
use std::io;
use std::io::ErrorKind;
use std::marker::Model;

/// A file as a disk, as long as the file was when it was opened. Each error of the file is a fault. It tells what the file
/// tells.
#[derive(Drop)]
pub struct FileDisk<F: PositionedFile> {
    file: F,
    len: u64,
    faults: u64,
}

impl<F: PositionedFile> Model for FileDisk<F> {
    ghost use Rattle.hosts.specs.Files.{FileSeen};
    ghost use Rattle.hosts.specs.FileCalls.{HasLength};

    ghost Value = { FileSeen F };

    ghost view = { λ d. record { file = d.file; len = d.len; faults = d.faults } };

    ghost invariant = { λ d. HasLength F.PositionedFile d.len d.file };
}

impl<F: PositionedFile> FileDisk<F> {
    /// The file as it is, which nobody else has.
    pub fn open(file: F) -> io::Result<FileDisk<F>>
        ensures file { IfOk result (λ d. (d.file ≡ file) × (d.faults ≡ 0)) }
        ensures ours { IfOk result (λ d. F.is_ours d.file) }
        ensures length { IfOk result (λ d. HasLength F.PositionedFile d.len d.file) }
    {
        file.lock_alone()?;
        let len = file.len()?;
        Ok(FileDisk {
            file,
            len,
            faults: 0,
        })
    }

    /// The file behind it.
    pub fn file(&self) -> &F
        ensures { result.now ≡ self.now.file }
    {
        &self.file
    }
}

impl FileDisk<File> {
    /// Zeros that take no room, in place of all that the file held.
    pub(crate) fn empty(&mut self, len: u64) -> io::Result<()>
        ensures length { OnOk result (self.new.len ≡ len) }
        ensures faults { self.new.faults ≡ self.old.faults }
    {
        self.file.set_len(0)?;
        self.file.set_len(len)?;
        self.len = len;
        Ok(())
    }
}

impl<F: PositionedFile> Disk for FileDisk<F> {
    ghost use Rattle.hosts.specs.Files.{OfLength};

    ghost gives = { λ d. OfLength d.len (F.gives d.file) };

    ghost content = { λ d. F.content d.file };

    ghost may_leave = { λ d. OfLength d.len (F.may_leave d.file) };

    ghost moment = { λ d. F.moment d.file };

    ghost left_since = { λ d t. OfLength d.len (F.left_since d.file t) };

    ghost length_of = { λ d. d.len };

    ghost fault_count = { λ d. d.faults };

    ghost counts_now = { λ d t c le left. (F.counts_now d.file t c le left.0, left.1) };

    ghost only_now = { λ d c left. (F.only_now d.file c left.0, left.1) };

    ghost one_content = { λ d c given. F.one_content d.file c given.0 };

    ghost given_length = { λ d c given. given.1 };

    ghost left_length = { λ d c left. left.1 };

    fn len(&self) -> u64 {
        self.len
    }

    fn faults(&self) -> u64 {
        self.faults
    }

    fn read(&mut self, at: u64, buf: &mut [u8]) -> Result<(), Failed> {
        let _len = self.len;
        let done = read_whole(&mut self.file, at, buf);
        counted(done, &mut self.faults)
    }

    fn write(&mut self, at: u64, bytes: &[u8]) -> Result<(), Failed> {
        let _len = self.len;
        let done = write_whole(&mut self.file, at, bytes);
        counted(done, &mut self.faults)
    }

    fn sync(&mut self) -> Result<(), Failed> {
        let done = self.file.sync();
        counted(done, &mut self.faults)
    }
}

// Fills the buffer, in as many calls as it takes.
fn read_whole<F: PositionedFile>(file: &mut F, at: u64, buf: &mut [u8]) -> io::Result<()>
    requires room { at + length buf.old < 2 ^ 64 }
    requires fits { Fits at (length buf.old) (F.gives file.old) }
    ensures bytes { OnOk result ((c : List ℕ) → F.gives file.old c → buf.new ≡ part c at (length buf.old)) }
    ensures stays { Stays F.PositionedFile file.old file.new }
{
    let mut done = 0;
    'calls: for _ in 0..u64::MAX {
        if done == buf.len() {
            return Ok(());
        }
        match file.read_some(at + done as u64, &mut buf[done..]) {
            Ok(0) => return Err(io::Error::from(ErrorKind::UnexpectedEof)),
            Ok(count) => done += count,
            Err(why) if why.kind() == ErrorKind::Interrupted => {}
            Err(why) => return Err(why),
        }
    }
    Err(io::Error::from(ErrorKind::Interrupted))
}

// Writes all the bytes, in as many calls as it takes.
fn write_whole<F: PositionedFile>(file: &mut F, at: u64, bytes: &[u8]) -> io::Result<()>
    requires room { at + length bytes.now < 2 ^ 64 }
    requires fits { Fits at (length bytes.now) (F.gives file.old) }
    ensures written { OnOk result (Follows (IsWritten at bytes.now) (F.gives file.old) (F.gives file.new)) }
    ensures frees { Frees F.PositionedFile at (length bytes.now) file.old file.new }
{
    let mut done = 0;
    'calls: for _ in 0..u64::MAX {
        if done == bytes.len() {
            return Ok(());
        }
        match file.write_some(at + done as u64, &bytes[done..]) {
            Ok(0) => return Err(io::Error::from(ErrorKind::WriteZero)),
            Ok(count) => done += count,
            Err(why) if why.kind() == ErrorKind::Interrupted => {}
            Err(why) => return Err(why),
        }
    }
    Err(io::Error::from(ErrorKind::Interrupted))
}

// Counts a fault where the file gave an error.
fn counted(done: io::Result<()>, faults: &mut u64) -> Result<(), Failed>
    ensures answer { is_ok result ≡ is_ok done }
    ensures cause { HasCause result faults.old faults.new }
    ensures ok { OnOk result (faults.new ≡ faults.old) }
{
    match done {
        Ok(()) => Ok(()),
        Err(_) => {
            *faults = faults.saturating_add(1);
            Err(Failed)
        }
    }
}
