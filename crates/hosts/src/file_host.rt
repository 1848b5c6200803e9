//! Files of the system by their paths, as disks, and folders, as drives. What they hold is trusted to be what was written to them, and no contract
//! speaks of it.
ghost use Rattle.std.specs.Prelude.{◌≡◌, ◌≤◌, IfOk};
ghost use Rattle.disk_model.specs.Calls.{raised};
ghost use Rattle.hosts.specs.Files.{AreShared};

use crate::file_disk::FileDisk;
use crate::outside::{Host, HostRefusal, fault};
use folder_drive::FolderDrive;
use std::alloc::Global;
use std::fs::{File, OpenOptions};
use std::io;
use std::marker::Model;
use std::path::Path;
use std::rt::Files;

/// Files by their paths, as disks, and folders, as drives. A folder, a path where nothing is, a file that may not be read and written, and one that
/// another run has are no disks: asking for these is a fault, and they stay as they were. A path where nothing is has no objects, and a folder is made of
/// it by the first append; what can't be read, and what is no folder, is a fault. It doesn't tell what files and folders hold.
#[derive(Drop)]
pub struct FileHost<R> {
    alloc: Global,
    files: R,
    makes: u64,
    openings: u64,
    askings: u64,
    faults: u64,
}

impl<R> Model for FileHost<R> {
    ghost use Rattle.hosts.specs.Files.{HostSeen};

    ghost Value = { HostSeen };

    ghost view = { λ h. record { makes = h.makes; openings = h.openings; askings = h.askings; faults = h.faults } };
}

impl<R: Files<File = File>> FileHost<R> {
    /// No call and no fault so far.
    pub fn new(alloc: Global, files: R) -> FileHost<R>
        ensures { result ≡ record { makes = 0; openings = 0; askings = 0; faults = 0 } }
    {
        FileHost {
            alloc,
            files,
            makes: 0,
            openings: 0,
            askings: 0,
            faults: 0,
        }
    }
}

impl<R: Files<File = File> + Copy + Drop + Send> Host for FileHost<R> {
    type Disk = FileDisk<File>;

    type Drive = FolderDrive<R>;

    ghost holds = { λ h name c. ⊥ };

    ghost stores = { λ h name v o. ⊥ };

    ghost fault_count = { λ h. h.faults };

    ghost make_count = { λ h. h.makes };

    ghost open_count = { λ h. h.openings };

    ghost drive_count = { λ h. h.askings };

    fn faults(&self) -> u64 {
        self.faults
    }

    fn make(&mut self, path: &str, len: u64) -> Result<FileDisk<File>, HostRefusal> {
        self.makes = self.makes.saturating_add(1);
        match create_file(&self.files, path, len) {
            Ok(disk) => Ok(disk),
            Err(why) => Err(refusal(&why, &mut self.faults)),
        }
    }

    fn disk(&mut self, path: &str) -> Result<FileDisk<File>, HostRefusal> {
        self.openings = self.openings.saturating_add(1);
        match open_file(&self.files, path) {
            Ok(disk) => Ok(disk),
            Err(why) => Err(refusal(&why, &mut self.faults)),
        }
    }

    fn drives(
        &mut self,
        dir: &str,
        drives: u32,
        volumes: u32,
        capacity: u64,
    ) -> Result<Vec<FolderDrive<R>>, HostRefusal> {
        self.askings = self.askings.saturating_add(1);
        match open_drives(self.alloc, self.files, dir, drives, volumes, capacity) {
            Ok(drives) => Ok(drives),
            Err(why) => Err(refusal(&why, &mut self.faults)),
        }
    }
}

// A file of zeros, in place of what was there. Its name is on the disk before it is used.
fn create_file<R: Files<File = File>>(files: &R, path: &str, len: u64) -> io::Result<FileDisk<File>>
    ensures { IfOk result (λ d. (d.len ≡ len) × (d.faults ≡ 0)) }
{
    let folder = OpenOptions::new().read(true).open(files, folder_of(path))?;
    let file = OpenOptions::new()
        .read(true)
        .write(true)
        .create(true)
        .open(files, path)?;
    let mut disk = FileDisk::open(file)?;
    disk.empty(len)?;
    folder.sync_all()?;
    Ok(disk)
}

// The folder that a path leads into.
fn folder_of(path: &str) -> &str {
    match Path::new(path).parent() {
        Some(folder) if !folder.as_str().is_empty() => folder.as_str(),
        _ => ".",
    }
}

// The file that is there.
fn open_file<R: Files<File = File>>(files: &R, path: &str) -> io::Result<FileDisk<File>>
    ensures { IfOk result (λ d. d.faults ≡ 0) }
{
    let file = OpenOptions::new().read(true).write(true).open(files, path)?;
    FileDisk::open(file)
}

// So many drives that share the volumes of a folder.
fn open_drives<R: Files<File = File> + Copy + Drop>(
    alloc: Global,
    files: R,
    dir: &str,
    drives: u32,
    volumes: u32,
    capacity: u64,
) -> io::Result<Vec<FolderDrive<R>>>
    ensures { IfOk result (λ ds. AreShared drives volumes capacity ds.items) }
{
    check_folder(&files, dir)?;
    let mut all = Vec::new(alloc);
    for number in 0..drives {
        let drive = FolderDrive::new(alloc, files, dir, number, drives, volumes, capacity)?;
        all.push(drive)?;
    }
    Ok(all)
}

// Whether the path is a folder that can be read, or nothing.
fn check_folder<R: Files<File = File>>(files: &R, dir: &str) -> io::Result<()> {
    match File::open(files, dir) {
        Ok(found) if found.metadata()?.is_dir() => Ok(()),
        Ok(_) => Err(io::Error::from(io::ErrorKind::NotADirectory)),
        Err(why) if why.kind() == io::ErrorKind::NotFound => Ok(()),
        Err(why) => Err(why),
    }
}

// Counts a fault, unless it was memory that ran out.
fn refusal(why: &io::Error, faults: &mut u64) -> HostRefusal
    ensures never_falls { faults.old ≤ faults.new }
    ensures failed { result ≡ HostRefusal.Failed → faults.new ≡ raised faults.old }
    ensures memory { result ≡ HostRefusal.Memory → faults.new ≡ faults.old }
{
    match why.kind() {
        io::ErrorKind::OutOfMemory => HostRefusal::Memory,
        _ => fault(faults),
    }
}
