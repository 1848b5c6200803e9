//! A drive over the files of a folder.
ghost use Rattle.std.specs.Prelude.{◌≡◌, ◌<◌, ◌≤◌, ◌%◌, true, IfOk, length};
ghost use Rattle.disk_model.specs.Calls.{raised};
ghost use Rattle.media_model.specs.declared.drive.DriveRefusal.TheVariants.{Failed};
ghost use Rattle.folder_drive.specs.Folders.{has_volume};

use crate::object_files::ObjectFiles;
use media_model::{Drive, DriveRefusal};
use std::alloc::{AllocError, Global};
use std::fs::File;
use std::io;
use std::io::ErrorKind;
use std::marker::Model;
use std::rt::Files;

/// How many objects a volume has, and how many bytes these have together.
#[derive(Clone, Copy)]
struct Tally {
    objects: u32,
    bytes: u64,
}

impl Tally {
    /// With one object more of so many bytes, or none where there is no number for another one.
    fn with(self, len: u64) -> Option<Tally> {
        Some(Tally {
            objects: self.objects.checked_add(1)?,
            bytes: self.bytes.saturating_add(len),
        })
    }
}

/// A folder as one of several drives that share it. Volume v is in the drive v mod `drives`, and its object o is the file `v.o` of the folder, both numbers
/// in decimal. The objects of a volume are those from 0 up to the first that isn't there; files with other names are left alone and never counted. A folder
/// that isn't there has no objects, and the first append makes it, though not the folder that it is to be in. An append writes a new file whole and syncs
/// it; `sync` syncs the folder. Each error of the system is a fault, also what is in an object's place and is no file. Nobody else is to change the
/// objects: the drive counts those of a volume once, at its first append or `objects`, by one look at each. Of what the files hold it tells nothing.
#[derive(Drop)]
pub struct FolderDrive<R> {
    objects: ObjectFiles<R>,
    number: u32,
    drives: u32,
    /// In bytes.
    capacity: u64,
    /// What each volume has, that of volume v at v, as far as it was counted.
    tallies: Vec<Option<Tally>>,
    faults: u64,
}

impl<R> Model for FolderDrive<R> {
    ghost use Rattle.std.specs.Prelude.{length, ◌<◌};
    ghost use Rattle.folder_drive.specs.Folders.{Folder};

    ghost Value = { Folder };

    ghost view = { λ d. record { number = d.number; drives = d.drives; volumes = length d.tallies.items; capacity = d.capacity; faults = d.faults } };

    ghost invariant = { λ d. d.number < d.drives };
}

impl<R: Files<File = File> + Drop> FolderDrive<R> {
    /// The drive of that number, from 0, of so many which share the folder. The volumes are those of all drives together, and the objects of each may have
    /// so many bytes. The folder isn't looked at.
    pub fn new(
        alloc: Global,
        files: R,
        folder: &str,
        number: u32,
        drives: u32,
        volumes: u32,
        capacity: u64,
    ) -> Result<FolderDrive<R>, AllocError>
        requires { number < drives }
        ensures { IfOk result (λ d. d ≡ record { number = number; drives = drives; volumes = volumes; capacity = capacity; faults = 0 }) }
    {
        let tallies = vec![in alloc; None; volumes as usize]?;
        let folder = String::from_str(alloc, folder)?;
        Ok(FolderDrive {
            objects: ObjectFiles::new(alloc, files, folder),
            number,
            drives,
            capacity,
            tallies,
            faults: 0,
        })
    }

    /// Whether the drive has the volume.
    fn has(&self, volume: u32) -> bool
        ensures { result ≡ has_volume self.now volume }
    {
        (volume as usize) < self.tallies.len() && volume % self.drives == self.number
    }

    /// What the volume has, which is counted where it wasn't yet.
    fn tally(&mut self, volume: u32) -> io::Result<Tally>
        requires { has_volume self.old volume ≡ true }
        ensures { self.new ≡ self.old }
    {
        let place = volume as usize;
        if let Some(tally) = self.tallies[place] {
            return Ok(tally);
        }
        let tally = count(&self.objects, volume)?;
        self.tallies[place] = Some(tally);
        Ok(tally)
    }

    /// Writes the bytes behind the objects of the volume. Where that fails they may be there in part, so the volume is counted again.
    fn put(&mut self, volume: u32, tally: Tally, path: &str, bytes: &[u8]) -> io::Result<()>
        requires { has_volume self.old volume ≡ true }
        ensures { self.new ≡ self.old }
    {
        let place = volume as usize;
        self.tallies[place] = None;
        self.objects.create(path, bytes)?;
        self.tallies[place] = tally.with(bytes.len() as u64);
        Ok(())
    }

    /// Counts a fault.
    fn failed(&mut self) -> DriveRefusal
        ensures refusal { result ≡ Failed }
        ensures count { self.new ≡ record self.old { faults = raised self.old.faults } }
        ensures rises { self.old.faults ≤ raised self.old.faults }
    {
        self.faults = self.faults.saturating_add(1);
        DriveRefusal::Failed
    }
}

impl<R: Files<File = File> + Drop> Drive for FolderDrive<R> {
    ghost use Rattle.std.specs.Prelude.{false, []};
    ghost use Rattle.std.proofs.lemmas.Bool.{false≢true};
    ghost use Rattle.folder_drive.specs.Folders.{has_volume};

    ghost has = { has_volume };

    ghost gives = { λ d v o. ⊥ };

    ghost content = { λ d v. [] };

    ghost lasting = { λ d v. 0 };

    ghost capacity_of = { λ d. d.capacity };

    ghost fault_count = { λ d. d.faults };

    ghost sure = { false };

    ghost given_there = { λ d v o given. absurd given };

    ghost one_content = { λ d v o given. absurd given };

    ghost sure_counts = { λ is d. absurd (false≢true is) };

    ghost sure_tells = { λ is d v there. absurd (false≢true is) };

    fn faults(&self) -> u64 {
        self.faults
    }

    fn append(&mut self, volume: u32, bytes: &[u8]) -> Result<u32, DriveRefusal> {
        if !self.has(volume) {
            return Err(DriveRefusal::NoVolume);
        }
        let (len, capacity) = (bytes.len() as u64, self.capacity);
        let tally = match self.tally(volume) {
            Ok(tally) => tally,
            Err(why) if why.kind() == ErrorKind::OutOfMemory => return Err(DriveRefusal::Memory),
            Err(_) => return Err(self.failed()),
        };
        if tally.bytes.saturating_add(len) > capacity {
            return Err(DriveRefusal::Full {
                used: tally.bytes,
                len,
                capacity,
            });
        }
        let path = self.objects.path_of(volume, tally.objects)?;
        match self.put(volume, tally, path.as_str(), bytes) {
            Ok(()) => Ok(tally.objects),
            Err(_) => Err(self.failed()),
        }
    }

    fn size(&mut self, volume: u32, object: u32) -> Result<u32, DriveRefusal> {
        if !self.has(volume) {
            return Err(DriveRefusal::NoVolume);
        }
        match self.objects.len(volume, object) {
            Ok(found) => found.ok_or(DriveRefusal::NoObject),
            Err(_) => Err(self.failed()),
        }
    }

    fn read(
        &mut self,
        volume: u32,
        object: u32,
        at: u32,
        buf: &mut [u8],
    ) -> Result<u32, DriveRefusal> {
        if !self.has(volume) {
            return Err(DriveRefusal::NoVolume);
        }
        match self.objects.read(volume, object, at, buf) {
            Ok(Some(count)) => Ok(count),
            Ok(None) => Err(DriveRefusal::NoObject),
            Err(_) => Err(self.failed()),
        }
    }

    fn sync(&mut self, volume: u32) -> Result<(), DriveRefusal> {
        if !self.has(volume) {
            return Err(DriveRefusal::NoVolume);
        }
        match self.objects.sync() {
            Ok(()) => Ok(()),
            Err(_) => Err(self.failed()),
        }
    }

    fn objects(&mut self, volume: u32) -> Result<u32, DriveRefusal> {
        if !self.has(volume) {
            return Err(DriveRefusal::NoVolume);
        }
        match self.tally(volume) {
            Ok(tally) => Ok(tally.objects),
            Err(_) => Err(self.failed()),
        }
    }
}

/// Counts the objects of a volume, up to the first that isn't there.
fn count<R: Files<File = File> + Drop>(objects: &ObjectFiles<R>, volume: u32) -> io::Result<Tally> {
    let mut bytes: u64 = 0;
    for object in 0..u32::MAX {
        match objects.len(volume, object)? {
            Some(len) => bytes = bytes.saturating_add(u64::from(len)),
            None => {
                return Ok(Tally {
                    objects: object,
                    bytes,
                });
            }
        }
    }
    Err(io::Error::from(ErrorKind::InvalidData))
}
