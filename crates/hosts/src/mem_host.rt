//! A host of disks and of folders of volumes in memory, with calls that fail.
ghost use Rattle.std.specs.Prelude.{◌≡◌, ◌↔◌, true, false, None, Some, IfSome, IfOk, OnOk, IfErr, IsTrue, option_map};
ghost use Rattle.std.specs.BTreeMap.{IsUnchanged, Updates};
ghost use Rattle.std.specs.String.{string_cmp};
ghost use Rattle.std.specs.FinMap as map;
ghost use Rattle.hosts.specs.Hosts.{HasHostCause};
ghost use Rattle.media_model.specs.Sharing.{AreNew};
ghost use Rattle.hosts.specs.MemHosts.{IsAtRest, AreUnfailed, at_rest, unfailed, image_at, blank, fit, IsToFail, asked_to_make, asked_for};
ghost use Rattle.hosts.specs.MemHosts.{asked_for_drives, faulted, Makes, Gives, Hands, IsUnfit};

use crate::outside::{Host, HostRefusal, fault};
use disk_model::{FuseDisk, MemDisk};
use hsm_types::ListOf;
use media_model::{MemDrive, have_room, have_volumes, mem_drives, share_only};
use std::alloc::{AllocError, Global};
use std::collections::BTreeMap;
use std::marker::Model;

/// Disks in memory by name, and the drives of each folder by its name. The calls of `make`, `disk` and `drives` are numbered from 0, and those whose
/// numbers are in its list fail. A disk that is made passes all its calls on, unless `fuse_made` says otherwise. A folder whose drives were put back has
/// these; where others are asked for, in number, in volumes or in room, that is a fault, and they stay.
#[derive(Drop)]
pub struct MemHost {
    alloc: Global,
    disks: BTreeMap<String, FuseDisk<MemDisk>>,
    folders: BTreeMap<String, ListOf<MemDrive>>,
    failing: Vec<u64>,
    makes: u64,
    openings: u64,
    askings: u64,
    faults: u64,
    fuse: Option<u64>,
}

impl Model for MemHost {
    ghost use Rattle.disk_model.specs.contracts.memory.MemDisk as disk;
    ghost use Rattle.media_model.specs.contracts.memory.MemDrive as drive;
    ghost use Rattle.hosts.specs.MemHosts.{Hosted, by_name, EachIs, IsAtRest, AreUnfailed};
    ghost use Rattle.hosts.specs.HostCode.{hosted_code};

    ghost Value = { Hosted };

    ghost coded = { hosted_code disk.the_row.coded drive.the_row.coded };

    ghost view = { λ h. record { disks = by_name h.disks; folders = by_name h.folders; failing = h.failing.items; makes = h.makes; openings = h.openings; askings = h.askings; faults = h.faults; fuse = h.fuse } };

    ghost invariant = { λ h. EachIs IsAtRest (by_name h.disks) × EachIs AreUnfailed (by_name h.folders) };
}

impl MemHost {
    /// A host without disks and folders. The calls with these numbers will fail.
    pub fn new(alloc: Global, failing: Vec<u64>) -> MemHost
        ensures { result ≡ record { disks = map.empty; folders = map.empty; failing = failing.items; makes = 0; openings = 0; askings = 0; faults = 0; fuse = None } }
    {
        MemHost {
            alloc,
            disks: BTreeMap::new(alloc),
            folders: BTreeMap::new(alloc),
            failing,
            makes: 0,
            openings: 0,
            askings: 0,
            faults: 0,
            fuse: None,
        }
    }

    /// From now on each disk that is made passes this many calls on, or all.
    pub fn fuse_made(&mut self, calls: Option<u64>)
        ensures { self.new ≡ record self.old { fuse = calls } }
    {
        self.fuse = calls;
    }

    /// What reads give of the disk of that name.
    pub fn image(&self, path: &str) -> Option<&[u8]>
        ensures { option_map (λ image. image.now) result ≡ image_at self.now.disks path.now }
    {
        let disk = self.disks.get(path)?;
        Some(disk.inner().bytes())
    }

    /// Puts a disk back under that name, in place of what it held, as on a machine that went on: what was written is on
    /// the medium, faults and calls are counted anew, and its fuse and its failing calls stay. Where there is no memory for
    /// the name, the disk comes back as it was.
    pub fn put_disk(
        &mut self,
        path: &str,
        disk: FuseDisk<MemDisk>,
    ) -> Result<(), (AllocError, FuseDisk<MemDisk>)>
        ensures put { OnOk result (self.new ≡ record self.old { disks = map.insert self.old.disks path.now (at_rest disk) }) }
        ensures refused { IfErr result (λ e. (e.1 ≡ disk) × (self.new ≡ self.old)) }
    {
        let Ok(name) = String::from_str(self.alloc, path) else {
            return Err((AllocError, disk));
        };
        put(&mut self.disks, name, disk)
    }

    /// Puts drives back as those of that folder, in place of what it held, with their counts of faults at 0. Where there is no memory for the name, the
    /// drives come back as they were.
    pub fn put_drives(
        &mut self,
        dir: &str,
        drives: ListOf<MemDrive>,
    ) -> Result<(), (AllocError, ListOf<MemDrive>)>
        ensures put { OnOk result (self.new ≡ record self.old { folders = map.insert self.old.folders dir.now (unfailed drives) }) }
        ensures refused { IfErr result (λ e. (e.1 ≡ drives) × (self.new ≡ self.old)) }
    {
        let Ok(name) = String::from_str(self.alloc, dir) else {
            return Err((AllocError, drives));
        };
        put_folder(&mut self.folders, name, drives)
    }

    // Whether the next call is to fail.
    fn is_to_fail(&self) -> bool
        ensures { IsTrue result ↔ IsToFail self.now }
    {
        let calls = self.makes.saturating_add(self.openings);
        self.failing.contains(&calls.saturating_add(self.askings))
    }

    // Counts a call of `make`, which fails if its number is listed.
    fn begin_making(&mut self) -> Result<(), HostRefusal>
        ensures ok { OnOk result (¬ (IsToFail self.old) × (self.new ≡ asked_to_make self.old)) }
        ensures err { IfErr result (λ e. (e ≡ HostRefusal.Failed) × IsToFail self.old × (self.new ≡ faulted (asked_to_make self.old))) }
        ensures cause { HasHostCause result self.old.faults self.new.faults }
    {
        let fails = self.is_to_fail();
        self.makes = self.makes.saturating_add(1);
        if fails {
            return Err(fault(&mut self.faults));
        }
        Ok(())
    }

    // Counts a call of `disk`, which fails if its number is listed.
    fn begin_opening(&mut self) -> Result<(), HostRefusal>
        ensures ok { OnOk result (¬ (IsToFail self.old) × (self.new ≡ asked_for self.old)) }
        ensures err { IfErr result (λ e. (e ≡ HostRefusal.Failed) × IsToFail self.old × (self.new ≡ faulted (asked_for self.old))) }
        ensures cause { HasHostCause result self.old.faults self.new.faults }
    {
        let fails = self.is_to_fail();
        self.openings = self.openings.saturating_add(1);
        if fails {
            return Err(fault(&mut self.faults));
        }
        Ok(())
    }

    // Counts a call of `drives`, which fails if its number is listed.
    fn begin_handing(&mut self) -> Result<(), HostRefusal>
        ensures ok { OnOk result (¬ (IsToFail self.old) × (self.new ≡ asked_for_drives self.old)) }
        ensures err { IfErr result (λ e. (e ≡ HostRefusal.Failed) × IsToFail self.old × (self.new ≡ faulted (asked_for_drives self.old))) }
        ensures cause { HasHostCause result self.old.faults self.new.faults }
    {
        let fails = self.is_to_fail();
        self.askings = self.askings.saturating_add(1);
        if fails {
            return Err(fault(&mut self.faults));
        }
        Ok(())
    }

    // `make`, with what it answers and leaves.
    fn make_blank(&mut self, path: &str, len: u64) -> Result<FuseDisk<MemDisk>, HostRefusal>
        ensures makes { Makes path.now len self.old self.new result }
        ensures at_rest { IfOk result IsAtRest }
        ensures cause { HasHostCause result self.old.faults self.new.faults }
    {
        self.begin_making()?;
        let Ok(disk) = zeros(self.alloc, len, self.fuse) else {
            return Err(HostRefusal::Memory);
        };
        self.disks.remove(path);
        Ok(disk)
    }

    // `disk`, with what it answers and leaves.
    fn take(&mut self, path: &str) -> Result<FuseDisk<MemDisk>, HostRefusal>
        ensures gives { Gives path.now self.old self.new result }
        ensures at_rest { IfOk result IsAtRest }
        ensures cause { HasHostCause result self.old.faults self.new.faults }
    {
        self.begin_opening()?;
        match self.disks.remove(path) {
            Some(disk) => Ok(disk),
            None => Err(fault(&mut self.faults)),
        }
    }

    // `drives`, with what it answers and leaves.
    fn hand(
        &mut self,
        dir: &str,
        drives: u32,
        volumes: u32,
        capacity: u64,
    ) -> Result<ListOf<MemDrive>, HostRefusal>
        ensures hands { Hands dir.now drives volumes capacity self.old self.new result }
        ensures unfailed { IfOk result AreUnfailed }
        ensures cause { HasHostCause result self.old.faults self.new.faults }
    {
        self.begin_handing()?;
        if !self.has_fit(dir, drives, volumes, capacity) {
            return Err(fault(&mut self.faults));
        }
        if let Some(held) = self.folders.remove(dir) {
            return Ok(held);
        }
        new_drives(self.alloc, drives, volumes, capacity)
    }

    // Whether the folder isn't there, or has just the drives that are asked for.
    fn has_fit(&self, dir: &str, drives: u32, volumes: u32, capacity: u64) -> bool
        ensures fit { result ≡ true → IfSome (map.get self.now.folders dir.now) (λ held. fit held drives volumes capacity ≡ true) }
        ensures unfit { result ≡ false → IsUnfit (map.get self.now.folders dir.now) drives volumes capacity }
    {
        match self.folders.get(dir) {
            Some(held) => fit(held, drives, volumes, capacity),
            None => true,
        }
    }
}

impl Host for MemHost {
    ghost use Rattle.std.specs.Prelude.{◌≡◌, ℕ, List, Ok, Err, IfOk, IfErr, OnOk, OnErr, length, replicate};
    ghost use Rattle.disk_model.specs.Images.{Within};
    ghost use Rattle.disk_model.specs.Calls.{both_faults, raised};
    ghost use Rattle.disk_model.specs.Medium.{medium_of, IsGiven, MayLeave};
    ghost use Rattle.hosts.specs.Hosts.{HoldsNothing, HoldsOthers, HoldsAll, StoresNothing, StoresOthers, StoresAll, AreHanded, HasHostCause};
    ghost use Rattle.media_model.specs.contracts.memory.MemDriveDrive.TheImpl as drive;
    ghost use Rattle.hosts.specs.MemHosts.{HasImage, HasObjects, Makes, Gives, Hands};

    type Disk = FuseDisk<MemDisk>;

    type Drive = MemDrive;

    ghost holds = { HasImage };

    ghost stores = { HasObjects };

    ghost fault_count = { λ h. h.faults };

    ghost make_count = { λ h. h.makes };

    ghost open_count = { λ h. h.openings };

    ghost drive_count = { λ h. h.askings };

    fn faults(&self) -> u64 {
        self.faults
    }

    fn make(&mut self, path: &str, len: u64) -> Result<FuseDisk<MemDisk>, HostRefusal>
        ensures length { IfOk result (λ d. length (medium_of d.inner).now ≡ len) }
        ensures zeros { IfOk result (λ d. (c : List ℕ) → IsGiven d.inner c → c ≡ replicate len 0) }
        ensures settled { IfOk result (λ d. Within (IsGiven d.inner) (MayLeave d.inner)) }
        ensures counted { IfOk result (λ d. both_faults d.inner.faults d.blown ≡ 0) }
        ensures gone { OnOk result (HoldsNothing (HasImage self.new path.now)) }
        ensures others { HoldsOthers path.now (HasImage self.old) (HasImage self.new) }
        ensures refused { OnErr result (HoldsAll (HasImage self.old) (HasImage self.new)) }
        ensures made { self.new.makes ≡ raised self.old.makes }
        ensures unopened { self.new.openings ≡ self.old.openings }
        ensures undriven { self.new.askings ≡ self.old.askings }
        ensures folders { StoresAll (HasObjects self.old) (HasObjects self.new) }
        ensures cause { HasHostCause result self.old.faults self.new.faults }
        ensures makes { Makes path.now len self.old self.new result }
    {
        self.make_blank(path, len)
    }

    fn disk(&mut self, path: &str) -> Result<FuseDisk<MemDisk>, HostRefusal>
        ensures given { IfOk result (λ d. (c : List ℕ) → HasImage self.old path.now c → IsGiven d.inner c) }
        ensures settled { IfOk result (λ d. Within (IsGiven d.inner) (MayLeave d.inner)) }
        ensures counted { IfOk result (λ d. both_faults d.inner.faults d.blown ≡ 0) }
        ensures gone { OnOk result (HoldsNothing (HasImage self.new path.now)) }
        ensures others { HoldsOthers path.now (HasImage self.old) (HasImage self.new) }
        ensures refused { OnErr result (HoldsAll (HasImage self.old) (HasImage self.new)) }
        ensures opened { self.new.openings ≡ raised self.old.openings }
        ensures unmade { self.new.makes ≡ self.old.makes }
        ensures undriven { self.new.askings ≡ self.old.askings }
        ensures folders { StoresAll (HasObjects self.old) (HasObjects self.new) }
        ensures cause { HasHostCause result self.old.faults self.new.faults }
        ensures gives { Gives path.now self.old self.new result }
    {
        self.take(path)
    }

    fn drives(
        &mut self,
        dir: &str,
        drives: u32,
        volumes: u32,
        capacity: u64,
    ) -> Result<Vec<MemDrive>, HostRefusal>
        ensures given { IfOk result (λ ds. AreHanded drive.ghosts (HasObjects self.old dir.now) drives volumes capacity ds.items) }
        ensures gone { OnOk result (StoresNothing (HasObjects self.new dir.now)) }
        ensures others { StoresOthers dir.now (HasObjects self.old) (HasObjects self.new) }
        ensures refused { OnErr result (StoresAll (HasObjects self.old) (HasObjects self.new)) }
        ensures disks { HoldsAll (HasImage self.old) (HasImage self.new) }
        ensures asked { self.new.askings ≡ raised self.old.askings }
        ensures unmade { self.new.makes ≡ self.old.makes }
        ensures unopened { self.new.openings ≡ self.old.openings }
        ensures cause { HasHostCause result self.old.faults self.new.faults }
        ensures hands { IfOk result (λ ds. Hands dir.now drives volumes capacity self.old self.new (Ok ds.items)) }
        ensures refuses { IfErr result (λ why. Hands dir.now drives volumes capacity self.old self.new (Err why)) }
    {
        Ok(self.hand(dir, drives, volumes, capacity)?.into_vec())
    }
}

// Puts the disk, at rest, under the name. Where there is no memory for the name, the disk comes back as it was.
fn put(
    disks: &mut BTreeMap<String, FuseDisk<MemDisk>>,
    name: String,
    disk: FuseDisk<MemDisk>,
) -> Result<(), (AllocError, FuseDisk<MemDisk>)>
    ensures put { OnOk result (Updates string_cmp disks.old disks.new name (Some (at_rest disk))) }
    ensures at_rest { OnOk result (IsAtRest (at_rest disk)) }
    ensures refused { IfErr result (λ e. (e.1 ≡ disk) × IsUnchanged disks.old disks.new) }
{
    match disks.entry(name) {
        Ok(entry) => {
            entry.insert_entry(settled(disk));
            Ok(())
        }
        Err(_) => Err((AllocError, disk)),
    }
}

// The disk, with all that was written on the medium and no fault counted.
fn settled(disk: FuseDisk<MemDisk>) -> FuseDisk<MemDisk>
    ensures value { result ≡ at_rest disk }
    ensures at_rest { IsAtRest result }
{
    let fuse = disk.fuse();
    let mut inner = disk.into_inner();
    inner.settle();
    fused(inner, fuse)
}

// The disk behind a fuse, or one that passes all calls on.
fn fused(inner: MemDisk, fuse: Option<u64>) -> FuseDisk<MemDisk>
    ensures { result ≡ record { inner = inner; fuse = fuse; blown = 0 } }
{
    let mut disk = FuseDisk::unset(inner);
    disk.set_fuse(fuse);
    disk
}

// A disk of so many zeros behind that fuse.
fn zeros(alloc: Global, len: u64, fuse: Option<u64>) -> Result<FuseDisk<MemDisk>, AllocError>
    ensures value { IfOk result (λ d. d ≡ blank len fuse) }
    ensures at_rest { IfOk result IsAtRest }
{
    let image = vec![in alloc; 0u8; len as usize]?;
    let inner = MemDisk::new(alloc, &image, &[])?;
    Ok(fused(inner, fuse))
}

// Puts the drives, with no fault counted, under the name. Where there is no memory for the name, they come back as they were.
fn put_folder(
    folders: &mut BTreeMap<String, ListOf<MemDrive>>,
    name: String,
    drives: ListOf<MemDrive>,
) -> Result<(), (AllocError, ListOf<MemDrive>)>
    ensures put { OnOk result (Updates string_cmp folders.old folders.new name (Some (unfailed drives))) }
    ensures refused { IfErr result (λ e. (e.1 ≡ drives) × IsUnchanged folders.old folders.new) }
{
    match folders.entry(name) {
        Ok(entry) => {
            entry.insert_entry(settled_drives(drives));
            Ok(())
        }
        Err(_) => Err((AllocError, drives)),
    }
}

// The drives, with no fault counted.
fn settled_drives(drives: ListOf<MemDrive>) -> ListOf<MemDrive>
    ensures { result ≡ unfailed drives }
{
    let mut drives = drives.into_vec();
    settle_drives(&mut drives);
    ListOf::from(drives)
}

fn settle_drives(drives: &mut [MemDrive])
    ensures { drives.new ≡ unfailed drives.old }
{
    for drive in drives.iter_mut() {
        drive.reset_faults();
    }
}

// Whether these are so many drives with just so many volumes, and so much room for each.
fn fit(held: &ListOf<MemDrive>, drives: u32, volumes: u32, capacity: u64) -> bool
    ensures { result ≡ fit held.now drives volumes capacity }
{
    let held = held.as_slice();
    held.len() == drives as usize
        && have_room(held, capacity)
        && have_volumes(held, volumes)
        && share_only(held, volumes)
}

// So many drives without objects.
fn new_drives(
    alloc: Global,
    drives: u32,
    volumes: u32,
    capacity: u64,
) -> Result<ListOf<MemDrive>, HostRefusal>
    ensures new { IfOk result (λ ds. AreNew drives volumes capacity ds) }
    ensures memory { IfErr result (λ why. why ≡ HostRefusal.Memory) }
{
    match mem_drives(alloc, drives, volumes, capacity) {
        Ok(drives) => Ok(ListOf::from(drives)),
        Err(AllocError) => Err(HostRefusal::Memory),
    }
}
