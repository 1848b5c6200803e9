//! Drives that share volumes: volume v is in the drive v mod their number.
ghost use Rattle.std.specs.Prelude.{◌≡◌, ◌<◌, ◌≤◌, ℕ, map, length, nat_eq, IfOk};
ghost use Rattle.std.specs.List.{list_any};
ghost use Rattle.media_model.specs.Sharing.{is_shared, never_failing, AreNew, have_room, has_shared, have_volumes, share_only};

use crate::{MemDrive, SureDrive};
use std::alloc::{AllocError, Global};

/// The volumes of the drive of that number, from 0, of so many that share the volumes below `volumes`.
pub fn volumes_of(
    alloc: Global,
    number: u32,
    drives: u32,
    volumes: u32,
) -> Result<Vec<u32>, AllocError>
    requires { 0 < drives }
    ensures { IfOk result (λ vs. (v : ℕ) → list_any (nat_eq v) vs.items ≡ is_shared number drives volumes v) }
{
    let mut shared = Vec::new(alloc);
    for volume in 0..volumes {
        if volume % drives == number {
            shared.push(volume)?;
        }
    }
    Ok(shared)
}

/// So many drives in memory that share the volumes below `volumes`, without objects. Each volume may have so many bytes.
pub fn mem_drives(
    alloc: Global,
    drives: u32,
    volumes: u32,
    capacity: u64,
) -> Result<Vec<MemDrive>, AllocError>
    ensures { IfOk result (λ ds. AreNew drives volumes capacity ds.items) }
{
    let mut all = Vec::new(alloc);
    for number in 0..drives {
        let shared = volumes_of(alloc, number, drives, volumes)?;
        all.push(MemDrive::new(alloc, &shared, capacity, &[])?)?;
    }
    Ok(all)
}

/// So many drives in memory that never fail, and share the volumes below `volumes`, without objects. Each volume may have so many bytes.
pub fn sure_drives(
    alloc: Global,
    drives: u32,
    volumes: u32,
    capacity: u64,
) -> Result<Vec<SureDrive>, AllocError>
    ensures { IfOk result (λ ds. AreNew drives volumes capacity (map never_failing ds.items)) }
{
    let mut all = Vec::new(alloc);
    for number in 0..drives {
        let shared = volumes_of(alloc, number, drives, volumes)?;
        all.push(SureDrive::new(alloc, &shared, capacity)?)?;
    }
    Ok(all)
}

/// Whether the volumes of each of the drives may have so many bytes.
pub fn have_room(drives: &[MemDrive], capacity: u64) -> bool
    ensures { result ≡ have_room drives.now capacity }
{
    drives.iter().all(|drive| drive.capacity() == capacity)
}

/// Whether each volume below `volumes` is in the drive of its number mod that of the drives.
pub fn have_volumes(drives: &[MemDrive], volumes: u32) -> bool
    ensures { result ≡ have_volumes drives.now volumes }
{
    let mut has_all = true;
    for volume in 0..volumes {
        has_all = has_all && has_shared(drives, volume);
    }
    has_all
}

fn has_shared(drives: &[MemDrive], volume: u32) -> bool
    ensures { result ≡ has_shared drives.now volume }
{
    if drives.is_empty() {
        return false;
    }
    drives[volume as usize % drives.len()].has(volume)
}

/// Whether each volume of the drives is below `volumes`, and in the drive of its number mod that of the drives.
pub fn share_only(drives: &[MemDrive], volumes: u32) -> bool
    ensures { result ≡ share_only drives.now volumes }
{
    let mut has_no_other = true;
    for number in 0..drives.len() {
        has_no_other = has_no_other && drives[number].shares_only(number, drives.len(), volumes);
    }
    has_no_other
}
