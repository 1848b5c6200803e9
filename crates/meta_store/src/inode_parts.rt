//! What is kept of a store's files beside the table, by inode.
ghost use Rattle.std.specs.Prelude.{◌≡◌, ◌≤◌, ◌-◌, length, slice_set, replicate, IfOk};
ghost use Rattle.snapshot_text.specs.Parts.{no_parts};

use snapshot_text::FileParts;
use std::alloc::{AllocError, Global};

/// Where the parts of the file with that inode are. No file has the inode 0.
pub fn slot(ino: u64) -> usize
    ensures { result ≡ ino - 1 }
{
    ino.saturating_sub(1) as usize
}

/// These are the parts of the file with that inode from now on.
pub fn set_at(slots: &mut Vec<FileParts>, ino: u64, parts: FileParts)
    requires low { 1 ≤ ino }
    requires high { ino ≤ length slots.old.items }
    ensures { slots.new.items ≡ slice_set slots.old.items (ino - 1) parts }
{
    slots[slot(ino)] = parts;
}

/// The parts of so many new files.
pub fn empty(alloc: Global, files: u32) -> Result<Vec<FileParts>, AllocError>
    ensures { IfOk result (λ slots. slots.items ≡ replicate files no_parts) }
{
    let mut slots = Vec::with_capacity(alloc, files as usize)?;
    for _ in 0..files {
        slots.push(FileParts::new(alloc))?;
    }
    Ok(slots)
}
