//! What a session is told of all files.
ghost use Rattle.std.specs.Prelude.{◌≡◌, IfOk};

use crate::keys::Handle;
use crate::lists::{FileRows, Segments};
use std::alloc::{AllocError, Global};

/// A file as a table tells it.
#[derive(Drop)]
pub struct FileRow {
    pub handle: Handle,
    /// In bytes.
    pub size: u64,
    /// The number of the last event that completed a read, write or truncate of it.
    pub stamp: u64,
    pub segments: Segments,
}

/// How many blocks are mapped, and how many there are; and the files in the order of their inodes.
#[derive(Drop)]
pub struct Table {
    pub used: u64,
    pub total: u64,
    pub files: FileRows,
}

impl Clone for FileRow {
    ghost is_clone = { λ r s. s ≡ r };

    fn clone(&self) -> Result<FileRow, AllocError> {
        Ok(FileRow {
            handle: self.handle,
            size: self.size,
            stamp: self.stamp,
            segments: self.segments.clone()?,
        })
    }
}

impl Clone for Table {
    ghost is_clone = { λ t u. u ≡ t };

    fn clone(&self) -> Result<Table, AllocError> {
        Ok(Table {
            used: self.used,
            total: self.total,
            files: copy_rows(self.files.allocator(), self.files.as_slice())?,
        })
    }
}

fn copy_rows(alloc: Global, rows: &[FileRow]) -> Result<FileRows, AllocError>
    ensures { IfOk result (λ copy. copy ≡ rows.now) }
{
    let mut copy = Vec::new(alloc);
    for row in rows {
        copy.push(row.clone()?)?;
    }
    Ok(FileRows::from(copy))
}
