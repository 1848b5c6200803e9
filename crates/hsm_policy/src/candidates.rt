//! The segments of a table that may be picked, and their order.
ghost use Rattle.std.specs.Prelude.{◌≡◌, ◌++◌, IfOk, OnOk};
ghost use Rattle.hsm_policy.specs.Candidates.{candidates, offered, offered_by, rank, InOrder};

use hsm_types::{FileRow, Handle, Segment, Table};
use std::alloc::{AllocError, Global};

/// A segment that may be picked: one with a mapped block.
#[derive(Clone, Copy)]
pub(crate) struct Candidate {
    pub(crate) stamp: u64,
    pub(crate) handle: Handle,
    pub(crate) segment: u32,
    /// How many of its blocks are mapped.
    pub(crate) blocks: u32,
    pub(crate) sealed: bool,
}

impl Candidate {
    /// What candidates are ordered by: stamp, handle, segment.
    fn rank(&self) -> [u64; 5]
        ensures { result ≡ rank self.now }
    {
        let Handle { fsid, key } = self.handle;
        [self.stamp, fsid, key.ino, key.igen, u64::from(self.segment)]
    }
}

/// The candidates of the table in order.
pub(crate) fn in_order(alloc: Global, table: &Table) -> Result<Vec<Candidate>, AllocError>
    ensures { IfOk result (λ sorted. InOrder (candidates table.now) sorted.items) }
{
    let mut found = Vec::with_capacity(alloc, segments(table))?;
    for row in table.files.as_slice() {
        offer(&mut found, row)?;
    }
    found.sort_by_key(Candidate::rank)?;
    Ok(found)
}

/// How many segments the table has.
fn segments(table: &Table) -> usize {
    let mut count: usize = 0;
    for row in table.files.as_slice() {
        count = count.saturating_add(row.segments.as_slice().len());
    }
    count
}

/// Puts the candidates of the file behind those that were found.
fn offer(found: &mut Vec<Candidate>, row: &FileRow) -> Result<(), AllocError>
    ensures { OnOk result (found.new.items ≡ found.old.items ++ offered_by row.now) }
{
    for (number, segment) in row.segments.as_slice().iter().enumerate() {
        if let Some(candidate) = offered(row, number, segment) {
            found.push(candidate)?;
        }
    }
    Ok(())
}

/// The candidate that the file's segment of that number is.
fn offered(row: &FileRow, number: usize, segment: &Segment) -> Option<Candidate>
    ensures { result ≡ offered row.now (number, segment.now) }
{
    let (blocks, sealed) = match segment {
        Segment::Resident { blocks } => (*blocks, false),
        Segment::Sealed { blocks, entry: _ } => (*blocks, true),
        Segment::Offline { entry: _ } => return None,
    };
    if blocks == 0 {
        return None;
    }
    Some(Candidate {
        stamp: row.stamp,
        handle: row.handle,
        segment: u32::try_from(number).ok()?,
        blocks,
        sealed,
    })
}
