//! The stub entries of a table.
ghost use Rattle.std.specs.Prelude.{◌≡◌, ◌++◌, ◌<◌, ◌^◌, IfOk, OnOk};
ghost use Rattle.hsm_types.specs.Stubs.{entry_place};
ghost use Rattle.reconcile.specs.Classes.{entry_of, entries_in, entries_of};
ghost use Rattle.reconcile.specs.Steps.{place, InOrder};

use hsm_types::{FileRow, Segment, StubEntry, Table};
use std::alloc::{AllocError, Global};

/// Where the entry's object stands among those of all volumes.
pub(crate) fn place(entry: &StubEntry) -> u64
    ensures place { result ≡ place entry.now }
    ensures short { (entry_place entry.now).object < 2 ^ 32 }
{
    let place = entry.place();
    u64::from(place.volume) * (1 << 32) + u64::from(place.object)
}

/// The stub entries of all files, in the order of their objects.
pub(crate) fn in_order(alloc: Global, table: &Table) -> Result<Vec<StubEntry>, AllocError>
    ensures { IfOk result (λ sorted. InOrder (entries_of table.now) sorted.items) }
{
    let mut entries = Vec::new(alloc);
    for row in table.files.as_slice() {
        gather(&mut entries, row)?;
    }
    entries.sort_unstable_by_key(place);
    Ok(entries)
}

/// Puts the entries of the file behind those that were gathered.
fn gather(entries: &mut Vec<StubEntry>, row: &FileRow) -> Result<(), AllocError>
    ensures { OnOk result (entries.new.items ≡ entries.old.items ++ entries_in row.now) }
{
    for segment in row.segments.as_slice() {
        if let Some(entry) = entry_of(segment) {
            entries.push(entry)?;
        }
    }
    Ok(())
}

fn entry_of(segment: &Segment) -> Option<StubEntry>
    ensures { result ≡ entry_of segment.now }
{
    match segment {
        Segment::Resident { blocks: _ } => None,
        Segment::Sealed { blocks: _, entry } | Segment::Offline { entry } => Some(*entry),
    }
}
