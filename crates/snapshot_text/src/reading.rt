//! Reading a snapshot's bytes.
ghost use Rattle.std.specs.Prelude.{◌≡◌, map, IfOk, IsErrOf};
ghost use Rattle.snapshot_text.specs.Snapshots.{Snapshot, IsSpelled, raw_file, raw_snapshot};
ghost use Rattle.journal_records.specs.Reading.{Gives, both, number_at, bytes_at, several, counted};
ghost use Rattle.snapshot_text.specs.Reading.{key_at, attribute_at, extent_at, stub_in, file_at, snapshot_at};

use crate::fields::{attribute_at, extent_at, key_at, only_u32_at, stub_in};
use crate::snapshot::{FORMAT, Mapping, RawFile, RawSnapshot, ReadRefusal};
use hsm_types::{AttrName, Bytes, FileKey, Stub, Word};
use journal_records::{Unread, name_at, regions_at, u32_at, u64_at};
use std::alloc::Global;

#[tactic(auto, using(journal_records::proofs::ReadValues::read_steps))]
fn attributes_of(
    alloc: Global,
    count: u32,
    bytes: &[u8],
) -> Result<(Vec<(AttrName, Bytes)>, &[u8]), Unread>
    ensures { Gives (λ x. (x.0.items, x.1.now)) result (several attribute_at count bytes.now) }
{
    let mut attributes = Vec::new(alloc);
    let mut rest = bytes;
    for _ in 0..count {
        let (attribute, after) = attribute_at(alloc, rest)?;
        attributes.push(attribute)?;
        rest = after;
    }
    Ok((attributes, rest))
}

#[tactic(auto, using(journal_records::proofs::ReadValues::read_steps))]
fn extents_of(alloc: Global, count: u32, bytes: &[u8]) -> Result<(Vec<Mapping>, &[u8]), Unread>
    ensures { Gives (λ x. (x.0.items, x.1.now)) result (several extent_at count bytes.now) }
{
    let mut extents = Vec::new(alloc);
    let mut rest = bytes;
    for _ in 0..count {
        let (extent, after) = extent_at(rest)?;
        extents.push(extent)?;
        rest = after;
    }
    Ok((extents, rest))
}

#[tactic(auto, using(journal_records::proofs::ReadValues::read_steps))]
fn stubs_of(alloc: Global, count: u32, bytes: &[u8]) -> Result<(Vec<(u32, Stub)>, &[u8]), Unread>
    ensures { Gives (λ x. (x.0.items, x.1.now)) result (several stub_in count bytes.now) }
{
    let mut stubs = Vec::new(alloc);
    let mut rest = bytes;
    for _ in 0..count {
        let (stub, after) = stub_in(rest)?;
        stubs.push(stub)?;
        rest = after;
    }
    Ok((stubs, rest))
}

/// The count of a file's attributes, and the attributes.
#[tactic(auto, unfolding(journal_records::specs::Reading::counted))]
fn attributes_at(alloc: Global, bytes: &[u8]) -> Result<(Vec<(AttrName, Bytes)>, &[u8]), Unread>
    ensures { Gives (λ x. (x.0.items, x.1.now)) result (counted 4 (several attribute_at) bytes.now) }
{
    let (count, rest) = u32_at(bytes)?;
    attributes_of(alloc, count, rest)
}

/// The count of a file's extents, and the extents.
#[tactic(auto, unfolding(journal_records::specs::Reading::counted))]
fn extents_at(alloc: Global, bytes: &[u8]) -> Result<(Vec<Mapping>, &[u8]), Unread>
    ensures { Gives (λ x. (x.0.items, x.1.now)) result (counted 4 (several extent_at) bytes.now) }
{
    let (count, rest) = u32_at(bytes)?;
    extents_of(alloc, count, rest)
}

/// The count of a file's stub entries, and the entries.
#[tactic(auto, unfolding(journal_records::specs::Reading::counted))]
fn stubs_at(alloc: Global, bytes: &[u8]) -> Result<(Vec<(u32, Stub)>, &[u8]), Unread>
    ensures { Gives (λ x. (x.0.items, x.1.now)) result (counted 4 (several stub_in) bytes.now) }
{
    let (count, rest) = u32_at(bytes)?;
    stubs_of(alloc, count, rest)
}

/// A file's key, its size and its name.
#[tactic(auto, unfolding(journal_records::specs::Reading::both))]
fn heading_at(alloc: Global, bytes: &[u8]) -> Result<((FileKey, u64, Word), &[u8]), Unread>
    ensures { Gives (λ x. (((x.0.0, x.0.1), x.0.2), x.1.now)) result (both (both key_at (number_at 8)) (counted 1 bytes_at) bytes.now) }
{
    let (key, rest) = key_at(bytes)?;
    let (size, rest) = u64_at(rest)?;
    let (name, rest) = name_at(alloc, rest)?;
    Ok(((key, size, name), rest))
}

#[tactic(auto, unfolding(journal_records::specs::Reading::both, journal_records::specs::Reading::made, crate::specs::Reading::file_at))]
fn file_at(alloc: Global, bytes: &[u8]) -> Result<(RawFile, &[u8]), Unread>
    ensures { Gives (λ x. (raw_file x.0, x.1.now)) result (file_at bytes.now) }
{
    let ((key, size, name), rest) = heading_at(alloc, bytes)?;
    let (regions, rest) = regions_at(alloc, rest)?;
    let (attributes, rest) = attributes_at(alloc, rest)?;
    let (extents, rest) = extents_at(alloc, rest)?;
    let (stubs, rest) = stubs_at(alloc, rest)?;
    Ok((
        RawFile {
            key,
            size,
            name,
            regions,
            attributes,
            extents,
            stubs,
        },
        rest,
    ))
}

#[tactic(auto, using(journal_records::proofs::ReadValues::read_steps))]
fn files_of(alloc: Global, count: u32, bytes: &[u8]) -> Result<(Vec<RawFile>, &[u8]), Unread>
    ensures { Gives (λ x. (map raw_file x.0.items, x.1.now)) result (several file_at count bytes.now) }
{
    let mut files = Vec::new(alloc);
    let mut rest = bytes;
    for _ in 0..count {
        let (file, after) = file_at(alloc, rest)?;
        files.push(file)?;
        rest = after;
    }
    Ok((files, rest))
}

#[tactic(auto, unfolding(journal_records::specs::Reading::counted, journal_records::specs::Reading::both, journal_records::specs::Reading::made, crate::specs::Reading::snapshot_at))]
fn snapshot_at(alloc: Global, area: &[u8]) -> Result<(RawSnapshot, &[u8]), Unread>
    ensures { Gives (λ x. (raw_snapshot x.0, x.1.now)) result (snapshot_at area.now) }
{
    let (number, rest) = u64_at(area)?;
    let (next, rest) = u64_at(rest)?;
    let rest = only_u32_at(rest, FORMAT)?;
    let (count, rest) = u32_at(rest)?;
    let (files, rest) = files_of(alloc, count, rest)?;
    Ok((
        RawSnapshot {
            number,
            next,
            files,
        },
        rest,
    ))
}

/// What the front of the area spells. Memory is taken as the bytes come, never by a count that they say.
pub fn read(alloc: Global, area: &[u8]) -> Result<RawSnapshot, ReadRefusal>
    ensures found { IfOk result (λ s. IsSpelled area.now (raw_snapshot s)) }
    ensures only { IfOk result (λ s. (t : Snapshot) → IsSpelled area.now t → raw_snapshot s ≡ t) }
    ensures refused { IsErrOf result ReadRefusal.Corrupt → (s : Snapshot) → IsSpelled area.now s → ⊥ }
{
    let (snapshot, _) = snapshot_at(alloc, area)?;
    Ok(snapshot)
}
