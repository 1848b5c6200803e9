//! The fields of a record or a snapshot: each function reads one from the front of some bytes, and gives it with the bytes after it.
ghost use Rattle.journal_records.specs.Reading.{Gives, number_at, bytes_at, several, counted, region_at, attr_name_at, print_at, entry_in, stub_in, stub_for};

use crate::records::Places;
use crate::refusals::Unread;
use byteorder::{BigEndian, ByteOrder};
use hsm_types::{
    AttrName, Bytes, Digest, Fingerprint, Place, Region, Regions, Stub, StubEntry, Word,
};
use std::alloc::Global;

/// The state of a segment without an entry.
pub(crate) const RESIDENT: u8 = 0;

/// The state of a segment that has its bytes and an entry.
pub const SEALED: u8 = 1;

/// The state of a segment that has an entry in the place of its bytes.
pub const OFFLINE: u8 = 2;

/// A number of one byte.
pub fn u8_at(bytes: &[u8]) -> Result<(u8, &[u8]), Unread>
    ensures { Gives (λ x. (x.0, x.1.now)) result (number_at 1 bytes.now) }
{
    if bytes.is_empty() {
        return Err(Unread::Bad);
    }
    Ok((bytes[0], &bytes[1..]))
}

fn u16_at(bytes: &[u8]) -> Result<(u16, &[u8]), Unread>
    ensures { Gives (λ x. (x.0, x.1.now)) result (number_at 2 bytes.now) }
{
    if bytes.len() < 2 {
        return Err(Unread::Bad);
    }
    Ok((BigEndian::read_u16(bytes), &bytes[2..]))
}

/// A number of four bytes.
pub fn u32_at(bytes: &[u8]) -> Result<(u32, &[u8]), Unread>
    ensures { Gives (λ x. (x.0, x.1.now)) result (number_at 4 bytes.now) }
{
    if bytes.len() < 4 {
        return Err(Unread::Bad);
    }
    Ok((BigEndian::read_u32(bytes), &bytes[4..]))
}

/// A number of eight bytes.
pub fn u64_at(bytes: &[u8]) -> Result<(u64, &[u8]), Unread>
    ensures { Gives (λ x. (x.0, x.1.now)) result (number_at 8 bytes.now) }
{
    if bytes.len() < 8 {
        return Err(Unread::Bad);
    }
    Ok((BigEndian::read_u64(bytes), &bytes[8..]))
}

/// A copy of so many bytes.
fn bytes_at(alloc: Global, len: usize, bytes: &[u8]) -> Result<(Vec<u8>, &[u8]), Unread>
    ensures { Gives (λ x. (x.0.items, x.1.now)) result (bytes_at len bytes.now) }
{
    if bytes.len() < len {
        return Err(Unread::Bad);
    }
    let (front, rest) = bytes.split_at(len);
    Ok((Vec::from_slice(alloc, front)?, rest))
}

/// A name, of as many bytes as the one before it says.
#[tactic(auto, unfolding(crate::specs::Reading::counted))]
pub fn name_at(alloc: Global, bytes: &[u8]) -> Result<(Word, &[u8]), Unread>
    ensures { Gives (λ x. (x.0, x.1.now)) result (counted 1 bytes_at bytes.now) }
{
    let (len, rest) = u8_at(bytes)?;
    let (name, rest) = bytes_at(alloc, usize::from(len), rest)?;
    Ok((Word::from(name), rest))
}

/// The value of an attribute, of as many bytes as the two before it say.
#[tactic(auto, unfolding(crate::specs::Reading::counted))]
pub fn value_at(alloc: Global, bytes: &[u8]) -> Result<(Bytes, &[u8]), Unread>
    ensures { Gives (λ x. (x.0, x.1.now)) result (counted 2 bytes_at bytes.now) }
{
    let (len, rest) = u16_at(bytes)?;
    let (value, rest) = bytes_at(alloc, usize::from(len), rest)?;
    Ok((Bytes::from(value), rest))
}

/// The name of an attribute.
#[tactic(auto, unfolding(crate::specs::Reading::made, crate::specs::Reading::attr_name_at))]
pub fn attr_name_at(bytes: &[u8]) -> Result<(AttrName, &[u8]), Unread>
    ensures { Gives (λ x. (x.0, x.1.now)) result (attr_name_at bytes.now) }
{
    if bytes.len() < 8 {
        return Err(Unread::Bad);
    }
    let mut name = [0; 8];
    name.copy_from_slice(&bytes[..8]);
    Ok((AttrName(name), &bytes[8..]))
}

#[tactic(auto, unfolding(crate::specs::Reading::made, crate::specs::Reading::both, crate::specs::Reading::region_at))]
fn region_at(bytes: &[u8]) -> Result<(Region, &[u8]), Unread>
    ensures { Gives (λ x. (x.0, x.1.now)) result (region_at bytes.now) }
{
    let (offset, rest) = u64_at(bytes)?;
    let (size, rest) = u64_at(rest)?;
    let (flags, rest) = u8_at(rest)?;
    let region = Region {
        offset,
        size,
        flags,
    };
    Ok((region, rest))
}

#[tactic(auto, using(crate::proofs::ReadValues::read_steps))]
fn several_regions(alloc: Global, count: u8, bytes: &[u8]) -> Result<(Vec<Region>, &[u8]), Unread>
    ensures { Gives (λ x. (x.0.items, x.1.now)) result (several region_at count bytes.now) }
{
    let mut regions = Vec::new(alloc);
    let mut rest = bytes;
    for _ in 0..count {
        let (region, after) = region_at(rest)?;
        regions.push(region)?;
        rest = after;
    }
    Ok((regions, rest))
}

/// The count of regions, and the regions.
#[tactic(auto, unfolding(crate::specs::Reading::counted))]
pub fn regions_at(alloc: Global, bytes: &[u8]) -> Result<(Regions, &[u8]), Unread>
    ensures { Gives (λ x. (x.0, x.1.now)) result (counted 1 (several region_at) bytes.now) }
{
    let (count, rest) = u8_at(bytes)?;
    let (regions, rest) = several_regions(alloc, count, rest)?;
    Ok((Regions::from(regions), rest))
}

#[tactic(auto, using(crate::proofs::ReadValues::read_steps))]
fn several_places(alloc: Global, count: u8, bytes: &[u8]) -> Result<(Vec<u32>, &[u8]), Unread>
    ensures { Gives (λ x. (x.0.items, x.1.now)) result (several (number_at 4) count bytes.now) }
{
    let mut places = Vec::new(alloc);
    let mut rest = bytes;
    for _ in 0..count {
        let (place, after) = u32_at(rest)?;
        places.push(place)?;
        rest = after;
    }
    Ok((places, rest))
}

/// The count of places, and the places.
#[tactic(auto, unfolding(crate::specs::Reading::counted))]
pub(crate) fn places_at(alloc: Global, bytes: &[u8]) -> Result<(Places, &[u8]), Unread>
    ensures { Gives (λ x. (x.0, x.1.now)) result (counted 1 (several (number_at 4)) bytes.now) }
{
    let (count, rest) = u8_at(bytes)?;
    let (places, rest) = several_places(alloc, count, rest)?;
    Ok((Places::from(places), rest))
}

fn digest_at(bytes: &[u8]) -> Result<(Digest, &[u8]), Unread>
    ensures { Gives (λ x. (x.0.0, x.1.now)) result (bytes_at 32 bytes.now) }
{
    if bytes.len() < 32 {
        return Err(Unread::Bad);
    }
    let mut digest = [0; 32];
    digest.copy_from_slice(&bytes[..32]);
    Ok((Digest(digest), &bytes[32..]))
}

#[tactic(auto, unfolding(crate::specs::Reading::made, crate::specs::Reading::both, crate::specs::Reading::print_at))]
fn print_at(bytes: &[u8]) -> Result<(Fingerprint, &[u8]), Unread>
    ensures { Gives (λ x. (x.0, x.1.now)) result (print_at bytes.now) }
{
    let (len, rest) = u32_at(bytes)?;
    let (digest, rest) = digest_at(rest)?;
    Ok((Fingerprint { len, digest }, rest))
}

/// A stub entry.
#[tactic(auto, unfolding(crate::specs::Reading::made, crate::specs::Reading::both, crate::specs::Reading::entry_in))]
pub fn entry_in(bytes: &[u8]) -> Result<(StubEntry, &[u8]), Unread>
    ensures { Gives (λ x. (x.0, x.1.now)) result (entry_in bytes.now) }
{
    let (volume, rest) = u32_at(bytes)?;
    let (object, rest) = u32_at(rest)?;
    let (print, rest) = print_at(rest)?;
    Ok((StubEntry::new(Place { volume, object }, print), rest))
}

/// The entry of a segment in that state, if it has one there.
#[tactic(auto, unfolding(crate::specs::Reading::made, crate::specs::Reading::stub_for))]
fn stub_for(state: u8, bytes: &[u8]) -> Result<(Option<Stub>, &[u8]), Unread>
    ensures { Gives (λ x. (x.0, x.1.now)) result (stub_for state bytes.now) }
{
    if state == RESIDENT {
        return Ok((None, bytes));
    }
    if state > OFFLINE {
        return Err(Unread::Bad);
    }
    let (entry, rest) = entry_in(bytes)?;
    let offline = state == OFFLINE;
    Ok((Some(Stub { entry, offline }), rest))
}

/// The state of a segment, and its entry, if it has one.
#[tactic(auto, unfolding(crate::specs::Reading::stub_in))]
pub(crate) fn stub_in(bytes: &[u8]) -> Result<(Option<Stub>, &[u8]), Unread>
    ensures { Gives (λ x. (x.0, x.1.now)) result (stub_in bytes.now) }
{
    let (state, rest) = u8_at(bytes)?;
    stub_for(state, rest)
}
