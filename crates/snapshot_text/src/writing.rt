//! Writing a snapshot's bytes.
ghost use Rattle.std.specs.Prelude.{◌≡◌, ◌+◌, ◌≤◌, ◌<◌, ◌++◌, [], length, IsTrue, OnOk};
ghost use Rattle.std.specs.List.{flat_map};
ghost use Rattle.hsm_types.specs.Limits.{file_blocks, file_regions, name_bytes, value_bytes};
ghost use Rattle.hsm_types.specs.Stubs.{entry_place, entry_print};
ghost use Rattle.byteorder.specs.Endian.{big_bytes};
ghost use Rattle.snapshot_text.specs.Files.{present};
ghost use Rattle.journal_records.specs.Texts.{region_bytes, state_of};
ghost use Rattle.snapshot_text.specs.Snapshots.{attribute_bytes, extent_bytes, stub_bytes, extents_from, bytes_of_file, snapshot_file};
ghost use Rattle.snapshot_text.specs.Parts.{file_of};

use crate::file_parts::FileParts;
use crate::snapshot::{FORMAT, Mapping};
use byteorder::{BigEndian, ByteOrder};
use dm_attrs::DmAttrs;
use hsm_types::{AttrName, Bytes, FileKey, Region, Stub, Word};
use journal_records::{OFFLINE, SEALED, spell_region};
use std::alloc::AllocError;
use stub_map::StubMap;

fn put_u16(out: &mut Vec<u8>, number: u16) -> Result<(), AllocError>
    ensures { OnOk result (out.new.items ≡ out.old.items ++ big_bytes 2 number) }
{
    let mut field = [0; 2];
    BigEndian::write_u16(&mut field, number);
    out.extend_from_slice(&field)?;
    Ok(())
}

fn put_u32(out: &mut Vec<u8>, number: u32) -> Result<(), AllocError>
    ensures { OnOk result (out.new.items ≡ out.old.items ++ big_bytes 4 number) }
{
    let mut field = [0; 4];
    BigEndian::write_u32(&mut field, number);
    out.extend_from_slice(&field)?;
    Ok(())
}

fn spell_extent(extent: Mapping) -> [u8; 8]
    ensures { result ≡ extent_bytes extent }
{
    let mut bytes = [0; 8];
    BigEndian::write_u32(&mut bytes, extent.block);
    BigEndian::write_u32(&mut bytes[4..], extent.place);
    bytes
}

fn spell_header(number: u64, next: u64, count: u32) -> [u8; 24]
    ensures { result ≡ big_bytes 8 number ++ big_bytes 8 next ++ big_bytes 4 1 ++ big_bytes 4 count }
{
    let mut bytes = [0; 24];
    BigEndian::write_u64(&mut bytes, number);
    BigEndian::write_u64(&mut bytes[8..], next);
    BigEndian::write_u32(&mut bytes[16..], FORMAT);
    BigEndian::write_u32(&mut bytes[20..], count);
    bytes
}

/// A file's key, its size and the length of its name.
fn spell_head(key: FileKey, size: u64, len: u8) -> [u8; 25]
    ensures { result ≡ big_bytes 8 key.ino ++ big_bytes 8 key.igen ++ big_bytes 8 size ++ big_bytes 1 len }
{
    let mut bytes = [0; 25];
    BigEndian::write_u64(&mut bytes, key.ino);
    BigEndian::write_u64(&mut bytes[8..], key.igen);
    BigEndian::write_u64(&mut bytes[16..], size);
    bytes[24] = len;
    bytes
}

/// That sessions keep nothing with a file, and how many extents it has.
fn spell_nothing_kept(extents: u32) -> [u8; 9]
    ensures { result ≡ big_bytes 1 0 ++ big_bytes 4 0 ++ big_bytes 4 extents }
{
    let mut bytes = [0; 9];
    BigEndian::write_u32(&mut bytes[5..], extents);
    bytes
}

/// What stands behind the name of a file of one block with which sessions keep nothing.
fn spell_one_block(place: u32) -> [u8; 21]
    ensures { result ≡ big_bytes 1 0 ++ big_bytes 4 0 ++ big_bytes 4 1 ++ extent_bytes (record { block = 0; place = place }) ++ big_bytes 4 0 }
{
    let mut bytes = [0; 21];
    BigEndian::write_u32(&mut bytes[5..], 1);
    BigEndian::write_u32(&mut bytes[13..], place);
    bytes
}

/// What stands behind the name of a file of two blocks with which sessions keep nothing.
fn spell_two_blocks(first: u32, second: u32) -> [u8; 29]
    ensures { result ≡ big_bytes 1 0 ++ big_bytes 4 0 ++ big_bytes 4 2 ++ extent_bytes (record { block = 0; place = first }) ++ extent_bytes (record { block = 1; place = second }) ++ big_bytes 4 0 }
{
    let mut bytes = [0; 29];
    BigEndian::write_u32(&mut bytes[5..], 2);
    BigEndian::write_u32(&mut bytes[13..], first);
    BigEndian::write_u32(&mut bytes[17..], 1);
    BigEndian::write_u32(&mut bytes[21..], second);
    bytes
}

/// The front of a snapshot: the number of history entries before it, the next generation, and how many files follow.
pub fn put_header(out: &mut Vec<u8>, number: u64, next: u64, count: u32) -> Result<(), AllocError>
    ensures { OnOk result (out.new.items ≡ out.old.items ++ (big_bytes 8 number ++ big_bytes 8 next ++ big_bytes 4 1 ++ big_bytes 4 count)) }
{
    out.extend_from_slice(&spell_header(number, next, count))?;
    Ok(())
}

fn put_extents(out: &mut Vec<u8>, places: &[Option<u32>]) -> Result<(), AllocError>
    requires { length places.now ≤ file_blocks }
    ensures { OnOk result (out.new.items ≡ out.old.items ++ flat_map extent_bytes (extents_from 0 places.now)) }
{
    let mut block = 0;
    for place in places {
        if let Some(place) = *place {
            out.extend_from_slice(&spell_extent(Mapping { block, place }))?;
        }
        block += 1;
    }
    Ok(())
}

/// A file's key, its size and its name.
fn put_head(out: &mut Vec<u8>, key: FileKey, size: u64, name: &Word) -> Result<(), AllocError>
    requires { length name.now ≤ name_bytes }
    ensures { OnOk result (out.new.items ≡ out.old.items ++ (big_bytes 8 key.ino ++ big_bytes 8 key.igen ++ big_bytes 8 size ++ big_bytes 1 (length name.now) ++ name.now)) }
{
    let name = name.as_slice();
    out.extend_from_slice(&spell_head(key, size, name.len() as u8))?;
    out.extend_from_slice(name)?;
    Ok(())
}

fn put_regions(out: &mut Vec<u8>, regions: &[Region]) -> Result<(), AllocError>
    ensures { OnOk result (out.new.items ≡ out.old.items ++ flat_map region_bytes regions.now) }
{
    for region in regions {
        out.extend_from_slice(&spell_region(*region))?;
    }
    Ok(())
}

fn put_attribute(out: &mut Vec<u8>, name: AttrName, value: &Bytes) -> Result<(), AllocError>
    requires { length value.now ≤ value_bytes }
    ensures { OnOk result (out.new.items ≡ out.old.items ++ attribute_bytes (name, value.now)) }
{
    let value = value.as_slice();
    out.extend_from_slice(&name.0)?;
    put_u16(out, value.len() as u16)?;
    out.extend_from_slice(value)?;
    Ok(())
}

fn put_attributes(out: &mut Vec<u8>, attributes: &DmAttrs) -> Result<(), AllocError>
    ensures { OnOk result (out.new.items ≡ out.old.items ++ flat_map attribute_bytes attributes.now) }
{
    for (name, value) in attributes.iter() {
        put_attribute(out, *name, value)?;
    }
    Ok(())
}

/// A segment and its entry, without the digest.
fn spell_stub(segment: u32, stub: Stub) -> [u8; 17]
    ensures { result ≡ big_bytes 4 segment ++ big_bytes 1 (state_of stub.offline) ++ big_bytes 4 (entry_place stub.entry).volume ++ big_bytes 4 (entry_place stub.entry).object ++ big_bytes 4 (entry_print stub.entry).len }
{
    let mut bytes = [0; 17];
    BigEndian::write_u32(&mut bytes, segment);
    bytes[4] = if stub.offline { OFFLINE } else { SEALED };
    let place = stub.entry.place();
    BigEndian::write_u32(&mut bytes[5..], place.volume);
    BigEndian::write_u32(&mut bytes[9..], place.object);
    BigEndian::write_u32(&mut bytes[13..], stub.entry.print().len);
    bytes
}

fn put_stub(out: &mut Vec<u8>, segment: u32, stub: Stub) -> Result<(), AllocError>
    ensures { OnOk result (out.new.items ≡ out.old.items ++ stub_bytes (segment, stub)) }
{
    out.extend_from_slice(&spell_stub(segment, stub))?;
    out.extend_from_slice(&stub.entry.print().digest.0)?;
    Ok(())
}

/// The count of a file's stub entries, and the entries.
fn put_stubs(out: &mut Vec<u8>, stubs: &StubMap) -> Result<(), AllocError>
    ensures { OnOk result (out.new.items ≡ out.old.items ++ (big_bytes 4 (length stubs.now) ++ flat_map stub_bytes stubs.now)) }
{
    put_u32(out, stubs.len())?;
    for (segment, stub) in stubs.iter() {
        put_stub(out, *segment, *stub)?;
    }
    Ok(())
}

/// What sessions keep with a file before its extents, which mostly is nothing, and how many extents it has.
fn put_kept(out: &mut Vec<u8>, parts: &FileParts) -> Result<(), AllocError>
    requires { length parts.now.regions ≤ file_regions }
    ensures { OnOk result (out.new.items ≡ out.old.items ++ (big_bytes 1 (length parts.now.regions) ++ flat_map region_bytes parts.now.regions ++ big_bytes 4 (length parts.now.attributes) ++ flat_map attribute_bytes parts.now.attributes ++ big_bytes 4 (length (present parts.now.places)))) }
{
    let regions = parts.regions.list().as_slice();
    if regions.is_empty() && parts.attributes.len() == 0 {
        out.extend_from_slice(&spell_nothing_kept(parts.places.mapped()))?;
        return Ok(());
    }
    out.push(regions.len() as u8)?;
    put_regions(out, regions)?;
    put_u32(out, parts.attributes.len())?;
    put_attributes(out, &parts.attributes)?;
    put_u32(out, parts.places.mapped())?;
    Ok(())
}

/// Whether sessions keep nothing with a file.
fn is_plain(parts: &FileParts) -> bool
    ensures { IsTrue result → (parts.now.regions ≡ []) × (parts.now.attributes ≡ []) × (parts.now.stubs ≡ []) }
{
    parts.regions.list().as_slice().is_empty()
        && parts.attributes.len() == 0
        && parts.stubs.len() == 0
}

/// What stands behind a file's name, at once where that is short.
fn put_rest(out: &mut Vec<u8>, parts: &FileParts) -> Result<(), AllocError>
    requires places { length parts.now.places ≤ file_blocks }
    requires regions { length parts.now.regions ≤ file_regions }
    ensures { OnOk result (out.new.items ≡ out.old.items ++ (big_bytes 1 (length parts.now.regions) ++ flat_map region_bytes parts.now.regions ++ big_bytes 4 (length parts.now.attributes) ++ flat_map attribute_bytes parts.now.attributes ++ big_bytes 4 (length (present parts.now.places)) ++ flat_map extent_bytes (extents_from 0 parts.now.places) ++ (big_bytes 4 (length parts.now.stubs) ++ flat_map stub_bytes parts.now.stubs))) }
{
    let places = parts.places.as_slice();
    match places {
        [Some(place)] if is_plain(parts) => out.extend_from_slice(&spell_one_block(*place)),
        [Some(first), Some(second)] if is_plain(parts) => {
            out.extend_from_slice(&spell_two_blocks(*first, *second))
        }
        _ => {
            put_kept(out, parts)?;
            put_extents(out, places)?;
            put_stubs(out, &parts.stubs)
        }
    }
}

/// A file, with an extent for each block of its body that the disk has.
#[tactic(auto, using(crate::proofs::WrittenParts::written), unfolding(crate::specs::Snapshots::bytes_of_file))]
pub fn put_file(
    out: &mut Vec<u8>,
    key: FileKey,
    name: &Word,
    size: u64,
    parts: &FileParts,
) -> Result<(), AllocError>
    requires name { length name.now ≤ name_bytes }
    requires places { length parts.now.places ≤ file_blocks }
    requires regions { length parts.now.regions ≤ file_regions }
    ensures { OnOk result (out.new.items ≡ out.old.items ++ bytes_of_file (snapshot_file (file_of key name.now size parts.now))) }
{
    put_head(out, key, size, name)?;
    put_rest(out, parts)?;
    Ok(())
}
