//! Spelling records.
ghost use Rattle.std.specs.Prelude.{◌≡◌, ◌+◌, ◌≤◌, ◌<◌, ◌^◌, ◌++◌, ◌∷◌, length, drop};
ghost use Rattle.std.specs.List.{flat_map, AllByRecursion};
ghost use Rattle.byteorder.specs.Endian.{big_bytes};
ghost use Rattle.hsm_types.specs.Stubs.{entry_place, entry_print};
ghost use Rattle.journal_records.specs.Texts.{tag_of, inode_of, sized_bytes, counted_bytes, region_bytes, entry_bytes, stub_bytes, fields_text, record_text};
ghost use Rattle.journal_records.specs.Texts.{IsShort, RegionFits, EntryFits, StubFits, FieldsFit, RecordFits};
ghost use Rattle.journal_records.specs.Places.{Puts};

use crate::fields::{OFFLINE, RESIDENT, SEALED};
use crate::records::Record;
use byteorder::{BigEndian, ByteOrder};
use hsm_types::{AttrName, Region, Stub, StubEntry};

pub(crate) const MAKE: u8 = 1;

pub(crate) const DROP: u8 = 2;

pub(crate) const SIZE: u8 = 3;

pub(crate) const MAP: u8 = 4;

pub(crate) const REGIONS: u8 = 5;

pub(crate) const SET_ATTR: u8 = 6;

pub(crate) const DROP_ATTR: u8 = 7;

pub(crate) const STUB: u8 = 8;

/// The bytes of a tag and an inode.
const HEAD: usize = 9;

/// How many bytes a region has.
const REGION: usize = 17;

/// The bytes of a stub entry before its digest.
const PLACE: usize = 12;

/// The bytes of a stub entry.
const ENTRY: usize = 44;

/// What a record begins with.
fn tag(record: &Record) -> u8
    ensures { result ≡ tag_of record.now }
{
    match record {
        Record::Make { .. } => MAKE,
        Record::Drop { .. } => DROP,
        Record::Size { .. } => SIZE,
        Record::Map { .. } => MAP,
        Record::Regions { .. } => REGIONS,
        Record::SetAttr { .. } => SET_ATTR,
        Record::DropAttr { .. } => DROP_ATTR,
        Record::Stub { .. } => STUB,
    }
}

/// How many bytes a segment's state and its entry have.
fn stub_size(stub: Option<Stub>) -> usize
    ensures size { result ≡ length (stub_bytes stub) }
    ensures small { result ≤ 45 }
{
    match stub {
        None => 1,
        Some(stub) => 1 + PLACE + stub.entry.print().digest.0.len(),
    }
}

/// How many bytes the name of an attribute has.
fn name_size(name: AttrName) -> usize
    ensures size { result ≡ length name.0 }
    ensures small { result ≡ 8 }
{
    name.0.len()
}

/// How many bytes stand behind the tag and the inode of a record.
#[tactic(auto, using(crate::proofs::WrittenTexts::lengths))]
fn fields_size(record: &Record) -> usize
    requires { IsShort record.now }
    ensures size { result ≡ length (fields_text record.now) }
    ensures small { result < 2 ^ 17 }
{
    match record {
        Record::Make { name, .. } => 9 + name.as_slice().len(),
        Record::Drop { .. } => 0,
        Record::Size { .. } => 8,
        Record::Map { places, .. } => 5 + 4 * places.as_slice().len(),
        Record::Regions { regions, .. } => 1 + REGION * regions.as_slice().len(),
        Record::SetAttr { name, value, .. } => name_size(*name) + 2 + value.as_slice().len(),
        Record::DropAttr { name, .. } => name_size(*name),
        Record::Stub { stub, .. } => 4 + stub_size(*stub),
    }
}

/// How many bytes the text of a record has.
#[tactic(auto, unfolding(crate::specs::Texts::record_text))]
pub fn size(record: &Record) -> usize
    requires { IsShort record.now }
    ensures { result ≡ length (record_text record.now) }
{
    HEAD + fields_size(record)
}

/// Writes the bytes over others, and tells where they end.
fn put(out: &mut [u8], at: usize, bytes: &[u8]) -> usize
    requires { at + length bytes.now ≤ length out.old }
    ensures end { result ≡ at + length bytes.now }
    ensures puts { Puts at bytes.now out.old out.new }
    ensures len { length out.new ≡ length out.old }
{
    let end = at + bytes.len();
    out[at..end].copy_from_slice(bytes);
    end
}

fn put_u8(out: &mut [u8], at: usize, number: u8) -> usize
    requires { at + 1 ≤ length out.old }
    ensures end { result ≡ at + 1 }
    ensures puts { Puts at (big_bytes 1 number) out.old out.new }
    ensures len { length out.new ≡ length out.old }
{
    put(out, at, &[number])
}

fn put_u16(out: &mut [u8], at: usize, number: u16) -> usize
    requires { at + 2 ≤ length out.old }
    ensures end { result ≡ at + 2 }
    ensures puts { Puts at (big_bytes 2 number) out.old out.new }
    ensures len { length out.new ≡ length out.old }
{
    let mut field = [0; 2];
    BigEndian::write_u16(&mut field, number);
    put(out, at, &field)
}

fn put_u32(out: &mut [u8], at: usize, number: u32) -> usize
    requires { at + 4 ≤ length out.old }
    ensures end { result ≡ at + 4 }
    ensures puts { Puts at (big_bytes 4 number) out.old out.new }
    ensures len { length out.new ≡ length out.old }
{
    let mut field = [0; 4];
    BigEndian::write_u32(&mut field, number);
    put(out, at, &field)
}

fn put_u64(out: &mut [u8], at: usize, number: u64) -> usize
    requires { at + 8 ≤ length out.old }
    ensures end { result ≡ at + 8 }
    ensures puts { Puts at (big_bytes 8 number) out.old out.new }
    ensures len { length out.new ≡ length out.old }
{
    let mut field = [0; 8];
    BigEndian::write_u64(&mut field, number);
    put(out, at, &field)
}

/// The length of a name in one byte, and the name.
fn put_name(out: &mut [u8], at: usize, name: &[u8]) -> usize
    requires short { length name.now < 2 ^ 8 }
    requires room { at + (1 + length name.now) ≤ length out.old }
    ensures end { result ≡ at + (1 + length name.now) }
    ensures puts { Puts at (sized_bytes 1 name.now) out.old out.new }
    ensures len { length out.new ≡ length out.old }
{
    let at = put_u8(out, at, name.len() as u8);
    put(out, at, name)
}

/// The length of a value in two bytes, and the value.
fn put_value(out: &mut [u8], at: usize, value: &[u8]) -> usize
    requires short { length value.now < 2 ^ 16 }
    requires room { at + (2 + length value.now) ≤ length out.old }
    ensures end { result ≡ at + (2 + length value.now) }
    ensures puts { Puts at (sized_bytes 2 value.now) out.old out.new }
    ensures len { length out.new ≡ length out.old }
{
    let at = put_u16(out, at, value.len() as u16);
    put(out, at, value)
}

fn put_places(out: &mut [u8], at: usize, places: &[u32]) -> usize
    requires { at + length (flat_map (big_bytes 4) places.now) ≤ length out.old }
    ensures end { result ≡ at + length (flat_map (big_bytes 4) places.now) }
    ensures puts { Puts at (flat_map (big_bytes 4) places.now) out.old out.new }
    ensures len { length out.new ≡ length out.old }
    ensures fits { AllByRecursion (λ p. p < 2 ^ 32) places.now }
{
    let mut end = at;
    for place in places {
        end = put_u32(out, end, *place);
    }
    end
}

/// The bytes of a region.
pub fn spell_region(region: Region) -> [u8; REGION]
    ensures bytes { result ≡ region_bytes region }
    ensures fits { RegionFits region }
{
    let mut bytes = [0; REGION];
    BigEndian::write_u64(&mut bytes, region.offset);
    BigEndian::write_u64(&mut bytes[8..], region.size);
    bytes[16] = region.flags;
    bytes
}

fn put_regions(out: &mut [u8], at: usize, regions: &[Region]) -> usize
    requires { at + length (flat_map region_bytes regions.now) ≤ length out.old }
    ensures end { result ≡ at + length (flat_map region_bytes regions.now) }
    ensures puts { Puts at (flat_map region_bytes regions.now) out.old out.new }
    ensures len { length out.new ≡ length out.old }
    ensures fits { AllByRecursion RegionFits regions.now }
{
    let mut end = at;
    for region in regions {
        end = put(out, end, &spell_region(*region));
    }
    end
}

/// A stub entry without its digest.
fn spell_place(entry: &StubEntry) -> [u8; PLACE]
    ensures { result ≡ big_bytes 4 (entry_place entry.now).volume ++ big_bytes 4 (entry_place entry.now).object ++ big_bytes 4 (entry_print entry.now).len }
{
    let mut bytes = [0; PLACE];
    let place = entry.place();
    BigEndian::write_u32(&mut bytes, place.volume);
    BigEndian::write_u32(&mut bytes[4..], place.object);
    BigEndian::write_u32(&mut bytes[8..], entry.print().len);
    bytes
}

fn put_entry(out: &mut [u8], at: usize, entry: StubEntry) -> usize
    requires { at + ENTRY ≤ length out.old }
    ensures end { result ≡ at + ENTRY }
    ensures puts { Puts at (entry_bytes entry) out.old out.new }
    ensures len { length out.new ≡ length out.old }
    ensures fits { EntryFits entry }
{
    let at = put(out, at, &spell_place(&entry));
    put(out, at, &entry.print().digest.0)
}

/// The state of a segment, and its entry, if it has one.
fn put_stub(out: &mut [u8], at: usize, stub: Option<Stub>) -> usize
    requires { at + length (stub_bytes stub) ≤ length out.old }
    ensures end { result ≡ at + length (stub_bytes stub) }
    ensures puts { Puts at (stub_bytes stub) out.old out.new }
    ensures len { length out.new ≡ length out.old }
    ensures fits { StubFits stub }
{
    let Some(stub) = stub else {
        return put_u8(out, at, RESIDENT);
    };
    let state = if stub.offline { OFFLINE } else { SEALED };
    let at = put_u8(out, at, state);
    put_entry(out, at, stub.entry)
}

/// What stands behind the tag and the inode of a record.
fn put_fields(out: &mut [u8], at: usize, record: &Record) -> usize
    requires short { IsShort record.now }
    requires room { at + length (fields_text record.now) ≤ length out.old }
    ensures end { result ≡ at + length (fields_text record.now) }
    ensures puts { Puts at (fields_text record.now) out.old out.new }
    ensures fits { FieldsFit record.now }
{
    match record {
        Record::Make { key, name } => {
            let at = put_u64(out, at, key.igen);
            put_name(out, at, name.as_slice())
        }
        Record::Drop { .. } => at,
        Record::Size { size, .. } => put_u64(out, at, *size),
        Record::Map { block, places, .. } => {
            let at = put_u32(out, at, *block);
            let places = places.as_slice();
            let at = put_u8(out, at, places.len() as u8);
            put_places(out, at, places)
        }
        Record::Regions { regions, .. } => {
            let regions = regions.as_slice();
            let at = put_u8(out, at, regions.len() as u8);
            put_regions(out, at, regions)
        }
        Record::SetAttr { name, value, .. } => {
            let at = put(out, at, &name.0);
            put_value(out, at, value.as_slice())
        }
        Record::DropAttr { name, .. } => put(out, at, &name.0),
        Record::Stub { segment, stub, .. } => {
            let at = put_u32(out, at, *segment);
            put_stub(out, at, *stub)
        }
    }
}

/// Writes the text of a record over the front of `out`, and tells how many bytes it has. It takes no memory.
#[tactic(auto, unfolding(crate::specs::Texts::record_text))]
pub fn spell(record: &Record, out: &mut [u8]) -> usize
    requires short { IsShort record.now }
    requires room { length (record_text record.now) ≤ length out.old }
    ensures size { result ≡ length (record_text record.now) }
    ensures text { out.new ≡ record_text record.now ++ drop result out.old }
    ensures fits { RecordFits record.now }
{
    let at = put_u8(out, 0, tag(record));
    let at = put_u64(out, at, record.ino());
    put_fields(out, at, record)
}
