//! Reading records.
ghost use Rattle.std.specs.Prelude.{◌≡◌, ℕ, ◌≤◌, List, length, IfOk, IsErrOf};
ghost use Rattle.journal_records.specs.Reading.{Gives, make_at, size_at, map_at, regions_at, set_attr_at, drop_attr_at, stub_at, fields_at, record_at};
ghost use Rattle.journal_records.specs.Places.{StandsAt, NoneStandsAt, AreRecords, IsBadAt};

use crate::fields::{
    attr_name_at, name_at, places_at, regions_at, stub_in, u8_at, u32_at, u64_at, value_at,
};
use crate::records::{Record, Records};
use crate::refusals::{RecordRefusal, Unread};
use crate::spelling::{DROP, DROP_ATTR, MAKE, MAP, REGIONS, SET_ATTR, SIZE, STUB};
use hsm_types::FileKey;
use std::alloc::Global;

#[tactic(auto, unfolding(crate::specs::Reading::made, crate::specs::Reading::both, crate::specs::Reading::make_at))]
fn make_at(alloc: Global, ino: u64, bytes: &[u8]) -> Result<(Record, &[u8]), Unread>
    ensures { Gives (λ x. (x.0, x.1.now)) result (make_at ino bytes.now) }
{
    let (igen, rest) = u64_at(bytes)?;
    let (name, rest) = name_at(alloc, rest)?;
    let key = FileKey { ino, igen };
    Ok((Record::Make { key, name }, rest))
}

#[tactic(auto, unfolding(crate::specs::Reading::made, crate::specs::Reading::size_at))]
fn size_at(ino: u64, bytes: &[u8]) -> Result<(Record, &[u8]), Unread>
    ensures { Gives (λ x. (x.0, x.1.now)) result (size_at ino bytes.now) }
{
    let (size, rest) = u64_at(bytes)?;
    Ok((Record::Size { ino, size }, rest))
}

#[tactic(auto, unfolding(crate::specs::Reading::made, crate::specs::Reading::both, crate::specs::Reading::map_at))]
fn map_at(alloc: Global, ino: u64, bytes: &[u8]) -> Result<(Record, &[u8]), Unread>
    ensures { Gives (λ x. (x.0, x.1.now)) result (map_at ino bytes.now) }
{
    let (block, rest) = u32_at(bytes)?;
    let (places, rest) = places_at(alloc, rest)?;
    Ok((Record::Map { ino, block, places }, rest))
}

#[tactic(auto, unfolding(crate::specs::Reading::made, crate::specs::Reading::regions_at))]
fn regions_record_at(alloc: Global, ino: u64, bytes: &[u8]) -> Result<(Record, &[u8]), Unread>
    ensures { Gives (λ x. (x.0, x.1.now)) result (regions_at ino bytes.now) }
{
    let (regions, rest) = regions_at(alloc, bytes)?;
    Ok((Record::Regions { ino, regions }, rest))
}

#[tactic(auto, unfolding(crate::specs::Reading::made, crate::specs::Reading::both, crate::specs::Reading::set_attr_at))]
fn set_attr_at(alloc: Global, ino: u64, bytes: &[u8]) -> Result<(Record, &[u8]), Unread>
    ensures { Gives (λ x. (x.0, x.1.now)) result (set_attr_at ino bytes.now) }
{
    let (name, rest) = attr_name_at(bytes)?;
    let (value, rest) = value_at(alloc, rest)?;
    Ok((Record::SetAttr { ino, name, value }, rest))
}

#[tactic(auto, unfolding(crate::specs::Reading::made, crate::specs::Reading::drop_attr_at))]
fn drop_attr_at(ino: u64, bytes: &[u8]) -> Result<(Record, &[u8]), Unread>
    ensures { Gives (λ x. (x.0, x.1.now)) result (drop_attr_at ino bytes.now) }
{
    let (name, rest) = attr_name_at(bytes)?;
    Ok((Record::DropAttr { ino, name }, rest))
}

#[tactic(auto, unfolding(crate::specs::Reading::made, crate::specs::Reading::both, crate::specs::Reading::stub_at))]
fn stub_at(ino: u64, bytes: &[u8]) -> Result<(Record, &[u8]), Unread>
    ensures { Gives (λ x. (x.0, x.1.now)) result (stub_at ino bytes.now) }
{
    let (segment, rest) = u32_at(bytes)?;
    let (stub, rest) = stub_in(rest)?;
    let record = Record::Stub { ino, segment, stub };
    Ok((record, rest))
}

/// The record of that tag about the file with that inode, of what stands behind these.
#[tactic(auto, unfolding(crate::specs::Reading::fields_at))]
fn fields_at(alloc: Global, tag: u8, ino: u64, bytes: &[u8]) -> Result<(Record, &[u8]), Unread>
    ensures { Gives (λ x. (x.0, x.1.now)) result (fields_at tag ino bytes.now) }
{
    match tag {
        MAKE => make_at(alloc, ino, bytes),
        DROP => Ok((Record::Drop { ino }, bytes)),
        SIZE => size_at(ino, bytes),
        MAP => map_at(alloc, ino, bytes),
        REGIONS => regions_record_at(alloc, ino, bytes),
        SET_ATTR => set_attr_at(alloc, ino, bytes),
        DROP_ATTR => drop_attr_at(ino, bytes),
        STUB => stub_at(ino, bytes),
        _ => Err(Unread::Bad),
    }
}

/// The record that begins these bytes, and what stands behind it.
#[tactic(auto, unfolding(crate::specs::Reading::record_at))]
fn record_at(alloc: Global, bytes: &[u8]) -> Result<(Record, &[u8]), Unread>
    ensures { Gives (λ x. (x.0, x.1.now)) result (record_at bytes.now) }
{
    let (tag, rest) = u8_at(bytes)?;
    let (ino, rest) = u64_at(rest)?;
    fields_at(alloc, tag, ino, rest)
}

/// The record that stands at that place, and where the next one begins. It takes the memory that the record owns, as its bytes come,
/// and never by a count that they say.
pub fn read(alloc: Global, bytes: &[u8], place: usize) -> Result<(Record, usize), RecordRefusal>
    requires { place ≤ length bytes.now }
    ensures read { IfOk result (λ r. StandsAt bytes.now place r.0 r.1) }
    ensures no_other { IfOk result (λ r. (s : Record) (next : ℕ) → StandsAt bytes.now place s next → (s ≡ r.0) × (next ≡ r.1)) }
    ensures bad { (at : ℕ) → IsErrOf result (RecordRefusal.Bad at) → (at ≡ place) × NoneStandsAt bytes.now place }
{
    match record_at(alloc, &bytes[place..]) {
        Ok((record, rest)) => Ok((record, bytes.len() - rest.len())),
        Err(Unread::Bad) => Err(RecordRefusal::Bad {
            place: place as u64,
        }),
        Err(Unread::Memory) => Err(RecordRefusal::Memory),
    }
}

/// The records of a batch, of which there are to be so many and nothing else. `Bad` tells where the first one stands that is none, or what
/// stands behind the last.
pub fn read_all(alloc: Global, bytes: &[u8], count: u32) -> Result<Records, RecordRefusal>
    ensures read { IfOk result (AreRecords bytes.now count) }
    ensures no_other { IfOk result (λ rs. (ss : List Record) → AreRecords bytes.now count ss → ss ≡ rs) }
    ensures bad { (at : ℕ) → IsErrOf result (RecordRefusal.Bad at) → IsBadAt bytes.now count at × ((rs : List Record) → AreRecords bytes.now count rs → ⊥) }
{
    let mut records = Vec::new(alloc);
    let mut place = 0;
    for _ in 0..count {
        let (record, next) = read(alloc, bytes, place)?;
        let Ok(()) = records.push(record) else {
            return Err(RecordRefusal::Memory);
        };
        place = next;
    }
    if place < bytes.len() {
        return Err(RecordRefusal::Bad {
            place: place as u64,
        });
    }
    Ok(Records::from(records))
}
