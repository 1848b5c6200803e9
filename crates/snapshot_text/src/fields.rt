//! The fields that a snapshot alone has: each function reads one from the front of some bytes, and gives it with the bytes after it.
ghost use Rattle.journal_records.specs.Reading.{Gives};
ghost use Rattle.snapshot_text.specs.Reading.{only_at, key_at, attribute_at, extent_at, state_at, stub_in};

use crate::snapshot::Mapping;
use hsm_types::{AttrName, Bytes, FileKey, Stub};
use journal_records::{
    OFFLINE, SEALED, Unread, attr_name_at, entry_in, u8_at, u32_at, u64_at, value_at,
};
use std::alloc::Global;

#[tactic(auto, unfolding(crate::specs::Reading::only_at))]
pub(crate) fn only_u32_at(bytes: &[u8], wanted: u32) -> Result<&[u8], Unread>
    ensures { Gives (λ rest. (tt, rest.now)) result (only_at 4 wanted bytes.now) }
{
    let (number, rest) = u32_at(bytes)?;
    if number != wanted {
        return Err(Unread::Bad);
    }
    Ok(rest)
}

#[tactic(auto, unfolding(journal_records::specs::Reading::made, journal_records::specs::Reading::both, crate::specs::Reading::key_at))]
pub(crate) fn key_at(bytes: &[u8]) -> Result<(FileKey, &[u8]), Unread>
    ensures { Gives (λ x. (x.0, x.1.now)) result (key_at bytes.now) }
{
    let (ino, rest) = u64_at(bytes)?;
    let (igen, rest) = u64_at(rest)?;
    Ok((FileKey { ino, igen }, rest))
}

#[tactic(auto, unfolding(journal_records::specs::Reading::made, journal_records::specs::Reading::both, crate::specs::Reading::extent_at))]
pub(crate) fn extent_at(bytes: &[u8]) -> Result<(Mapping, &[u8]), Unread>
    ensures { Gives (λ x. (x.0, x.1.now)) result (extent_at bytes.now) }
{
    let (block, rest) = u32_at(bytes)?;
    let (place, rest) = u32_at(rest)?;
    Ok((Mapping { block, place }, rest))
}

#[tactic(auto, unfolding(journal_records::specs::Reading::both, crate::specs::Reading::attribute_at))]
pub(crate) fn attribute_at(
    alloc: Global,
    bytes: &[u8],
) -> Result<((AttrName, Bytes), &[u8]), Unread>
    ensures { Gives (λ x. (x.0, x.1.now)) result (attribute_at bytes.now) }
{
    let (name, rest) = attr_name_at(bytes)?;
    let (value, rest) = value_at(alloc, rest)?;
    Ok(((name, value), rest))
}

/// Whether a segment with an entry is offline.
#[tactic(auto, unfolding(crate::specs::Reading::state_at))]
fn state_at(bytes: &[u8]) -> Result<(bool, &[u8]), Unread>
    ensures { Gives (λ x. (x.0, x.1.now)) result (state_at bytes.now) }
{
    let (state, rest) = u8_at(bytes)?;
    match state {
        SEALED => Ok((false, rest)),
        OFFLINE => Ok((true, rest)),
        _ => Err(Unread::Bad),
    }
}

/// A segment with its entry.
#[tactic(auto, unfolding(journal_records::specs::Reading::made, journal_records::specs::Reading::both, crate::specs::Reading::stub_in))]
pub(crate) fn stub_in(bytes: &[u8]) -> Result<((u32, Stub), &[u8]), Unread>
    ensures { Gives (λ x. (x.0, x.1.now)) result (stub_in bytes.now) }
{
    let (segment, rest) = u32_at(bytes)?;
    let (offline, rest) = state_at(rest)?;
    let (entry, rest) = entry_in(rest)?;
    Ok(((segment, Stub { entry, offline }), rest))
}
