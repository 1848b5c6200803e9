//! What sessions keep with a file, as a snapshot has it.
ghost use Rattle.std.specs.Prelude.{◌≡◌, ◌↔◌, ◌≤◌, ◌^◌, None, IfOk, OnOk, true, false, length};
ghost use Rattle.std.specs.Result.{IsErrOf};
ghost use Rattle.std.specs.List.{AllByRecursion};
ghost use Rattle.hsm_types.specs.Attributes.{AreAttributes, bytes_of_attributes};
ghost use Rattle.hsm_types.specs.Limits.{IsCountable};
ghost use Rattle.hsm_types.specs.declared.dm.DmRefusal.TheVariants.{Memory};
ghost use Rattle.snapshot_text.specs.FileValidity.{are_regions, stands_behind, are_attributes};

use crate::snapshot::ReadRefusal;
use dm_attrs::DmAttrs;
use hsm_types::{AttrName, Bytes, DmRefusal, Limits, Regions};
use managed_regions::ManagedRegions;
use std::alloc::Global;
use std::cmp::Ordering;

/// How many bytes a name of an attribute has.
pub(crate) fn name_len(name: AttrName) -> usize
    ensures bytes { result ≡ length name.0 }
    ensures eight { result ≡ 8 }
{
    name.0.len()
}

/// What a refusal by a part says of the snapshot.
pub(crate) fn refusal_of(why: DmRefusal) -> ReadRefusal
    ensures { result ≡ ReadRefusal.Memory ↔ why ≡ Memory }
{
    match why {
        DmRefusal::Memory => ReadRefusal::Memory,
        _ => ReadRefusal::Corrupt,
    }
}

/// The regions of a file, if the limits allow them.
pub(crate) fn regions_of(
    alloc: Global,
    limits: Limits,
    regions: Regions,
) -> Result<ManagedRegions, ReadRefusal>
    requires { IsCountable limits }
    ensures lawful { OnOk result (are_regions limits regions ≡ true) }
    ensures ok { IfOk result (λ kept. kept ≡ regions) }
    ensures corrupt { IsErrOf result ReadRefusal.Corrupt → are_regions limits regions ≡ false }
{
    let mut kept = ManagedRegions::new(alloc);
    match kept.set(limits, regions) {
        Ok(()) => Ok(kept),
        Err(why) => Err(refusal_of(why)),
    }
}

/// The attributes of a file, if they are lawful and count at most so many bytes.
pub(crate) fn attributes_of(
    alloc: Global,
    attributes: Vec<(AttrName, Bytes)>,
    limit: u64,
) -> Result<DmAttrs, ReadRefusal>
    requires { limit ≤ 2 ^ 32 }
    ensures lawful { OnOk result (are_attributes None attributes.items ≡ true) }
    ensures within { OnOk result (bytes_of_attributes attributes.items ≤ limit) }
    ensures ok { IfOk result (λ kept. kept ≡ attributes.items) }
    ensures attributes { IfOk result AreAttributes }
    ensures eight { IfOk result (λ kept. AllByRecursion (λ a. length a.0.0 ≡ 8) kept) }
    ensures corrupt { IsErrOf result ReadRefusal.Corrupt → are_attributes None attributes.items ≡ true → bytes_of_attributes attributes.items ≤ limit → ⊥ }
{
    let mut kept = DmAttrs::new(alloc);
    let mut before = None;
    for (name, value) in attributes {
        // Read for the eight bytes of each name.
        let _len = name_len(name);
        if !stands_behind(before, name) {
            return Err(ReadRefusal::Corrupt);
        }
        match kept.set(name, value, 0, limit) {
            Ok(()) => before = Some(name),
            Err(why) => return Err(refusal_of(why)),
        }
    }
    // Read for what is true of the attributes of every file.
    let _bytes = kept.bytes();
    Ok(kept)
}

/// Whether the first name stands before the second, if there is one before it.
fn stands_behind(before: Option<AttrName>, name: AttrName) -> bool
    ensures { result ≡ stands_behind before name }
{
    match before {
        Some(before) => before.cmp(&name) == Ordering::Less,
        None => true,
    }
}
