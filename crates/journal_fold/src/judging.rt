//! The judgement of a file that records have changed.
ghost use Rattle.std.specs.Prelude.{◌≡◌, ◌↔◌, [], IsTrue, IfOk};
ghost use Rattle.hsm_types.specs.Limits.{IsCountable};
ghost use Rattle.journal_fold.specs.Judged.{IsAlone};
ghost use Rattle.meta_store.specs.Validity.{can_follow, is_file};
ghost use Rattle.snapshot_text.specs.Snapshots.{raw_file};

use crate::files::FoldedFile;
use hsm_types::{BLOCK_BYTES, Geometry, can_name};
use snapshot_text::{RawFile, ReadRefusal, are_extents, parts_of};
use std::alloc::{AllocError, Global};

/// Whether a file is lawful by itself in a store of that geometry with that next generation.
pub(crate) fn is_alone(
    alloc: Global,
    geometry: Geometry,
    next: u64,
    file: &FoldedFile,
) -> Result<bool, AllocError>
    requires { IsCountable geometry.limits }
    ensures { IfOk result (λ b. IsTrue b ↔ IsAlone geometry next file.now) }
{
    let Some(mut raw) = file.to_raw(alloc)? else {
        return Ok(false);
    };
    if !can_stand(&raw, geometry, next) {
        return Ok(false);
    }
    let room = u64::from(geometry.attributes);
    match parts_of(alloc, geometry.limits, &mut raw, room, geometry.stubs) {
        Ok(_parts) => Ok(true),
        Err(ReadRefusal::Corrupt) => Ok(false),
        Err(ReadRefusal::Memory) => Err(AllocError),
    }
}

/// Whether a file can stand in a store with no other, what sessions keep with it aside.
fn can_stand(file: &RawFile, geometry: Geometry, next: u64) -> bool
    requires { IsCountable geometry.limits }
    ensures { result ≡ can_follow geometry next [] (raw_file file.now) }
{
    1 <= file.key.ino && file.key.ino <= u64::from(geometry.files) && is_file(file, geometry, next)
}

/// Whether what a file says of itself is lawful, what sessions keep with it aside.
fn is_file(file: &RawFile, geometry: Geometry, next: u64) -> bool
    requires { IsCountable geometry.limits }
    ensures { result ≡ is_file geometry next (raw_file file.now) }
{
    if file.key.igen == 0 || next <= file.key.igen || geometry.limits.bytes < file.size {
        return false;
    }
    let count = file.size.div_ceil(BLOCK_BYTES) as u32;
    can_name(file.name.as_slice()) && are_extents(file.extents.as_slice(), count, geometry.blocks)
}
