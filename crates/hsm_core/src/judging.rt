//! The file that a call means, what refuses the call by its words and the names of the files, and the facts by which it is judged then. This takes no
//! memory.
ghost use Rattle.std.specs.Prelude.{◌≡◌, ◌≤◌, false, None, IfOk, MatchOption};
ghost use Rattle.hsm_types.specs.Keyed.{find_key};
ghost use Rattle.hsm_types.specs.Limits.{widest_limits};
ghost use Rattle.plain_model.specs.Plain.{named, key_or_none, missing, refusal_of};
ghost use Rattle.plain_model.specs.Accesses.{kind_of, reach};
ghost use Rattle.plain_model.specs.State.{names_of, file_at, used};
ghost use Rattle.plain_model.specs.Verdict.{touches_as, shortage};
ghost use Rattle.file_store.specs.Stores.{superblock_of};
ghost use Rattle.dm_service.specs.Services.{Judges};
ghost use Rattle.hsm_core.specs.Targets.{AreKnown, IsTarget, IsMeant, IsBounded};

use crate::lookups;
use crate::needs::needs_segment;
use crate::refusals::{
    judge_absence, judge_inodes, judge_length, judge_name, judge_size, judge_written_size,
};
use crate::room::short_of;
use disk_model::Disk;
use dm_service::{Facts, NoRoom, kind_of};
use file_body::{touched_by_truncate, touched_by_write};
use file_store::FileStore;
use hsm_types::{Call, CallRefusal, FileKey, Range, Word};

/// A live file that a call means.
#[derive(Clone, Copy)]
pub(crate) struct Target {
    pub(crate) key: FileKey,
    /// In bytes.
    pub(crate) size: u64,
}

/// The file that a call means, if it means one, unless its words or the names of the files refuse it.
#[tactic(auto, using(crate::proofs::Refusing::passes, crate::proofs::Refusing::stops))]
pub(crate) fn meant<D: Disk>(
    files: &FileStore<D>,
    call: &Call,
) -> Result<Option<Target>, CallRefusal>
    ensures judged { Judges result (refusal_of (superblock_of files.now) (names_of files.now.held.files) call.now) }
    ensures meant { IfOk result (λ target. IsMeant files.now.held.files call.now target) }
{
    match call {
        Call::Create { name } => {
            judge_name(name)?;
            judge_absence(files, name)?;
            judge_inodes(files)?;
            Ok(None)
        }
        Call::Read { name, len, .. } => {
            judge_name(name)?;
            judge_length(*len)?;
            Ok(Some(find(files, name)?))
        }
        Call::Write { name, offset, body } => {
            let len = body.as_slice().len() as u64;
            judge_name(name)?;
            judge_length(len)?;
            let target = find(files, name)?;
            judge_written_size(files, *offset, len)?;
            Ok(Some(target))
        }
        Call::Truncate { name, size } => {
            judge_name(name)?;
            let target = find(files, name)?;
            judge_size(files, *size)?;
            Ok(Some(target))
        }
        Call::Remove { name } | Call::Stat { name } => {
            judge_name(name)?;
            Ok(Some(find(files, name)?))
        }
        Call::Sync => Ok(None),
    }
}

/// The file with that name.
fn find<D: Disk>(files: &FileStore<D>, name: &Word) -> Result<Target, CallRefusal>
    ensures judged { Judges result (missing name.now (names_of files.now.held.files)) }
    ensures target { IfOk result (λ t. IsTarget files.now.held.files (key_or_none (named name.now (names_of files.now.held.files))) t) }
{
    match lookups::find(files, name) {
        Some(key) => Ok(Target {
            key,
            size: files.size(key),
        }),
        None => Err(CallRefusal::Missing),
    }
}

/// The file with that key, if it lives.
pub(crate) fn find_again<D: Disk>(files: &FileStore<D>, key: FileKey) -> Option<Target>
    ensures { MatchOption result (find_key (λ f. f.key) key files.now.held.files ≡ None) (λ t. IsTarget files.now.held.files key t) }
{
    if lookups::is_live(files, key) {
        Some(Target {
            key,
            size: files.size(key),
        })
    } else {
        None
    }
}

/// The facts of a call on that file.
pub(crate) fn facts<D: Disk>(files: &FileStore<D>, target: Target, call: &Call) -> Facts
    requires target { IsTarget files.now.held.files target.key target }
    requires bounded { IsBounded (superblock_of files.now).geometry.limits call.now }
    ensures { AreKnown (superblock_of files.now) files.now.held target.key call.now result }
{
    // Read for what the code can count.
    let _superblock = files.superblock();
    Facts {
        live: true,
        touches: touches_region(files, target, call),
        needs: needs_segment(files, target, call),
        short: shortage(files, target, call),
    }
}

/// The facts of a call on a file that is gone.
pub(crate) fn no_facts() -> Facts
    ensures { result ≡ record { live = false; touches = false; needs = false; short = None } }
{
    Facts {
        live: false,
        touches: false,
        needs: false,
        short: None,
    }
}

/// Whether the call touches a region of the file with the flag of its kind.
fn touches_region<D: Disk>(files: &FileStore<D>, target: Target, call: &Call) -> bool
    requires target { IsTarget files.now.held.files target.key target }
    requires bounded { IsBounded widest_limits call.now }
    ensures { result ≡ touches_as (kind_of call.now) (file_at target.key files.now.held.files) call.now }
{
    let Some(kind) = kind_of(call) else {
        return false;
    };
    let regions = files.meta().catalog().regions(target.key);
    regions.touches(reach(target.size, call), kind)
}

/// The bytes of a file of that size that the call reaches.
fn reach(size: u64, call: &Call) -> Range
    requires { IsBounded widest_limits call.now }
    ensures { result ≡ reach size call.now }
{
    match call {
        Call::Read { offset, len, .. } => Range {
            offset: *offset,
            len: offset
                .saturating_add(*len)
                .min(size)
                .saturating_sub(*offset),
        },
        Call::Write { offset, body, .. } => {
            let start = (*offset).min(size);
            Range {
                offset: start,
                len: *offset + body.as_slice().len() as u64 - start,
            }
        }
        Call::Truncate { size: to, .. } => {
            let start = (*to).min(size);
            Range {
                offset: start,
                len: (*to).max(size) - start,
            }
        }
        _ => Range { offset: 0, len: 0 },
    }
}

/// The blocks that the call touches and those that are free, where these are fewer.
fn shortage<D: Disk>(files: &FileStore<D>, target: Target, call: &Call) -> Option<NoRoom>
    requires target { IsTarget files.now.held.files target.key target }
    requires bounded { IsBounded widest_limits call.now }
    ensures short { result ≡ shortage (superblock_of files.now) files.now.held target.key call.now }
    ensures mapped { used files.now.held.files ≤ (superblock_of files.now).geometry.blocks }
{
    let need = match call {
        Call::Write { offset, body, .. } => {
            touched_by_write(target.size, *offset, body.as_slice().len() as u64).count()
        }
        Call::Truncate { size, .. } => touched_by_truncate(target.size, *size).count(),
        _ => 0,
    };
    short_of(files, need)
}
