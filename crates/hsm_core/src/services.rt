//! Answers to sessions: a call is judged by its scope, and then by itself. Each reply comes twice, for the session and for the history.
ghost use Rattle.std.specs.Prelude.{◌≡◌, ◌≤◌, ◌+◌, false, true, None, IfOk, IsOk, OnOk, OnErr};
ghost use Rattle.disk_model.specs.Moments.{Tells};
ghost use Rattle.hsm_types.specs.Calls.{scope_of};
ghost use Rattle.plain_model.specs.Exact.{left_told};
ghost use Rattle.plain_model.specs.Seen.{IsOfSeen};
ghost use Rattle.plain_model.specs.Services.{dm_reply_to};
ghost use Rattle.plain_model.specs.Stands.{InOrder};
ghost use Rattle.dm_service.specs.Handing.{HandsOut};
ghost use Rattle.dm_service.specs.Services.{AreBoth, asks_rights, asks_tables, entries_for, is_due, wants_entry_alone};
ghost use Rattle.dm_service.specs.Tables.{Tables, awaited_in};
ghost use Rattle.file_store.specs.Stores.{superblock_of, Proceeds};
ghost use Rattle.file_store.specs.Changes.{Ends};
ghost use Rattle.hsm_core.specs.Store.{state_with};
ghost use Rattle.hsm_core.specs.Services.{AreOf, IsInScope, IsPerformed, IsServedByFiles, asked, changes_file, reads_bytes};

mod attributes;
mod handles;
mod invisible;
mod moving;
mod ranges;
mod regions;
mod replies;
mod rights;
mod scope;
mod segments;
mod space;
mod tables;

use disk_model::Disk;
use dm_service::{DmService, asks_rights, asks_tables};
use file_store::FileStore;
use hsm_types::{DmCall, DmReply, FileKey, Sid};
use indexmap::IndexMap;
use replies::refused;
use scope::judge_scope;
use snapshot_text::MetaRefusal;
use std::alloc::{AllocError, Global};
pub(crate) use tables::table_of;

/// Answers a session's call. The number is that of the last entry before it.
pub(crate) fn serve<D: Disk>(
    files: &mut FileStore<D>,
    stamps: &IndexMap<FileKey, u64>,
    service: &mut DmService,
    alloc: Global,
    sid: Sid,
    call: &DmCall,
    number: u64,
) -> Result<(DmReply, DmReply), MetaRefusal>
    requires working { files.old.failed ≡ false }
    requires idle { Proceeds D.Disk files.old number files.old }
    requires rises { files.old.meta.number ≤ number }
    requires ordered { InOrder (state_with files.old.held stamps.now.entries service.old number) }
    ensures replies { IfOk result (λ r. IsOfSeen (Tells D.Disk files.new.disk) files.old.held (λ seen. AreBoth (dm_reply_to (superblock_of files.old) (state_with seen stamps.now.entries service.old number) sid call.now) r)) }
    ensures left { IfOk result (λ r. state_with files.new.held stamps.now.entries service.new (number + 1) ≡ left_told (state_with files.old.held stamps.now.entries service.old number) sid call.now r.1) }
    ensures err { OnErr result (service.new ≡ service.old) }
    ensures packed { IfOk result (λ r. HandsOut service.old.sessions sid call.now r.0) }
    ensures responds { is_due service.old.sessions sid call.now ≡ true → IsOk result }
    ensures alone { wants_entry_alone call.now ≡ true → IsOk result }
    ensures room { OnOk result (awaited_in service.new + 1 ≤ awaited_in service.old + entries_for service.old.sessions sid call.now) }
    ensures ends { Ends D.Disk files.old number None result files.new }
{
    if asks_tables(call) {
        return Ok(service.dm(alloc, sid, call)?);
    }
    if let Err(why) = judge_scope(files, service, sid, call.scope()) {
        return Ok(refused(why));
    }
    if asks_rights(call) {
        return Ok(rights::serve(service, call)?);
    }
    perform(files, stamps, alloc, sid, call, number)
}

/// Serves a call on files that its scope doesn't refuse.
fn perform<D: Disk>(
    files: &mut FileStore<D>,
    stamps: &IndexMap<FileKey, u64>,
    alloc: Global,
    sid: Sid,
    call: &DmCall,
    number: u64,
) -> Result<(DmReply, DmReply), MetaRefusal>
    requires working { files.old.failed ≡ false }
    requires idle { Proceeds D.Disk files.old number files.old }
    requires rises { files.old.meta.number ≤ number }
    requires files { asks_tables call.now ≡ false }
    requires bodies { asks_rights call.now ≡ false }
    requires within { IsInScope files.old.held.files (scope_of call.now) }
    ensures { (t : Tables) → IsPerformed D.Disk files.old number stamps.now.entries t sid call.now result files.new }
{
    if changes_file(call) {
        return change(files, alloc, call, number);
    }
    if let DmCall::ReadInvis {
        handle,
        offset,
        len,
        ..
    } = call
    {
        return invisible::read(files, alloc, *handle, *offset, *len);
    }
    Ok(tell(files, stamps, alloc, sid, call)?)
}

/// Whether the call changes a file, or what is kept with it.
fn changes_file(call: &DmCall) -> bool
    ensures { result ≡ changes_file call.now }
{
    matches!(
        call,
        DmCall::SetRegion { .. }
            | DmCall::SetDmAttr { .. }
            | DmCall::RemoveDmAttr { .. }
            | DmCall::WriteInvis { .. }
            | DmCall::PunchHole { .. }
            | DmCall::Seal { .. }
            | DmCall::Restore { .. }
    )
}

/// Serves a call that changes a file, or what is kept with it.
fn change<D: Disk>(
    files: &mut FileStore<D>,
    alloc: Global,
    call: &DmCall,
    number: u64,
) -> Result<(DmReply, DmReply), MetaRefusal>
    requires working { files.old.failed ≡ false }
    requires idle { Proceeds D.Disk files.old number files.old }
    requires rises { files.old.meta.number ≤ number }
    requires changes { changes_file call.now ≡ true }
    requires within { IsInScope files.old.held.files (scope_of call.now) }
    ensures { IsServedByFiles D.Disk files.old number call.now result files.new }
{
    match call {
        DmCall::SetRegion {
            handle,
            regions,
            ..
        } => regions::set(files, alloc, *handle, regions, number),
        DmCall::SetDmAttr {
            handle,
            name,
            value,
            ..
        } => attributes::set(files, alloc, *handle, *name, value, number),
        DmCall::RemoveDmAttr { handle, name, .. } => {
            attributes::remove(files, alloc, *handle, *name, number)
        }
        DmCall::WriteInvis {
            handle,
            offset,
            body,
            ..
        } => invisible::write(files, alloc, *handle, *offset, body, number),
        _ => moving::serve(files, alloc, call, number),
    }
}

/// Serves a call on files that changes nothing and reads no bytes.
fn tell<D: Disk>(
    files: &FileStore<D>,
    stamps: &IndexMap<FileKey, u64>,
    alloc: Global,
    sid: Sid,
    call: &DmCall,
) -> Result<(DmReply, DmReply), AllocError>
    requires files { asks_tables call.now ≡ false }
    requires bodies { asks_rights call.now ≡ false }
    requires tells { changes_file call.now ≡ false }
    requires apart { reads_bytes call.now ≡ false }
    requires within { IsInScope files.now.held.files (scope_of call.now) }
    ensures { (t : Tables) → IfOk result (λ r. AreOf (asked (superblock_of files.now) files.now.held stamps.now.entries t sid call.now) r) }
{
    match call {
        DmCall::GetFileAttr { handle, .. } => handles::attributes(files, stamps, *handle),
        DmCall::GetRegion { handle, .. } => regions::list(files, *handle),
        DmCall::GetDmAttr { handle, name, .. } => attributes::value(files, *handle, *name),
        DmCall::GetAllDmAttr { handle, .. } => attributes::list(files, alloc, *handle),
        DmCall::ProbeHole {
            handle,
            offset,
            len,
            ..
        } => segments::probe(files, *handle, *offset, *len),
        DmCall::GetAllocInfo { handle, .. } => segments::allocated(files, alloc, *handle),
        DmCall::PathToHandle { name } => handles::find(files, name),
        DmCall::GetSpace => space::space(files),
        DmCall::GetTable => tables::table(files, stamps, alloc),
        _ => unreachable!(),
    }
}
