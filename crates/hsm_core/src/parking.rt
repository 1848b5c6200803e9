//! Accesses that begin to wait, or wait again. Each reply comes twice, for the caller and for the history.
ghost use Rattle.std.specs.Prelude.{◌≡◌, ◌+◌, None, Some, IfOk, IfErr, IfSome, IsSome, OnOk, OnErr};
ghost use Rattle.hsm_types.specs.declared.calls.Reply.TheVariants.{Parked, Blocked};
ghost use Rattle.plain_model.specs.Accesses.{span, told_span};
ghost use Rattle.plain_model.specs.Ledger.{next_token};
ghost use Rattle.dm_service.specs.Parking.{blocked, parked_on, with_access};
ghost use Rattle.dm_service.specs.Services.{AreBoth};
ghost use Rattle.dm_service.specs.Tables.{awaited_in, ledger_of, seen, waiting};
ghost use Rattle.file_store.specs.Stores.{superblock_of};
ghost use Rattle.hsm_core.specs.Outcomes.{MayAsk};

use disk_model::Disk;
use dm_service::{Access, DmService, Facts, NoRoom};
use file_store::FileStore;
use hsm_types::{Call, CallerId, FileKey, Kind, Range, Reply, Token};
use snapshot_text::MetaRefusal;
use std::alloc::{AllocError, Global};

/// Posts an event of that kind for a new access to the file with that key, which parks on its token.
pub(crate) fn wait<D: Disk>(
    files: &FileStore<D>,
    service: &mut DmService,
    alloc: Global,
    caller: CallerId,
    key: FileKey,
    access: &Access,
    facts: &Facts,
    kind: Kind,
) -> Result<(Reply, Reply), MetaRefusal>
    requires idle { waiting service.old caller ≡ None }
    requires asks { MayAsk access.now.call kind }
    ensures reply { IfOk result (λ r. AreBoth (Parked (next_token (ledger_of service.old))) r) }
    ensures after { OnOk result (seen service.new ≡ parked_on caller (record access.now { key = key }) kind (record { fsid = (superblock_of files.now).fsid; key = key }) (told_span access.now.call facts.now.short kind) (seen service.old)) }
    ensures err { OnErr result (service.new ≡ service.old) }
    ensures memory { IfErr result (λ why. why ≡ MetaRefusal.Memory) }
    ensures counted { OnOk result (awaited_in service.new ≡ awaited_in service.old + 2) }
{
    let waits = to_file(access, key)?;
    let told = told_span(&access.call, facts.short, kind);
    let handle = dm_handles::make(files.superblock().fsid, key);
    let token = service.park_on(alloc, caller, waits, kind, handle, told)?;
    Ok((Reply::Parked { token }, Reply::Parked { token }))
}

/// Posts an event of that kind for the caller's access that waits, which parks on its token.
pub(crate) fn wait_again<D: Disk>(
    files: &FileStore<D>,
    service: &mut DmService,
    alloc: Global,
    caller: CallerId,
    facts: &Facts,
    kind: Kind,
) -> Result<(Reply, Reply), MetaRefusal>
    requires waits { IsSome (waiting service.old caller) }
    requires asks { IfSome (waiting service.old caller) (λ a. MayAsk a.call kind) }
    ensures reply { IfOk result (λ r. AreBoth (Parked (next_token (ledger_of service.old))) r) }
    ensures after { OnOk result (IfSome (waiting service.old caller) (λ a. seen service.new ≡ parked_on caller a kind (record { fsid = (superblock_of files.now).fsid; key = a.key }) (told_span a.call facts.now.short kind) (seen service.old))) }
    ensures err { OnErr result (service.new ≡ service.old) }
    ensures memory { IfErr result (λ why. why ≡ MetaRefusal.Memory) }
    ensures counted { OnOk result (awaited_in service.new ≡ awaited_in service.old + 1) }
{
    let access = service.pending(caller).unwrap();
    let told = told_span(&access.call, facts.short, kind);
    let handle = dm_handles::make(files.superblock().fsid, access.key);
    let token = service.park_again(alloc, caller, kind, handle, told)?;
    Ok((Reply::Parked { token }, Reply::Parked { token }))
}

/// Blocks a new access to the file with that key, since that token has a right that excludes it.
pub(crate) fn block(
    service: &mut DmService,
    caller: CallerId,
    key: FileKey,
    access: &Access,
    token: Token,
) -> Result<(Reply, Reply), MetaRefusal>
    requires { waiting service.old caller ≡ None }
    ensures reply { IfOk result (λ r. AreBoth (Blocked token) r) }
    ensures after { OnOk result (seen service.new ≡ with_access caller (Some (blocked (record access.now { key = key }))) (seen service.old)) }
    ensures err { OnErr result (service.new ≡ service.old) }
    ensures memory { IfErr result (λ why. why ≡ MetaRefusal.Memory) }
    ensures counted { OnOk result (awaited_in service.new ≡ awaited_in service.old + 1) }
{
    service.block(caller, to_file(access, key)?);
    Ok((Reply::Blocked { token }, Reply::Blocked { token }))
}

/// Blocks the caller's access that waits, since that token has a right that excludes it. This takes no memory.
pub(crate) fn block_again(service: &mut DmService, caller: CallerId, token: Token) -> (Reply, Reply)
    requires { IsSome (waiting service.old caller) }
    ensures reply { AreBoth (Blocked token) result }
    ensures after { IfSome (waiting service.old caller) (λ a. seen service.new ≡ with_access caller (Some (blocked a)) (seen service.old)) }
    ensures counted { awaited_in service.new ≡ awaited_in service.old }
{
    service.block_again(caller);
    (Reply::Blocked { token }, Reply::Blocked { token })
}

/// A copy of the access, as one to the file with that key.
fn to_file(access: &Access, key: FileKey) -> Result<Access, AllocError>
    ensures { IfOk result (λ a. a ≡ record access.now { key = key }) }
{
    Ok(Access {
        key,
        call: access.call.clone()?,
        cleared: access.cleared,
        spaced: access.spaced,
        token: access.token,
        answer: access.answer,
    })
}

/// The two numbers that the message of an event of that kind tells: the span of the access, or for want of space the blocks needed and free.
fn told_span(call: &Call, short: Option<NoRoom>, kind: Kind) -> Range
    ensures { result ≡ told_span call.now short kind }
{
    match (kind, short) {
        (Kind::NoSpace, Some(room)) => Range {
            offset: room.need,
            len: room.free,
        },
        (Kind::NoSpace, None) => Range { offset: 0, len: 0 },
        _ => span(call),
    }
}

/// The offset and the length of an access; of a truncate the new size and 0.
fn span(call: &Call) -> Range
    ensures { result ≡ span call.now }
{
    match call {
        Call::Read { offset, len, .. } => Range {
            offset: *offset,
            len: *len,
        },
        Call::Write { offset, body, .. } => Range {
            offset: *offset,
            len: body.as_slice().len() as u64,
        },
        Call::Truncate { size, .. } => Range {
            offset: *size,
            len: 0,
        },
        _ => Range { offset: 0, len: 0 },
    }
}
