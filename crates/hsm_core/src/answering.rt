//! Answers to callers: to the calls that they issue, and to their resumes of accesses that wait. Each reply comes twice, for the caller and for the
//! history.
ghost use Rattle.std.specs.Prelude.{◌≡◌, ◌<◌, ◌≤◌, ◌+◌, ◌^◌, false, true, Some, None, if◌then◌else◌, IfSome, IsSomeAnd, MatchOption, IfOk, OnOk, IsOk};
ghost use Rattle.hsm_types.specs.declared.calls.Call.TheVariants.{Sync};
ghost use Rattle.hsm_types.specs.declared.dm.Response.{Response};
ghost use Rattle.plain_model.specs.declared.entries.Action.TheVariants.{Issue, Resume};
ghost use Rattle.plain_model.specs.declared.entries.Answer.TheVariants.{Call as Replied};
ghost use Rattle.plain_model.specs.Ledger.{Means, goes_on};
ghost use Rattle.plain_model.specs.Plain.{refusal_of};
ghost use Rattle.plain_model.specs.State.{names_of};
ghost use Rattle.plain_model.specs.Stands.{InOrder};
ghost use Rattle.plain_model.specs.Synced.{syncs};
ghost use Rattle.indexmap.specs.IndexMap.{spare};
ghost use Rattle.dm_service.specs.Services.{AreBoth};
ghost use Rattle.dm_service.specs.Tables.{awaited_in, ledger_of, pending_as, waiting};
ghost use Rattle.file_store.specs.Stores.{superblock_of, Proceeds};
ghost use Rattle.hsm_core.specs.Store.{state_with};
ghost use Rattle.hsm_core.specs.Targets.{AreKnown, EachLasts, IsBounded, IsMeant, IsTarget, MayComplete, key_in};
ghost use Rattle.hsm_core.specs.Crashes.{IsSynced};
ghost use Rattle.hsm_core.specs.Outcomes.{ended_by, ends, is_aborted, is_fresh, IsAbort, IsFinished, IsReplied};

use crate::judging::{Target, facts, find_again, meant, no_facts};
use crate::parking::{block, block_again, wait, wait_again};
use crate::performing::{perform, perform_alone};
use crate::stamps::note_access;
use disk_model::Disk;
use dm_service::{Access, DmService, Facts, Verdict};
use file_store::FileStore;
use hsm_types::{Call, CallRefusal, CallerId, FileKey, Reply, Response};
use indexmap::IndexMap;
use snapshot_text::MetaRefusal;
use std::alloc::Global;

/// Answers a call that the caller issues, and renews the stamp of the file that it accesses. The number is that of the last entry before it.
pub(crate) fn answer<D: Disk>(
    files: &mut FileStore<D>,
    stamps: &mut IndexMap<FileKey, u64>,
    service: &mut DmService,
    alloc: Global,
    caller: CallerId,
    access: &Access,
    number: u64,
) -> Result<(Reply, Reply), MetaRefusal>
    requires working { files.old.failed ≡ false }
    requires room { 0 < spare stamps.old }
    requires number { number < 2 ^ 63 }
    requires idle { Proceeds D.Disk files.old number files.old }
    requires rises { files.old.meta.number ≤ number }
    requires fresh { is_fresh access.now ≡ true }
    requires ordered { InOrder (state_with files.old.held stamps.old.entries service.old number) }
    ensures replied { IsReplied D.Disk files.old number stamps.old.entries service.old caller (Issue access.now.call) result files.new stamps.new.entries service.new }
    ensures synced { IfOk result (λ r. syncs (Issue access.now.call) (Replied r.0) ≡ true → IsSynced D.Disk number files.old files.new) }
    ensures room { OnOk result (awaited_in service.new ≤ awaited_in service.old + 2) }
{
    if service.pending(caller).is_some() {
        return Ok(refused(&CallRefusal::Waiting));
    }
    match meant(files, &access.call) {
        Ok(target) => begin(
            files, stamps, service, alloc, caller, target, access, number,
        ),
        Err(why) => Ok(refused(&why)),
    }
}

/// Answers a call that its words and the names of the files don't refuse: it is done, parks, is blocked or is refused.
fn begin<D: Disk>(
    files: &mut FileStore<D>,
    stamps: &mut IndexMap<FileKey, u64>,
    service: &mut DmService,
    alloc: Global,
    caller: CallerId,
    target: Option<Target>,
    access: &Access,
    number: u64,
) -> Result<(Reply, Reply), MetaRefusal>
    requires working { files.old.failed ≡ false }
    requires room { 0 < spare stamps.old }
    requires number { number < 2 ^ 63 }
    requires idle { Proceeds D.Disk files.old number files.old }
    requires rises { files.old.meta.number ≤ number }
    requires fresh { is_fresh access.now ≡ true }
    requires ordered { InOrder (state_with files.old.held stamps.old.entries service.old number) }
    requires none { waiting service.old caller ≡ None }
    requires lawful { refusal_of (superblock_of files.old) (names_of files.old.held.files) access.now.call ≡ None }
    requires meant { IsMeant files.old.held.files access.now.call target }
    ensures replied { IsReplied D.Disk files.old number stamps.old.entries service.old caller (Issue access.now.call) result files.new stamps.new.entries service.new }
    ensures synced { access.now.call ≡ Sync → OnOk result (IsSynced D.Disk number files.old files.new) }
    ensures room { OnOk result (awaited_in service.new ≤ awaited_in service.old + 2) }
{
    let Some(file) = target else {
        // Creates and syncs never wait.
        return perform_alone(files, alloc, &access.call, number);
    };
    let facts = facts(files, file, &access.call);
    let verdict = service.judge(file.key, access, &facts);
    match verdict {
        Verdict::Post(kind) => wait(
            files, service, alloc, caller, file.key, access, &facts, kind,
        ),
        Verdict::Block(token) => block(service, caller, file.key, access, token),
        _ => finish(files, stamps, alloc, target, access, verdict, number),
    }
}

/// Answers a resume of the caller's access that waits. To end one that was aborted takes no memory.
pub(crate) fn answer_again<D: Disk>(
    files: &mut FileStore<D>,
    stamps: &mut IndexMap<FileKey, u64>,
    service: &mut DmService,
    alloc: Global,
    caller: CallerId,
    number: u64,
) -> Result<(Reply, Reply), MetaRefusal>
    requires working { files.old.failed ≡ false }
    requires room { is_aborted (waiting service.old caller) ≡ false → 0 < spare stamps.old }
    requires number { number < 2 ^ 63 }
    requires idle { Proceeds D.Disk files.old number files.old }
    requires rises { files.old.meta.number ≤ number }
    requires ordered { InOrder (state_with files.old.held stamps.old.entries service.old number) }
    requires lasts { EachLasts (superblock_of files.old).geometry.limits (ledger_of service.old) }
    ensures replied { IsReplied D.Disk files.old number stamps.old.entries service.old caller Resume result files.new stamps.new.entries service.new }
    ensures aborts { is_aborted (waiting service.old caller) ≡ true → IsOk result }
    ensures room { OnOk result (awaited_in service.new + 1 ≤ awaited_in service.old + (if is_aborted (waiting service.old caller) then 0 else 2)) }
{
    let Some(access) = service.pending(caller) else {
        return Ok(refused(&CallRefusal::Idle));
    };
    if let (Some(token), None) = (access.token, access.answer) {
        return Ok((Reply::Still { token }, Reply::Still { token }));
    }
    go_on(files, stamps, service, alloc, caller, number)
}

/// Judges an access again that waits for no response: it ends, or waits again.
fn go_on<D: Disk>(
    files: &mut FileStore<D>,
    stamps: &mut IndexMap<FileKey, u64>,
    service: &mut DmService,
    alloc: Global,
    caller: CallerId,
    number: u64,
) -> Result<(Reply, Reply), MetaRefusal>
    requires working { files.old.failed ≡ false }
    requires room { is_aborted (waiting service.old caller) ≡ false → 0 < spare stamps.old }
    requires number { number < 2 ^ 63 }
    requires idle { Proceeds D.Disk files.old number files.old }
    requires rises { files.old.meta.number ≤ number }
    requires lasts { EachLasts (superblock_of files.old).geometry.limits (ledger_of service.old) }
    requires waits { IsSomeAnd (waiting service.old caller) (λ a. goes_on (pending_as a) a.token a.answer ≡ Means a.key a.call) }
    ensures replied { IsReplied D.Disk files.old number stamps.old.entries service.old caller Resume result files.new stamps.new.entries service.new }
    ensures aborts { is_aborted (waiting service.old caller) ≡ true → IsOk result }
    ensures room { OnOk result (awaited_in service.new + 1 ≤ awaited_in service.old + (if is_aborted (waiting service.old caller) then 0 else 2)) }
{
    let access = service.pending(caller).unwrap();
    let target = find_again(files, access.key);
    let facts = facts_again(files, target, &access.call);
    let verdict = service.judge(access.key, access, &facts);
    match verdict {
        Verdict::Post(kind) => wait_again(files, service, alloc, caller, &facts, kind),
        Verdict::Block(token) => Ok(block_again(service, caller, token)),
        _ => {
            let replies = finish(files, stamps, alloc, target, access, verdict, number)?;
            let _ended = service.end(caller);
            Ok(replies)
        }
    }
}

/// The facts of a call on that file, or on one that is gone.
fn facts_again<D: Disk>(files: &FileStore<D>, target: Option<Target>, call: &Call) -> Facts
    requires bounded { IsBounded (superblock_of files.now).geometry.limits call.now }
    requires target { IfSome target (λ t. IsTarget files.now.held.files t.key t) }
    ensures { MatchOption target (result ≡ record { live = false; touches = false; needs = false; short = None })
        (λ t. AreKnown (superblock_of files.now) files.now.held t.key call.now result) }
{
    match target {
        Some(target) => facts(files, target, call),
        None => no_facts(),
    }
}

/// Ends an access by the verdict on it: it is done, or refused.
fn finish<D: Disk>(
    files: &mut FileStore<D>,
    stamps: &mut IndexMap<FileKey, u64>,
    alloc: Global,
    target: Option<Target>,
    access: &Access,
    verdict: Verdict,
    number: u64,
) -> Result<(Reply, Reply), MetaRefusal>
    requires working { files.old.failed ≡ false }
    requires room { verdict ≡ Verdict.Complete → 0 < spare stamps.old }
    requires number { number < 2 ^ 63 }
    requires idle { Proceeds D.Disk files.old number files.old }
    requires rises { files.old.meta.number ≤ number }
    requires ends { ends verdict ≡ true }
    requires complete { verdict ≡ Verdict.Complete → MayComplete (superblock_of files.old) files.old.held access.now.call target }
    requires aborted { (response : Response) → verdict ≡ Verdict.Answered response → IsAbort response }
    ensures { IsFinished D.Disk files.old number stamps.old.entries (key_in target) access.now.call verdict result files.new stamps.new.entries }
{
    let why = match verdict {
        Verdict::Complete => {
            let replies = perform(files, alloc, target.unwrap(), &access.call, number)?;
            note_access(stamps, target, &access.call, number + 1);
            return Ok(replies);
        }
        Verdict::Post(_) | Verdict::Block(_) => unreachable!(),
        Verdict::NoSpace { need, free } => CallRefusal::NoSpace { need, free },
        Verdict::Missing => CallRefusal::Missing,
        Verdict::Answered(response) => ended_by(response),
    };
    Ok(refused(&why))
}

/// What is told of an access that was aborted.
fn ended_by(response: Response) -> CallRefusal
    requires { IsAbort response }
    ensures { result ≡ ended_by response }
{
    match response {
        Response::Abort(errno) => CallRefusal::Aborted { errno: errno as u8 },
        Response::Media(cause) => CallRefusal::Media { cause },
        Response::Continue => CallRefusal::Missing,
    }
}

/// The replies to a call that is refused.
fn refused(why: &CallRefusal) -> (Reply, Reply)
    ensures { AreBoth (Reply.Refused why.now) result }
{
    (Reply::Refused(*why), Reply::Refused(*why))
}
