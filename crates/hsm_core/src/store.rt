//! The store with its history.
ghost use Rattle.std.specs.Prelude.{◌≡◌, ◌⊎◌, ◌<◌, ◌≤◌, ◌+◌, ◌^◌, ◌++◌, [], ◌∷◌, true, false, if◌then◌else◌, List, ℕ, is_some, vec_len, vec_capacity};
ghost use Rattle.std.specs.Prelude.{IfOk, IfErr, OnOk, IsOk, IsErrOf};
ghost use Rattle.disk_model.specs.Calls.{Counts, HasCause};
ghost use Rattle.disk_model.specs.Images.{Alike};
ghost use Rattle.disk_model.specs.Moments.{MayBe, LeavesOnly, Keeps, Same};
ghost use Rattle.commit_slots.specs.Images.{IsStore, IsEmptyStore};
ghost use Rattle.commit_slots.specs.Places.{layout_of};
ghost use Rattle.snapshot_text.specs.Files.{geometry_of};
ghost use Rattle.meta_store.specs.Images.{IsCorruptAt};
ghost use Rattle.file_store.specs.Stores.{IsLawful, IsDurable, Proceeds};
ghost use Rattle.indexmap.specs.IndexMap.{spare};
ghost use Rattle.hsm_types.specs.Messages.{no_token};
ghost use Rattle.hsm_types.specs.Rights.{conflict};
ghost use Rattle.plain_model.specs.Accesses.{need_of};
ghost use Rattle.hsm_types.specs.Keyed.{find_key};
ghost use Rattle.plain_model.specs.State.{used};
ghost use Rattle.dm_service.specs.Handing.{HandsOut};
ghost use Rattle.dm_service.specs.Services.{entries_for, is_due, wants_entry_alone};
ghost use Rattle.dm_service.specs.Tables.{AreNew, waiting};
ghost use Rattle.hsm_core.specs.Answers.{entry_of, own_answer, IsAnswered, IsResumed, IsTold, IsCommitted};
ghost use Rattle.hsm_core.specs.Crashes.{IsPrefix, IsSafeNow};
ghost use Rattle.hsm_core.specs.Kept.{IsKept};
ghost use Rattle.hsm_core.specs.Outcomes.{is_aborted, is_fresh, IfAborted};
ghost use Rattle.hsm_core.specs.Store.{KeepsRoom};
ghost use Rattle.hsm_core.specs.Ready.{blocked_by, ready, told_ready};
ghost use Rattle.hsm_core.specs.Summaries.{offline_of};

use crate::answering::{answer, answer_again};
use crate::lookups::is_live;
use crate::performing::commit;
use crate::services::serve;
use crate::stamps::make_room;
use crate::totals::offline_of;
use commit_slots::CommitSlots;
use disk_model::{Disk, Failed, OpenRefusal};
use dm_service::{Access, DmService};
use file_store::FileStore;
use hsm_types::{
    Call, CallRefusal, CallerId, DmCall, DmRefusal, DmReply, FileKey, Reply, Response, Sid, Token,
};
use indexmap::IndexMap;
use plain_model::{Action, Actor, Answer, Entry, History, run_is_good};
use snapshot_text::MetaRefusal;
use std::alloc::{AllocError, Global};
use std::marker::Model;
use std::snapshot::Snapshot;

/// What a resume of a caller would come to.
#[derive(Clone, Copy, PartialEq, Eq)]
pub enum Ready {
    /// No access of the caller waits.
    Idle,
    /// Its access would wait on, for the response to this token, or for the end of a right that this token has.
    Waits(Token),
    /// Its access would end or park again, or the caller would be told that the disk has failed.
    Now,
}

/// A store on its disk. Its history has each answer that the store has given since it was opened.
#[derive(Drop)]
pub struct Hsm<D: Disk> {
    files: FileStore<D>,
    opened: Snapshot<FileStore<D>>,
    /// The number of the snapshot that was opened.
    base: u64,
    stamps: IndexMap<FileKey, u64>,
    service: DmService,
    /// It has room for each response and each resume that may come.
    history: Vec<Entry>,
}

impl<D: Disk> Model for Hsm<D> {
    ghost use Rattle.std.specs.Prelude.{◌≡◌, ◌≤◌, ◌+◌, ◌-◌, vec_len, vec_capacity};
    ghost use Rattle.hsm_types.specs.Limits.{last_number};
    ghost use Rattle.dm_service.specs.Tables.{awaited_in, ledger_of, waiting};
    ghost use Rattle.plain_model.specs.State.{just_opened};
    ghost use Rattle.file_store.specs.Stores.{superblock_of};
    ghost use Rattle.hsm_core.specs.Store.{Store, HasRun};
    ghost use Rattle.hsm_core.specs.Packed.{ArePacked};
    ghost use Rattle.hsm_core.specs.Crashes.{IsSafe};
    ghost use Rattle.hsm_core.specs.Targets.{EachLasts};

    ghost Value = { Store D };

    ghost view = { λ h. record { opened = h.opened.value; files = h.files; stamps = h.stamps.entries; tables = h.service; history = h.history.items; spare = vec_capacity h.history - (vec_len h.history + awaited_in h.service) } };

    ghost invariant = { λ h. HasRun D.Disk (record { opened = h.opened.value; files = h.files; stamps = h.stamps.entries; tables = h.service; history = h.history.items; spare = vec_capacity h.history - (vec_len h.history + awaited_in h.service) })
        × IsSafe D.Disk (record { opened = h.opened.value; files = h.files; stamps = h.stamps.entries; tables = h.service; history = h.history.items; spare = vec_capacity h.history - (vec_len h.history + awaited_in h.service) })
        × (h.base ≡ h.opened.value.meta.number) × (h.base ≤ last_number)
        × (vec_len h.history + awaited_in h.service ≤ vec_capacity h.history) × EachLasts (superblock_of h.opened.value).geometry.limits (ledger_of h.service)
        × ArePacked (superblock_of h.opened.value) (just_opened h.opened.value.meta.number h.opened.value.held) h.history.items };
}

/// Makes room for `more` entries beside the awaited ones, which are set apart, unless a call of the disk has failed before.
fn make_ready<D: Disk>(
    files: &FileStore<D>,
    history: &mut Vec<Entry>,
    awaited: usize,
    more: usize,
) -> Result<(), MetaRefusal>
    ensures same { history.new.items ≡ history.old.items }
    ensures room { OnOk result ((vec_len history.new + awaited + more ≤ vec_capacity history.new) × (awaited + more < 2 ^ 64)) }
    ensures keeps { vec_capacity history.old ≤ vec_capacity history.new }
    ensures there { files.now.failed ≡ false → vec_len history.old + awaited + more ≤ vec_capacity history.old → IsOk result }
    ensures working { OnOk result (files.now.failed ≡ false) }
    ensures idle { files.now.failed ≡ false → (n : ℕ) → Proceeds D.Disk files.now n files.now }
    ensures refused { IfErr result (λ why. (why ≡ MetaRefusal.Disk) × (files.now.failed ≡ true) ⊎ (why ≡ MetaRefusal.Memory) × (files.now.failed ≡ false)) }
{
    if files.has_failed() {
        return Err(MetaRefusal::Disk);
    }
    let entries = awaited.checked_add(more).ok_or(MetaRefusal::Memory)?;
    history.reserve(entries)?;
    Ok(())
}

/// Makes room for the entry and the stamp of a call, and for a response and a resume if it has to wait, unless a call of the disk has failed before.
fn make_ready_for_access<D: Disk>(
    files: &FileStore<D>,
    history: &mut Vec<Entry>,
    awaited: usize,
    stamps: &mut IndexMap<FileKey, u64>,
) -> Result<(), MetaRefusal>
    ensures same { history.new.items ≡ history.old.items }
    ensures stamps { stamps.new.entries ≡ stamps.old.entries }
    ensures room { OnOk result ((vec_len history.new + awaited + 3 ≤ vec_capacity history.new) × (0 < spare stamps.new)) }
    ensures keeps { vec_capacity history.old ≤ vec_capacity history.new }
    ensures working { OnOk result (files.now.failed ≡ false) }
    ensures idle { files.now.failed ≡ false → (n : ℕ) → Proceeds D.Disk files.now n files.now }
    ensures refused { IfErr result (λ why. (why ≡ MetaRefusal.Disk) × (files.now.failed ≡ true) ⊎ (why ≡ MetaRefusal.Memory) × (files.now.failed ≡ false)) }
{
    make_ready(files, history, awaited, 3)?;
    make_room(stamps)?;
    Ok(())
}

/// Makes room for a resume, unless a call of the disk has failed before. One of an aborted access needs none: its entry is set apart, and it renews no
/// stamp.
fn make_ready_to_resume<D: Disk>(
    files: &FileStore<D>,
    history: &mut Vec<Entry>,
    awaited: usize,
    stamps: &mut IndexMap<FileKey, u64>,
    aborted: bool,
) -> Result<(), MetaRefusal>
    ensures same { history.new.items ≡ history.old.items }
    ensures stamps { stamps.new.entries ≡ stamps.old.entries }
    ensures room { OnOk result (vec_len history.new + awaited + (if aborted then 0 else 2) ≤ vec_capacity history.new) }
    ensures spare { aborted ≡ false → OnOk result (0 < spare stamps.new) }
    ensures keeps { vec_capacity history.old ≤ vec_capacity history.new }
    ensures there { files.now.failed ≡ false → aborted ≡ true → vec_len history.old + awaited ≤ vec_capacity history.old → IsOk result }
    ensures working { OnOk result (files.now.failed ≡ false) }
    ensures idle { files.now.failed ≡ false → (n : ℕ) → Proceeds D.Disk files.now n files.now }
    ensures refused { IfErr result (λ why. (why ≡ MetaRefusal.Disk) × (files.now.failed ≡ true) ⊎ (why ≡ MetaRefusal.Memory) × (files.now.failed ≡ false)) }
{
    if aborted {
        return make_ready(files, history, awaited, 0);
    }
    make_ready(files, history, awaited, 2)?;
    make_room(stamps)?;
    Ok(())
}

/// Whether the caller's access that waits was aborted.
fn is_aborted(service: &DmService, caller: CallerId) -> bool
    ensures { result ≡ is_aborted (waiting service.now caller) }
{
    match service.pending(caller) {
        Some(access) => matches!(access.answer, Some(Response::Abort(_) | Response::Media(_))),
        None => false,
    }
}

/// What a resume of this access would come to.
fn ready_for<D: Disk>(files: &FileStore<D>, service: &DmService, access: &Access) -> Ready
    ensures { result ≡ told_ready files.now.failed (is_some (find_key (λ f. f.key) access.now.key files.now.held.files)) (conflict access.now.key (need_of access.now.call) no_token service.now.rights) access.now.token access.now.answer }
{
    if files.has_failed() {
        return Ready::Now;
    }
    match (access.token, access.answer) {
        (Some(token), None) => Ready::Waits(token),
        (_, Some(Response::Abort(_) | Response::Media(_))) => Ready::Now,
        _ if !is_live(files, access.key) => Ready::Now,
        _ => blocked_by(service.conflict(access.key, &access.call)),
    }
}

/// What a resume would come to of an access that the right of this token excludes, if of one.
fn blocked_by(token: Option<Token>) -> Ready
    ensures { result ≡ blocked_by token }
{
    match token {
        Some(token) => Ready::Waits(token),
        None => Ready::Now,
    }
}

/// The access of a call that has not waited. Its file is found by the name.
fn issued(call: Call) -> Access
    ensures call { result.call ≡ call }
    ensures fresh { is_fresh result ≡ true }
{
    Access {
        key: FileKey { ino: 0, igen: 0 },
        call,
        cleared: false,
        spaced: false,
        token: None,
        answer: None,
    }
}

/// The reply to a call that wasn't done.
fn undone(why: MetaRefusal) -> Reply
    ensures memory { why ≡ MetaRefusal.Memory → result ≡ Reply.Refused CallRefusal.Memory }
    ensures failed { why ≡ MetaRefusal.Disk → result ≡ Reply.Refused CallRefusal.Disk }
{
    match why {
        MetaRefusal::Disk => Reply::Refused(CallRefusal::Disk),
        _ => Reply::Refused(CallRefusal::Memory),
    }
}

/// The reply to a session's call that wasn't done.
fn unserved(why: MetaRefusal) -> DmReply
    ensures memory { why ≡ MetaRefusal.Memory → result ≡ DmReply.Refused DmRefusal.Memory }
    ensures failed { why ≡ MetaRefusal.Disk → result ≡ DmReply.Refused DmRefusal.Disk }
{
    match why {
        MetaRefusal::Disk => DmReply::Refused(DmRefusal::Disk),
        _ => DmReply::Refused(DmRefusal::Memory),
    }
}

/// Adds an entry to the history, which has room for it.
fn note(history: &mut Vec<Entry>, actor: Actor, action: Action, answer: Answer)
    requires { vec_len history.old < vec_capacity history.old }
    ensures noted { history.new.items ≡ history.old.items ++ entry_of actor action answer ∷ [] }
    ensures room { vec_capacity history.old ≤ vec_capacity history.new }
{
    history
        .push(Entry {
            actor,
            action,
            answer,
        })
        .unwrap();
}

/// Records a caller's event, or the store's, in the history, which has room for it, and answers it. Nothing is recorded of one that lacked memory.
fn record_event(
    history: &mut Vec<Entry>,
    actor: Actor,
    action: Action,
    done: Result<(Reply, Reply), MetaRefusal>,
) -> Reply
    requires { vec_len history.old < vec_capacity history.old }
    ensures recorded { IfOk done (λ r. (result ≡ r.0) × (history.new.items ≡ history.old.items ++ entry_of actor action (Answer.Call r.1) ∷ [])) }
    ensures room { vec_capacity history.old ≤ vec_capacity history.new }
    ensures memory { IsErrOf done MetaRefusal.Memory → (result ≡ Reply.Refused CallRefusal.Memory) × (history.new.items ≡ history.old.items) }
    ensures failed { IsErrOf done MetaRefusal.Disk → (result ≡ Reply.Refused CallRefusal.Disk) × (history.new.items ≡ history.old.items ++ entry_of actor action (Answer.Call (Reply.Refused CallRefusal.Disk)) ∷ []) }
{
    let (reply, again) = match done {
        Ok(replies) => replies,
        Err(MetaRefusal::Disk) => (
            Reply::Refused(CallRefusal::Disk),
            Reply::Refused(CallRefusal::Disk),
        ),
        Err(_) => return Reply::Refused(CallRefusal::Memory),
    };
    note(history, actor, action, Answer::Call(again));
    reply
}

/// Records a session's call in the history, which has room for it, and answers it. Nothing is recorded of one that lacked memory.
fn record_dm(
    history: &mut Vec<Entry>,
    sid: Sid,
    call: DmCall,
    done: Result<(DmReply, DmReply), MetaRefusal>,
) -> DmReply
    requires { vec_len history.old < vec_capacity history.old }
    ensures recorded { IfOk done (λ r. (result ≡ r.0) × (history.new.items ≡ history.old.items ++ entry_of (Actor.Session sid) (Action.Dm call) (Answer.Dm r.1) ∷ [])) }
    ensures room { vec_capacity history.old ≤ vec_capacity history.new }
    ensures memory { IsErrOf done MetaRefusal.Memory → (result ≡ DmReply.Refused DmRefusal.Memory) × (history.new.items ≡ history.old.items) }
    ensures failed { IsErrOf done MetaRefusal.Disk → (result ≡ DmReply.Refused DmRefusal.Disk) × (history.new.items ≡ history.old.items ++ entry_of (Actor.Session sid) (Action.Dm call) (Answer.Dm (DmReply.Refused DmRefusal.Disk)) ∷ []) }
{
    let (reply, again) = match done {
        Ok(replies) => replies,
        Err(MetaRefusal::Disk) => (
            DmReply::Refused(DmRefusal::Disk),
            DmReply::Refused(DmRefusal::Disk),
        ),
        Err(_) => return DmReply::Refused(DmRefusal::Memory),
    };
    note(
        history,
        Actor::Session(sid),
        Action::Dm(call),
        Answer::Dm(again),
    );
    reply
}

impl<D: Disk> Hsm<D> {
    /// Makes an empty store of geometry 0, small, or 1, large, on the disk. Until this has returned nothing is promised of what a crash leaves.
    pub fn format(disk: &mut D, geometry: u32, fsid: u64) -> Result<(), Failed>
        requires known { geometry ≤ 1 }
        requires length { D.length_of disk.old ≡ (layout_of geometry).whole }
        ensures formatted { OnOk result ((c : List ℕ) → MayBe D.Disk disk.new c → IsEmptyStore geometry fsid c) }
        ensures length { D.length_of disk.new ≡ D.length_of disk.old }
        ensures cause { HasCause result (D.fault_count disk.old) (D.fault_count disk.new) }
    {
        CommitSlots::format(disk, geometry, fsid)
    }

    /// Opens a store that a crash may have ended. It syncs the disk first, and reads all bodies. A refusal hands the disk back.
    pub fn open(alloc: Global, disk: D) -> Result<Hsm<D>, (OpenRefusal, D)>
        // Nothing changes.
        ensures opening { IfOk result (λ s. Keeps D.Disk disk s.files.disk Same × Alike (D.gives disk) (D.gives s.files.disk)) }
        ensures refused { IfErr result (λ e. Keeps D.Disk disk e.1 Same) }

        // Ok: what it holds is what recovery finds from now on.
        ensures opened { IfOk result (λ s. (s.opened ≡ s.files) × (s.history ≡ [])) }
        ensures anew { IfOk result (λ s. AreNew s.tables × (s.stamps ≡ [])) }
        ensures found { IfOk result (λ s. (s.files.held ≡ s.files.durable) × (s.files.failed ≡ false)) }
        ensures durable { IfOk result (λ s. (c : List ℕ) → MayBe D.Disk s.files.disk c → IsDurable s.files c) }
        ensures lawful { IfOk result (λ s. IsLawful (geometry_of s.files.meta.durable.geometry).files s.files.held) }
        ensures quiet { IfOk result (λ s. D.fault_count s.files.disk ≡ D.fault_count disk) }

        // Why it wasn't opened.
        ensures not_store { IfErr result (λ e. e.0 ≡ OpenRefusal.NotStore → (c : List ℕ) → D.gives disk c → (geometry fsid : ℕ) → IsStore geometry fsid c → ⊥) }
        ensures corrupt { IfErr result (λ e. (place : ℕ) → e.0 ≡ OpenRefusal.Corrupt place → (c : List ℕ) → D.gives disk c → IsCorruptAt place c) }
        ensures faults { IfErr result (λ e. Counts (e.0 ≡ OpenRefusal.Disk) (D.fault_count disk) (D.fault_count e.1)) }
    {
        let Ok(service) = DmService::new(alloc) else {
            return Err((OpenRefusal::Memory, disk));
        };
        match FileStore::open(alloc, disk) {
            Ok(files) => Ok(Hsm {
                opened: Snapshot::of(&files),
                base: files.meta().number(),
                files,
                stamps: IndexMap::new(alloc),
                service,
                history: Vec::new(alloc),
            }),
            Err(refusal) => Err(refusal),
        }
    }

    /// Answers a call, and keeps it in the history. `Refused(Memory)` keeps nothing, and nor does `Refused(Disk)` of a store that is closed by a
    /// fault of its disk.
    pub fn issue(&mut self, alloc: Global, caller: CallerId, call: Call) -> Reply
        ensures answered { IsAnswered D.Disk self.old caller call result self.new }
        ensures safe { IsSafeNow D.Disk self.new }
        ensures room { self.old.spare ≤ self.new.spare + 3 }
        ensures keeps { KeepsRoom self.old self.new }
    {
        let awaited = self.service.awaited();
        if let Err(why) = make_ready_for_access(
            &self.files,
            &mut self.history,
            awaited,
            &mut self.stamps,
        ) {
            return undone(why);
        }
        let number = self.base + self.history.len() as u64;
        let access = issued(call);
        let done = answer(
            &mut self.files,
            &mut self.stamps,
            &mut self.service,
            alloc,
            caller,
            &access,
            number,
        );
        record_event(
            &mut self.history,
            Actor::Caller(caller),
            Action::Issue(access.call),
            done,
        )
    }

    /// Answers a resume of the caller's access that waits, and keeps it in the history. It is refused for want of memory, and by a closed store, as
    /// calls are; but there is always memory to end an access that was aborted. Each refusal but these and `Idle` ends the access.
    pub fn resume(&mut self, alloc: Global, caller: CallerId) -> Reply
        ensures resumed { IsResumed D.Disk self.old caller result self.new }
        ensures aborts { self.old.files.failed ≡ false → IfAborted (waiting self.old.tables caller) (λ why. result ≡ Reply.Refused why) }
        ensures safe { IsSafeNow D.Disk self.new }
        ensures room { self.old.spare ≤ self.new.spare + (if is_aborted (waiting self.old.tables caller) then 0 else 2) }
        ensures keeps { KeepsRoom self.old self.new }
    {
        let awaited = self.service.awaited();
        let aborted = is_aborted(&self.service, caller);
        if let Err(why) = make_ready_to_resume(
            &self.files,
            &mut self.history,
            awaited,
            &mut self.stamps,
            aborted,
        ) {
            return undone(why);
        }
        let number = self.base + self.history.len() as u64;
        let done = answer_again(
            &mut self.files,
            &mut self.stamps,
            &mut self.service,
            alloc,
            caller,
            number,
        );
        let actor = Actor::Caller(caller);
        record_event(&mut self.history, actor, Action::Resume, done)
    }

    /// What a resume of the caller would come to now. It is no event, and takes no memory.
    pub fn ready(&self, caller: CallerId) -> Ready
        ensures { result ≡ ready self.now caller }
    {
        match self.service.pending(caller) {
            Some(access) => ready_for(&self.files, &self.service, access),
            None => Ready::Idle,
        }
    }

    /// Answers a session's call, and keeps it in the history. It is refused for want of memory, and by a closed store, as calls are; but there is
    /// always memory for a lawful response to a token that is outstanding to the session, and as long as there is an entry to spare also to release or
    /// downgrade a right, and to say what a token has.
    pub fn dm(&mut self, alloc: Global, sid: Sid, call: DmCall) -> DmReply
        ensures told { IsTold D.Disk self.old sid call result self.new }
        ensures packed { HandsOut self.old.tables.sessions sid call result }
        ensures responds { is_due self.old.tables.sessions sid call ≡ true → self.old.files.failed ≡ false → result ≡ DmReply.Done }
        ensures spared { wants_entry_alone call ≡ true → 1 ≤ self.old.spare → self.old.files.failed ≡ false → Answer.Dm result ≡ own_answer self.old (Actor.Session sid) (Action.Dm call) }
        ensures safe { IsSafeNow D.Disk self.new }
        ensures room { self.old.spare ≤ self.new.spare + entries_for self.old.tables.sessions sid call }
        ensures keeps { KeepsRoom self.old self.new }
    {
        let awaited = self.service.awaited();
        let more = self.service.entries_for(sid, &call);
        if let Err(why) = make_ready(&self.files, &mut self.history, awaited, more) {
            return unserved(why);
        }
        let number = self.base + self.history.len() as u64;
        let done = serve(
            &mut self.files,
            &self.stamps,
            &mut self.service,
            alloc,
            sid,
            &call,
            number,
        );
        record_dm(&mut self.history, sid, call, done)
    }

    /// Makes durable all that is held, and records that in the history. It is refused as calls are.
    pub fn commit(&mut self, alloc: Global) -> Reply
        ensures committed { IsCommitted D.Disk self.old result self.new }
        ensures safe { IsSafeNow D.Disk self.new }
        ensures room { self.old.spare ≤ self.new.spare + 1 }
        ensures keeps { KeepsRoom self.old self.new }
    {
        let awaited = self.service.awaited();
        if let Err(why) = make_ready(&self.files, &mut self.history, awaited, 1) {
            return undone(why);
        }
        let number = self.base + self.history.len() as u64;
        let done = commit(&mut self.files, alloc, number);
        record_event(&mut self.history, Actor::Store, Action::Commit, done)
    }

    /// Makes room in the history for `n` entries beside those that are set apart for the responses and the resumes that may come. It is no event, and
    /// says nothing of a fault of the disk.
    pub fn reserve(&mut self, n: u64) -> Result<(), AllocError>
        ensures made { OnOk result (n ≤ self.new.spare) }
        ensures kept { self.old.spare ≤ self.new.spare }
        ensures same { self.new ≡ record self.old { spare = self.new.spare } }
    {
        let entries = self.service.awaited().checked_add(n as usize);
        self.history.reserve(entries.ok_or(AllocError)?)
    }

    /// The number of the snapshot that was opened. The entries are counted on from it.
    pub fn base(&self) -> u64
        ensures { result ≡ self.now.opened.meta.number }
    {
        self.base
    }

    /// The events since the opening.
    pub fn history(&self) -> &[Entry]
        ensures entries { result.now ≡ self.now.history }
        ensures kept { IsKept D.Disk self.now }
    {
        run_is_good();
        self.history.as_slice()
    }

    /// How many blocks are used, and how many segments are offline. It is no event, and takes no memory. It costs a step for each file and each stub
    /// entry.
    pub fn totals(&self) -> (u64, u64)
        ensures used { result.0 ≡ used self.now.files.held.files }
        ensures offline { result.1 ≡ offline_of self.now.files.held.files }
    {
        let catalog = self.files.meta().catalog();
        (catalog.used(), offline_of(catalog))
    }

    /// Ends the store, and hands out its disk, its history and the store as it was opened. What wasn't made durable is lost.
    pub fn close(self) -> (D, History, Snapshot<FileStore<D>>)
        ensures disk { result.0 ≡ self.files.disk }
        ensures entries { result.1 ≡ self.history }
        ensures opened { result.2.value ≡ self.opened }
        ensures durable { self.files.failed ≡ false → (c : List ℕ) → MayBe D.Disk self.files.disk c → IsDurable self.files c }
        ensures kept { IsKept D.Disk self }

        // What a crash leaves: at any moment since the opening what the first entries have left, and from now on all that was synced.
        ensures since { LeavesOnly D.Disk self.opened.disk self.files.disk (IsPrefix self.opened self.history 0) }
        ensures now { IsSafeNow D.Disk self }
    {
        run_is_good();
        (self.files.close(), History::from(self.history), self.opened)
    }
}
