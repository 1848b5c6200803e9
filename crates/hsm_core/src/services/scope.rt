//! What refuses a session's call on files by its scope.
ghost use Rattle.std.specs.Prelude.{ℕ, List, OnOk, IsSome};
ghost use Rattle.hsm_types.specs.Refusals.{first_refusal};
ghost use Rattle.hsm_types.specs.Rights.{too_low};
ghost use Rattle.hsm_types.specs.declared.keys.FileKey.{FileKey};
ghost use Rattle.hsm_types.specs.Keyed.{find_key};
ghost use Rattle.plain_model.specs.Services.{bad_handle, scope_refusals};
ghost use Rattle.file_store.specs.Stores.{superblock_of};
ghost use Rattle.dm_service.specs.Services.{HasOpenToken, Judges};
ghost use Rattle.hsm_core.specs.Store.{state_with};
ghost use Rattle.hsm_core.specs.Services.{HasRight, IsInScope, file_refusals};

use crate::lookups::is_live;
use disk_model::Disk;
use dm_service::DmService;
use file_store::FileStore;
use hsm_types::{DmRefusal, Handle, Right, Scope, Sid};

/// Judges a scope by its session and token, and then by its file and right. This takes no memory.
#[tactic(auto, using(crate::proofs::Serving::stopped_by_session, crate::proofs::Serving::passed_to_file))]
pub(crate) fn judge_scope<D: Disk>(
    files: &FileStore<D>,
    service: &DmService,
    sid: Sid,
    scope: Scope,
) -> Result<(), DmRefusal>
    ensures judged { (stamps : List (FileKey × ℕ)) (number : ℕ) → Judges result (first_refusal (scope_refusals (superblock_of files.now) (state_with files.now.held stamps service.now number) sid scope)) }
    ensures within { OnOk result (IsInScope files.now.held.files scope) }
    ensures held { OnOk result (HasRight service.now.rights scope) }
    ensures open { OnOk result (HasOpenToken service.now.sessions scope) }
{
    match service.judge_scope(sid, scope) {
        Ok(()) => judge_file(files, service, scope),
        Err(why) => Err(why),
    }
}

/// Judges a scope by its file, and by the right that it needs there.
#[tactic(auto, using(crate::proofs::Refusing::passes, crate::proofs::Refusing::stops))]
fn judge_file<D: Disk>(
    files: &FileStore<D>,
    service: &DmService,
    scope: Scope,
) -> Result<(), DmRefusal>
    ensures judged { Judges result (first_refusal (file_refusals (superblock_of files.now) files.now.held.files service.now.rights scope)) }
    ensures within { OnOk result (IsInScope files.now.held.files scope) }
    ensures held { OnOk result (HasRight service.now.rights scope) }
{
    match scope {
        Scope::OnFile {
            token,
            handle,
            right,
        } => {
            judge_handle(files, handle)?;
            service.allow(token, handle.key, right)
        }
        Scope::OnRight {
            token,
            handle,
            right,
        } => {
            judge_handle(files, handle)?;
            judge_right(service.query(token, handle.key), right)
        }
        _ => Ok(()),
    }
}

/// The right that a token has reaches the one that is needed.
fn judge_right(have: Right, need: Right) -> Result<(), DmRefusal>
    ensures { Judges result (too_low need have) }
{
    if have.reaches(need) {
        Ok(())
    } else {
        Err(DmRefusal::NeedRight { have })
    }
}

/// The handle is of this store, and its file lives.
fn judge_handle<D: Disk>(files: &FileStore<D>, handle: Handle) -> Result<(), DmRefusal>
    ensures judged { Judges result (bad_handle (superblock_of files.now) files.now.held.files handle) }
    ensures live { OnOk result (IsSome (find_key (λ f. f.key) handle.key files.now.held.files)) }
{
    if dm_handles::fsid(&handle) == files.superblock().fsid && is_live(files, handle.key) {
        Ok(())
    } else {
        Err(DmRefusal::NoObject)
    }
}
