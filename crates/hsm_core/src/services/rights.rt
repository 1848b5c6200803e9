//! Calls on the rights of tokens on live files.
ghost use Rattle.std.specs.Prelude.{◌≡◌, true, IfOk, IsOk, IsErrOf, OnOk, OnErr};
ghost use Rattle.hsm_types.specs.Calls.{scope_of};
ghost use Rattle.dm_service.specs.Services.{asks_rights, done_or, wants_entry_alone, AreBoth, HasOpenToken};
ghost use Rattle.hsm_core.specs.Services.{HasRight, IsGranted};

use crate::services::replies::{done, refused};
use dm_service::DmService;
use hsm_types::{DmCall, DmRefusal, DmReply};
use std::alloc::AllocError;

/// Serves a call on rights that its scope doesn't refuse. Only a request may lack memory.
pub(crate) fn serve(
    service: &mut DmService,
    call: &DmCall,
) -> Result<(DmReply, DmReply), AllocError>
    requires asks { asks_rights call.now ≡ true }
    requires open { HasOpenToken service.old.sessions (scope_of call.now) }
    requires held { HasRight service.old.rights (scope_of call.now) }
    ensures granted { IsGranted service.old call.now result service.new }
    ensures alone { wants_entry_alone call.now ≡ true → IsOk result }
{
    match call {
        DmCall::RequestRight {
            token,
            handle,
            right,
        } => ended(service.request(*token, handle.key, *right)),
        DmCall::ReleaseRight { token, handle } => {
            service.release(*token, handle.key);
            Ok(done())
        }
        DmCall::QueryRight { token, handle } => {
            let right = service.query(*token, handle.key);
            Ok((DmReply::Right(right), DmReply::Right(right)))
        }
        DmCall::UpgradeRight { token, handle } => ended(service.upgrade(*token, handle.key)),
        DmCall::DowngradeRight { token, handle } => ended(service.downgrade(*token, handle.key)),
        _ => unreachable!(),
    }
}

/// The replies to a call that is done or refused. For want of memory there is none.
fn ended(outcome: Result<(), DmRefusal>) -> Result<(DmReply, DmReply), AllocError>
    ensures replies { IfOk result (λ r. AreBoth (done_or outcome) r) }
    ensures other { OnOk result (IsErrOf outcome DmRefusal.Memory → ⊥) }
    ensures memory { OnErr result (IsErrOf outcome DmRefusal.Memory) }
{
    match outcome {
        Ok(()) => Ok(done()),
        Err(DmRefusal::Memory) => Err(AllocError),
        Err(why) => Ok(refused(why)),
    }
}
