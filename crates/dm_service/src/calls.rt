//! The calls of sessions that the service answers. Each reply comes twice, for the session and for the history.
ghost use Rattle.std.specs.Prelude.{◌≡◌, None, true, IfOk};
ghost use Rattle.hsm_types.specs.Calls.{scope_of};
ghost use Rattle.hsm_types.specs.Refusals.{first_refusal};
ghost use Rattle.dm_service.specs.Handing.{HandsOut};
ghost use Rattle.dm_service.specs.Services.{asks_rights, asks_sessions, asks_tables, own_refusal, session_refusals, whole_refusal, IsTold};

use crate::replies::refused;
use crate::scope::judge_scope;
use crate::{messages, sessions};
use dm_sessions::Sessions;
use hsm_types::{DmCall, DmReply, Sid};
use std::alloc::{AllocError, Global};

/// Whether the service answers the call: it is on sessions, dispositions, messages or tokens.
pub fn asks_tables(call: &DmCall) -> bool
    ensures { result ≡ asks_tables call.now }
{
    match call {
        DmCall::CreateSession { .. }
        | DmCall::DestroySession
        | DmCall::GetAllSessions
        | DmCall::QuerySession { .. }
        | DmCall::SetDisp { .. }
        | DmCall::GetDisp
        | DmCall::GetEvents { .. }
        | DmCall::GetAllTokens
        | DmCall::FindEventMsg { .. }
        | DmCall::Respond { .. }
        | DmCall::CreateUserEvent { .. }
        | DmCall::SendMsg { .. } => true,
        _ => false,
    }
}

/// Whether the call is on the rights of tokens.
pub fn asks_rights(call: &DmCall) -> bool
    ensures { result ≡ asks_rights call.now }
{
    matches!(
        call,
        DmCall::RequestRight { .. }
            | DmCall::ReleaseRight { .. }
            | DmCall::QueryRight { .. }
            | DmCall::UpgradeRight { .. }
            | DmCall::DowngradeRight { .. }
    )
}

/// Answers a call that opens and closes no token.
pub(crate) fn serve(
    sessions: &mut Sessions,
    alloc: Global,
    sid: Sid,
    call: &DmCall,
) -> Result<(DmReply, DmReply), AllocError>
    requires { asks_sessions call.now ≡ true }
    ensures told { IsTold sessions.old sid call.now (whole_refusal sessions.old sid call.now) result sessions.new }
    ensures packed { IfOk result (λ r. HandsOut sessions.old sid call.now r.0) }
{
    match judge_scope(sessions, sid, call.scope()) {
        Ok(()) => perform(sessions, alloc, sid, call),
        Err(why) => Ok(refused(why)),
    }
}

/// Performs a call that its scope doesn't refuse.
fn perform(
    sessions: &mut Sessions,
    alloc: Global,
    sid: Sid,
    call: &DmCall,
) -> Result<(DmReply, DmReply), AllocError>
    requires asks { asks_sessions call.now ≡ true }
    requires scope { first_refusal (session_refusals sessions.old sid (scope_of call.now)) ≡ None }
    ensures told { IsTold sessions.old sid call.now (own_refusal sessions.old sid call.now) result sessions.new }
    ensures packed { IfOk result (λ r. HandsOut sessions.old sid call.now r.0) }
{
    match call {
        DmCall::CreateSession { old, info } => sessions::create(sessions, *old, info),
        DmCall::DestroySession => sessions::destroy(sessions, sid),
        DmCall::GetAllSessions => sessions::list(sessions, alloc),
        DmCall::QuerySession { target } => sessions::query(sessions, *target),
        DmCall::SetDisp { kinds } => sessions::set_kinds(sessions, sid, *kinds),
        DmCall::GetDisp => sessions::kinds(sessions, sid),
        DmCall::GetEvents { max, room } => messages::hand_out(sessions, alloc, sid, *max, *room),
        DmCall::GetAllTokens => messages::tokens(sessions, alloc, sid),
        DmCall::FindEventMsg { token, room } => messages::find(sessions, alloc, *token, *room),
        DmCall::SendMsg { target, body } => messages::send(sessions, sid, *target, body),
        _ => unreachable!(),
    }
}
