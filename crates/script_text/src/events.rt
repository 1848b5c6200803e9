//! The line that a text is: of a caller, of a session, of the store or of a daemon.
ghost use Rattle.std.specs.Prelude.{◌↔◌, ◌<◌, ◌^◌, length, IfOk, IsTrue};
ghost use Rattle.hsm_types.specs.Callers.{IsCallerNumber};
ghost use Rattle.hsm_types.specs.Calls.{scope_of};
ghost use Rattle.plain_model.specs.declared.entries.Actor.{Actor};
ghost use Rattle.script_text.specs.Lines.{line_text, IsLine, IsAskedBy};
ghost use Rattle.script_text.specs.Reading.{Reads, IsSid, text_by};

use crate::daemons::daemon_line;
use crate::lines::Line;
use crate::requests::{DmRequest, Request, dm_request_of, request_of};
use crate::words::{caller, cut, session};
use hsm_types::{CallerId, DmCall, Scope, Sid};
use plain_model::{Action, Actor};
use std::alloc::{AllocError, Global};

/// The line that a text is.
#[tactic(auto, using(crate::proofs::Cutting::cut_shorter))]
pub fn line(alloc: Global, text: &[u8]) -> Result<Option<Line>, AllocError>
    requires { length text.now < 2 ^ 32 }
    ensures { IfOk result (λ read. Reads line_text IsLine text.now read) }
{
    if text == b"store commit".as_slice() {
        return Ok(Some(Line::Event {
            actor: Actor::Store,
            action: Action::Commit,
            seed: None,
        }));
    }
    if text == b"settle".as_slice() {
        return Ok(Some(Line::Settle));
    }
    let Some((who, rest)) = cut(text, b' ') else {
        return Ok(None);
    };
    if let Some(caller) = caller(who) {
        return caller_line(alloc, caller, rest);
    }
    match session(who) {
        Some(sid) => session_line(alloc, sid, rest),
        None => Ok(daemon_line(who, rest)),
    }
}

/// The line of a caller, who resumes or issues a call.
fn caller_line(alloc: Global, caller: CallerId, text: &[u8]) -> Result<Option<Line>, AllocError>
    requires caller { IsCallerNumber caller }
    requires short { length text.now < 2 ^ 32 }
    ensures { IfOk result (λ read. Reads line_text IsLine (text_by (Actor.Caller caller) text.now) read) }
{
    if text == b"resume".as_slice() {
        return Ok(Some(Line::Event {
            actor: Actor::Caller(caller),
            action: Action::Resume,
            seed: None,
        }));
    }
    let Some(Request { call, seed }) = request_of(alloc, text)? else {
        return Ok(None);
    };
    Ok(Some(Line::Event {
        actor: Actor::Caller(caller),
        action: Action::Issue(call),
        seed,
    }))
}

/// The line of a session's call.
fn session_line(alloc: Global, sid: Sid, text: &[u8]) -> Result<Option<Line>, AllocError>
    requires session { IsSid sid }
    requires short { length text.now < 2 ^ 32 }
    ensures { IfOk result (λ read. Reads line_text IsLine (text_by (Actor.Session sid) text.now) read) }
{
    let Some(DmRequest { call, seed }) = dm_request_of(alloc, text)? else {
        return Ok(None);
    };
    if !may_ask(sid, &call) {
        return Ok(None);
    }
    Ok(Some(Line::Event {
        actor: Actor::Session(sid),
        action: Action::Dm(call),
        seed,
    }))
}

/// Whether the call is one of that session. What needs no session is asked by session 0.
fn may_ask(sid: Sid, call: &DmCall) -> bool
    ensures { IsTrue result ↔ IsAskedBy sid (scope_of call.now) }
{
    match call.scope() {
        Scope::Anyone => sid.0 == 0,
        Scope::InSession | Scope::OnToken { .. } | Scope::OnFile { .. } | Scope::OnRight { .. } =>
            true,
    }
}
