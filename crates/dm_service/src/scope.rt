//! What refuses a session's call by its session and its token.
ghost use Rattle.std.specs.Prelude.{◌≡◌, [], ◌∷◌};
ghost use Rattle.hsm_types.specs.Refusals.{first_refusal};
ghost use Rattle.hsm_types.specs.Sessions.{dead_session};
ghost use Rattle.plain_model.specs.Services.{bad_own_token, bad_given_token};
ghost use Rattle.dm_service.specs.Services.{Judges, session_refusals};

use dm_sessions::Sessions;
use hsm_types::{DmRefusal, Scope, Sid, Token};

/// In the order of judgement.
pub(crate) fn judge_scope(sessions: &Sessions, sid: Sid, scope: Scope) -> Result<(), DmRefusal>
    ensures { Judges result (first_refusal (session_refusals sessions.now sid scope)) }
{
    match scope {
        Scope::Anyone => Ok(()),
        Scope::InSession => judge_session(sessions, sid),
        Scope::OnToken { token } | Scope::OnRight { token, .. } => {
            judge_own_token(sessions, sid, token)
        }
        Scope::OnFile { token, .. } => judge_given_token(sessions, sid, token),
    }
}

fn judge_session(sessions: &Sessions, sid: Sid) -> Result<(), DmRefusal>
    ensures { Judges result (dead_session sid sessions.now) }
{
    if sessions.is_live(sid) {
        Ok(())
    } else {
        Err(DmRefusal::NoSession)
    }
}

/// A token that the call can't go without.
pub(crate) fn judge_own_token(sessions: &Sessions, sid: Sid, token: Token) -> Result<(), DmRefusal>
    ensures { Judges result (first_refusal (dead_session sid sessions.now ∷ bad_own_token sid token sessions.now ∷ [])) }
{
    if token.0 == 0 {
        judge_session(sessions, sid)?;
        return Err(DmRefusal::NoToken);
    }
    sessions.admit(sid, token)
}

/// A token, where there is one: 0 stands for none.
pub(crate) fn judge_given_token(
    sessions: &Sessions,
    sid: Sid,
    token: Token,
) -> Result<(), DmRefusal>
    ensures { Judges result (first_refusal (dead_session sid sessions.now ∷ bad_given_token sid token sessions.now ∷ [])) }
{
    if token.0 == 0 {
        return judge_session(sessions, sid);
    }
    sessions.admit(sid, token)
}
