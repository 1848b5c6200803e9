//! What the machine does between passes.
ghost use Rattle.std.specs.Prelude.{◌≡◌, false, IfOk, OnOk, OnErr};
ghost use Rattle.daemon_session.specs.Seats.{IsSeated};
ghost use Rattle.hsm_types.specs.Limits.{buffer_bytes};
ghost use Rattle.hsm_types.specs.declared.daemons.Act.{Act as Acted};
ghost use Rattle.hsm_types.specs.declared.daemons.Act.TheVariants.{Dm};
ghost use Rattle.hsm_types.specs.declared.daemons.Heard.{Heard as Told};
ghost use Rattle.hsm_types.specs.declared.dm.DmCall.TheVariants as call;
ghost use Rattle.hsm_types.specs.declared.dm.Response.{Response};
ghost use Rattle.hsm_types.specs.declared.keys.Sid.{Sid as SessionId};
ghost use Rattle.migrate_daemon.specs.Hearing.{is_gone};
ghost use Rattle.migrate_daemon.specs.Known.{knows_by};
ghost use Rattle.migrate_daemon.specs.Machine.{HasAll, IsFree};
ghost use Rattle.migrate_daemon.specs.Passes.{Pass, IsOver};
ghost use Rattle.migrate_daemon.specs.Stages.{looks, measures, rests};
ghost use Rattle.migrate_daemon.specs.MachineStates.{resting, with_known};
ghost use Rattle.migrate_daemon.specs.Turns.{Gives, Turns};

use crate::hearing::{has_no_more, is_settled, messages_of, space_of};
use crate::knowledge::Knowledge;
use crate::stages::{Stage, Turn};
use hsm_types::{Act, BUFFER_BYTES as ROOM, DmCall, Heard, Sid, Token};
use std::alloc::AllocError;

fn measure(sid: Sid) -> Turn
    ensures { result ≡ measures sid }
{
    Turn {
        stage: Stage::Measuring { sid },
        act: Act::Dm(sid, DmCall::GetSpace),
    }
}

/// Asks for the space, where a pass by `high` may begin and it hasn't heard of it, else for events.
pub(crate) fn round(knowledge: &Knowledge, sid: Sid) -> Turn
    ensures { (pass before : Pass) (asked : Acted) (told : Told) → IsFree knowledge.now.known pass sid → (HasAll asked told → ⊥) → Gives knowledge.now.limits knowledge.now.known before pass asked told knowledge.now result }
{
    if knowledge.wants_space() {
        return measure(sid);
    }
    Turn {
        stage: Stage::Asking { sid },
        act: Act::Dm(sid, DmCall::GetEvents { max: 0, room: ROOM }),
    }
}

/// Answers the next event that the last pass served. Where there is none, the round goes on.
pub(crate) fn after(knowledge: &Knowledge, sid: Sid) -> Turn
    ensures { (pass before : Pass) (asked : Acted) (told : Told) → IsSeated knowledge.now.known.seat sid → IsOver pass → (HasAll asked told → ⊥) → Gives knowledge.now.limits knowledge.now.known before pass asked told knowledge.now result }
{
    match knowledge.next_served() {
        Some(token) => Turn {
            stage: Stage::Answering { sid, token },
            act: Act::Dm(
                sid,
                DmCall::Respond {
                    token,
                    response: knowledge.response(),
                },
            ),
        },
        None => round(knowledge, sid),
    }
}

/// Asks for the table.
pub(crate) fn look(sid: Sid) -> Turn
    ensures { result ≡ looks sid }
{
    Turn {
        stage: Stage::Looking { sid },
        act: Act::Dm(sid, DmCall::GetTable),
    }
}

fn rest(knowledge: &mut Knowledge, sid: Sid) -> Turn
    ensures turn { result ≡ rests sid }
    ensures new { knowledge.new ≡ resting knowledge.old }
{
    knowledge.rest();
    Turn {
        stage: Stage::Resting { sid },
        act: Act::Idle,
    }
}

/// It has all events: a pass begins where one is due, else it rests.
fn decide(knowledge: &mut Knowledge, sid: Sid) -> Turn
    ensures { (pass before : Pass) (asked : Acted) (told : Told) → IsFree knowledge.old.known pass sid → HasAll asked told → Gives knowledge.old.limits knowledge.old.known before pass asked told knowledge.new result }
{
    if knowledge.wants_space() {
        return measure(sid);
    }
    if knowledge.is_due() || knowledge.has_events() {
        return look(sid);
    }
    rest(knowledge, sid)
}

/// Takes in how much space is used.
fn hear_space(knowledge: &mut Knowledge, told: &Heard)
    ensures { (sid : SessionId) → knowledge.new ≡ with_known (knows_by knowledge.old.limits knowledge.old.known (Dm sid call.GetSpace) told.now) knowledge.old }
{
    match space_of(told) {
        Some(space) => knowledge.measure(space),
        None => {}
    }
}

/// Takes in messages of events.
fn hear_events(knowledge: &mut Knowledge, told: &Heard) -> Result<(), AllocError>
    ensures ok { OnOk result ((sid : SessionId) → knowledge.new ≡ with_known (knows_by knowledge.old.limits knowledge.old.known (Dm sid (call.GetEvents 0 buffer_bytes)) told.now) knowledge.old) }
    ensures err { OnErr result (knowledge.new ≡ knowledge.old) }
{
    match messages_of(told) {
        Some(messages) => knowledge.keep(messages),
        None => Ok(()),
    }
}

/// Takes in what becomes of the answer to an event.
fn hear_answer(knowledge: &mut Knowledge, token: Token, told: &Heard)
    ensures { (sid : SessionId) (response : Response) → knowledge.new ≡ with_known (knows_by knowledge.old.limits knowledge.old.known (Dm sid (call.Respond token response)) told.now) knowledge.old }
{
    if is_settled(told) {
        knowledge.forget(token);
    }
}

/// It is told how much space is used.
pub(crate) fn on_space(knowledge: &mut Knowledge, sid: Sid, told: &Heard) -> Turn
    requires { is_gone told.now ≡ false }
    ensures { (pass : Pass) → IsFree knowledge.old.known pass sid → Turns knowledge.old pass (Dm sid call.GetSpace) told.now knowledge.new pass result }
{
    hear_space(knowledge, told);
    round(knowledge, sid)
}

/// It is given messages of events, or told that there are none.
pub(crate) fn on_events(
    knowledge: &mut Knowledge,
    sid: Sid,
    told: &Heard,
) -> Result<Turn, AllocError>
    requires { is_gone told.now ≡ false }
    ensures ok { IfOk result (λ turn. (pass : Pass) → IsFree knowledge.old.known pass sid → Turns knowledge.old pass (Dm sid (call.GetEvents 0 buffer_bytes)) told.now knowledge.new pass turn) }
    ensures err { OnErr result (knowledge.new ≡ knowledge.old) }
{
    if has_no_more(told) {
        return Ok(decide(knowledge, sid));
    }
    hear_events(knowledge, told)?;
    Ok(round(knowledge, sid))
}

/// It is told what becomes of the answer to an event.
pub(crate) fn on_answer(knowledge: &mut Knowledge, sid: Sid, token: Token, told: &Heard) -> Turn
    requires { is_gone told.now ≡ false }
    ensures { (pass : Pass) (response : Response) → IsSeated knowledge.old.known.seat sid → IsOver pass → Turns knowledge.old pass (Dm sid (call.Respond token response)) told.now knowledge.new pass result }
{
    hear_answer(knowledge, token, told);
    after(knowledge, sid)
}
