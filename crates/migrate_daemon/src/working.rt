//! What the answers to the calls of a pass lead to.
ghost use Rattle.std.specs.Prelude.{◌≡◌, ◌≤◌, length, true, false, IfOk, OnErr, if◌then◌else◌};
ghost use Rattle.hsm_types.specs.Limits.{segment_bytes};
ghost use Rattle.migrate_daemon.specs.Hearing.{is_gone};
ghost use Rattle.migrate_daemon.specs.Machine.{IsWithin, LeadsOn};
ghost use Rattle.migrate_daemon.specs.Stages.{Holds, Suits, asked_for, works};
ghost use Rattle.migrate_daemon.specs.Turns.{Turns};

use crate::hearing::{covers, data_of, is_done, refusal_of, regions_of, reply_of};
use crate::knowledge::Knowledge;
use crate::passes::{end, skip, take};
use crate::progress::Progress;
use crate::stages::{Turn, Work, again, copy, punch, read, set_regions};
use crate::verdicts::{Verdict, verdict_on};
use hsm_policy::Picked;
use hsm_types::{Bytes, DmRefusal, DmReply, Heard, StubEntry};
use std::alloc::AllocError;

/// Goes on with a segment that a region covers.
fn covered(pass: &Progress, pick: Picked) -> Turn
    ensures { result ≡ works pass.now.sid pick (if pick.sealed then Work.Punching else Work.Reading) }
{
    if pick.sealed {
        punch(pass, pick)
    } else {
        read(pass, pick)
    }
}

/// A call was refused.
fn refused(
    knowledge: &Knowledge,
    pass: &mut Progress,
    pick: Picked,
    work: Work,
    why: DmRefusal,
) -> Result<Turn, AllocError>
    requires lives { why ≡ DmRefusal.NoSession → ⊥ }
    requires holds { Holds knowledge.now pass.old pick }
    requires suits { Suits pick work }
    ensures ok { IfOk result (λ turn. Turns knowledge.now pass.old (asked_for pass.old.sid pick work) (Heard.Dm (DmReply.Refused why)) knowledge.now pass.new turn) }
    ensures err { OnErr result (pass.new ≡ pass.old) }
{
    match verdict_on(work, why) {
        Verdict::Skips => skip(knowledge, pass, pick, DmReply::Refused(why)),
        Verdict::Ends => Ok(end(knowledge, pass, Heard::Dm(DmReply::Refused(why)))),
        Verdict::Again => again(pass, pick, work),
    }
}

/// A call was refused, or its answer says nothing.
fn otherwise(
    knowledge: &Knowledge,
    pass: &mut Progress,
    pick: Picked,
    work: Work,
    reply: &DmReply,
) -> Result<Turn, AllocError>
    requires lives { is_gone (Heard.Dm reply.now) ≡ false }
    requires holds { Holds knowledge.now pass.old pick }
    requires suits { Suits pick work }
    ensures ok { IfOk result (λ turn. (LeadsOn (asked_for pass.old.sid pick work) (Heard.Dm reply.now) → ⊥) → Turns knowledge.now pass.old (asked_for pass.old.sid pick work) (Heard.Dm reply.now) knowledge.now pass.new turn) }
    ensures err { OnErr result (pass.new ≡ pass.old) }
{
    match refusal_of(reply) {
        Some(why) => refused(knowledge, pass, pick, work, why),
        None => again(pass, pick, work),
    }
}

/// It is told which regions the segment's file has.
fn on_regions(
    knowledge: &Knowledge,
    pass: &mut Progress,
    pick: Picked,
    reply: &DmReply,
) -> Result<Turn, AllocError>
    requires lives { is_gone (Heard.Dm reply.now) ≡ false }
    requires holds { Holds knowledge.now pass.old pick }
    ensures ok { IfOk result (Turns knowledge.now pass.old (asked_for pass.old.sid pick Work.Covering) (Heard.Dm reply.now) knowledge.now pass.new) }
    ensures err { OnErr result (pass.new ≡ pass.old) }
{
    match regions_of(reply) {
        Some(regions) => {
            if covers(regions, pick.segment) {
                Ok(covered(pass, pick))
            } else {
                set_regions(pass, pick)
            }
        }
        None => otherwise(knowledge, pass, pick, Work::Covering, reply),
    }
}

/// It is told whether the region was set.
fn on_set(
    knowledge: &Knowledge,
    pass: &mut Progress,
    pick: Picked,
    reply: &DmReply,
) -> Result<Turn, AllocError>
    requires lives { is_gone (Heard.Dm reply.now) ≡ false }
    requires holds { Holds knowledge.now pass.old pick }
    ensures ok { IfOk result (Turns knowledge.now pass.old (asked_for pass.old.sid pick Work.Setting) (Heard.Dm reply.now) knowledge.now pass.new) }
    ensures err { OnErr result (pass.new ≡ pass.old) }
{
    if is_done(reply) {
        Ok(covered(pass, pick))
    } else {
        otherwise(knowledge, pass, pick, Work::Setting, reply)
    }
}

/// It is told the segment's bytes.
fn on_read(
    knowledge: &Knowledge,
    pass: &mut Progress,
    pick: Picked,
    reply: DmReply,
) -> Result<Turn, AllocError>
    requires lives { is_gone (Heard.Dm reply) ≡ false }
    requires within { IsWithin (Heard.Dm reply) }
    requires holds { Holds knowledge.now pass.old pick }
    requires suits { pick.sealed ≡ false }
    ensures ok { IfOk result (Turns knowledge.now pass.old (asked_for pass.old.sid pick Work.Reading) (Heard.Dm reply) knowledge.now pass.new) }
    ensures err { OnErr result (pass.new ≡ pass.old) }
{
    match data_of(reply) {
        Ok(bytes) => on_data(knowledge, pass, pick, bytes),
        Err(reply) => otherwise(knowledge, pass, pick, Work::Reading, &reply),
    }
}

fn on_data(
    knowledge: &Knowledge,
    pass: &mut Progress,
    pick: Picked,
    bytes: Bytes,
) -> Result<Turn, AllocError>
    requires within { length bytes ≤ segment_bytes }
    requires holds { Holds knowledge.now pass.old pick }
    requires suits { pick.sealed ≡ false }
    ensures ok { IfOk result (Turns knowledge.now pass.old (asked_for pass.old.sid pick Work.Reading) (Heard.Dm (DmReply.Data bytes)) knowledge.now pass.new) }
    ensures err { OnErr result (pass.new ≡ pass.old) }
{
    if bytes.as_slice().is_empty() {
        skip(knowledge, pass, pick, DmReply::Data(bytes))
    } else {
        Ok(copy(pass, pick, bytes))
    }
}

/// It is told whether the segment is sealed.
fn on_sealed(
    knowledge: &Knowledge,
    pass: &mut Progress,
    pick: Picked,
    entry: StubEntry,
    reply: &DmReply,
) -> Result<Turn, AllocError>
    requires lives { is_gone (Heard.Dm reply.now) ≡ false }
    requires holds { Holds knowledge.now pass.old pick }
    requires suits { pick.sealed ≡ false }
    ensures ok { IfOk result (Turns knowledge.now pass.old (asked_for pass.old.sid pick (Work.Sealing entry)) (Heard.Dm reply.now) knowledge.now pass.new) }
    ensures err { OnErr result (pass.new ≡ pass.old) }
{
    if is_done(reply) {
        Ok(punch(pass, pick))
    } else {
        otherwise(knowledge, pass, pick, Work::Sealing { entry }, reply)
    }
}

/// It is told whether the segment is offline.
fn on_punched(
    knowledge: &mut Knowledge,
    pass: &mut Progress,
    pick: Picked,
    reply: &DmReply,
) -> Result<Turn, AllocError>
    requires lives { is_gone (Heard.Dm reply.now) ≡ false }
    requires holds { Holds knowledge.old pass.old pick }
    ensures ok { IfOk result (Turns knowledge.old pass.old (asked_for pass.old.sid pick Work.Punching) (Heard.Dm reply.now) knowledge.new pass.new) }
    ensures knowledge { OnErr result (knowledge.new ≡ knowledge.old) }
    ensures pass { OnErr result (pass.new ≡ pass.old) }
{
    if is_done(reply) {
        knowledge.free();
        pass.advance();
        Ok(take(knowledge, pass))
    } else {
        otherwise(knowledge, pass, pick, Work::Punching, reply)
    }
}

/// It is told how the call was answered.
fn on_reply(
    knowledge: &mut Knowledge,
    pass: &mut Progress,
    pick: Picked,
    work: Work,
    reply: DmReply,
) -> Result<Turn, AllocError>
    requires lives { is_gone (Heard.Dm reply) ≡ false }
    requires within { IsWithin (Heard.Dm reply) }
    requires holds { Holds knowledge.old pass.old pick }
    requires suits { Suits pick work }
    ensures ok { IfOk result (Turns knowledge.old pass.old (asked_for pass.old.sid pick work) (Heard.Dm reply) knowledge.new pass.new) }
    ensures knowledge { OnErr result (knowledge.new ≡ knowledge.old) }
    ensures pass { OnErr result (pass.new ≡ pass.old) }
{
    match work {
        Work::Covering => on_regions(knowledge, pass, pick, &reply),
        Work::Setting => on_set(knowledge, pass, pick, &reply),
        Work::Reading => on_read(knowledge, pass, pick, reply),
        Work::Sealing { entry } => on_sealed(knowledge, pass, pick, entry, &reply),
        Work::Punching => on_punched(knowledge, pass, pick, &reply),
    }
}

/// It hears what becomes of the call of a pass. What is no answer to a call says nothing.
pub(crate) fn on_work(
    knowledge: &mut Knowledge,
    pass: &mut Progress,
    pick: Picked,
    work: Work,
    told: Heard,
) -> Result<Turn, AllocError>
    requires lives { is_gone told ≡ false }
    requires within { IsWithin told }
    requires holds { Holds knowledge.old pass.old pick }
    requires suits { Suits pick work }
    ensures ok { IfOk result (Turns knowledge.old pass.old (asked_for pass.old.sid pick work) told knowledge.new pass.new) }
    ensures knowledge { OnErr result (knowledge.new ≡ knowledge.old) }
    ensures pass { OnErr result (pass.new ≡ pass.old) }
{
    match reply_of(told) {
        Some(reply) => on_reply(knowledge, pass, pick, work, reply),
        None => again(pass, pick, work),
    }
}
