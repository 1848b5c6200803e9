//! How a pass begins, goes on to the next segment, and ends.
ghost use Rattle.std.specs.Prelude.{◌≡◌, ◌+◌, ◌<◌, ◌≤◌, ◌++◌, ◌∷◌, [], length, false, Some, None, IfOk, OnOk, OnErr};
ghost use Rattle.daemon_session.specs.Seats.{IsSeated};
ghost use Rattle.hsm_types.specs.declared.daemons.Act.{Act as Acted};
ghost use Rattle.hsm_types.specs.declared.daemons.Act.TheVariants.{Dm};
ghost use Rattle.hsm_types.specs.declared.daemons.Heard.{Heard as Told};
ghost use Rattle.hsm_types.specs.declared.dm.DmCall.TheVariants as call;
ghost use Rattle.migrate_daemon.specs.Hearing.{is_gone};
ghost use Rattle.migrate_daemon.specs.Machine.{ComesAnew, HasAll, IsFree};
ghost use Rattle.migrate_daemon.specs.Passes.{Pass, skip_of};
ghost use Rattle.migrate_daemon.specs.Stages.{Holds};
ghost use Rattle.migrate_daemon.specs.Turns.{Gives, Turns};

use crate::hearing::table_of;
use crate::knowledge::Knowledge;
use crate::progress::Progress;
use crate::rounds::{after, look};
use crate::stages::{Turn, ask_regions};
use hsm_policy::{Picked, pick};
use hsm_types::{DmReply, Heard, Sid, Table};
use std::alloc::AllocError;

/// Comes to the segment at which the pass stands. Where there is none, the pass is over.
pub(crate) fn take(knowledge: &Knowledge, pass: &Progress) -> Turn
    requires seated { IsSeated knowledge.now.known.seat pass.now.sid }
    requires under_way { pass.now.ended ≡ None }
    requires within { pass.now.at ≤ length pass.now.picks }
    requires room { pass.now.volume < knowledge.now.limits.volumes }
    ensures { (before : Pass) (asked : Acted) (told : Told) → ComesAnew before pass.now asked told → (HasAll asked told → ⊥) → Gives knowledge.now.limits knowledge.now.known before pass.now asked told knowledge.now result }
{
    match pass.pick() {
        Some(pick) => ask_regions(pass, pick),
        None => after(knowledge, pass.sid()),
    }
}

/// Leaves the segment as it is.
pub(crate) fn skip(
    knowledge: &Knowledge,
    pass: &mut Progress,
    pick: Picked,
    why: DmReply,
) -> Result<Turn, AllocError>
    requires { Holds knowledge.now pass.old pick }
    ensures new { OnOk result (pass.new ≡ record pass.old { at = pass.old.at + 1; skipped = pass.old.skipped ++ skip_of pick why ∷ [] }) }
    ensures gives { IfOk result (λ turn. (asked : Acted) (told : Told) → (HasAll asked told → ⊥) → Gives knowledge.now.limits knowledge.now.known pass.old pass.new asked told knowledge.now turn) }
    ensures err { OnErr result (pass.new ≡ pass.old) }
{
    pass.skip(pick, why)?;
    Ok(take(knowledge, pass))
}

/// Ends the pass.
pub(crate) fn end(knowledge: &Knowledge, pass: &mut Progress, why: Heard) -> Turn
    requires { IsSeated knowledge.now.known.seat pass.old.sid }
    ensures new { pass.new ≡ record pass.old { ended = Some why } }
    ensures gives { (before : Pass) (asked : Acted) (told : Told) → (HasAll asked told → ⊥) → Gives knowledge.now.limits knowledge.now.known before pass.new asked told knowledge.now result }
{
    pass.end(why);
    after(knowledge, pass.sid())
}

/// Begins a pass with the table. The memory that it takes is for what it picks.
fn begin(
    knowledge: &mut Knowledge,
    pass: &mut Progress,
    sid: Sid,
    table: &Table,
) -> Result<Turn, AllocError>
    requires { IsSeated knowledge.old.known.seat sid }
    ensures ok { IfOk result (Turns knowledge.old pass.old (Dm sid call.GetTable) (Heard.Dm (DmReply.Table table.now)) knowledge.new pass.new) }
    ensures knowledge { OnErr result (knowledge.new ≡ knowledge.old) }
    ensures pass { OnErr result (pass.new ≡ pass.old) }
{
    let picks = pick(pass.allocator(), table, knowledge.low(table.total))?;
    let _volumes = knowledge.volumes();
    pass.begin(sid, picks);
    knowledge.take_up();
    Ok(take(knowledge, pass))
}

/// It is told the table.
pub(crate) fn on_table(
    knowledge: &mut Knowledge,
    pass: &mut Progress,
    sid: Sid,
    told: &Heard,
) -> Result<Turn, AllocError>
    requires lives { is_gone told.now ≡ false }
    requires free { IsFree knowledge.old.known pass.old sid }
    ensures ok { IfOk result (Turns knowledge.old pass.old (Dm sid call.GetTable) told.now knowledge.new pass.new) }
    ensures knowledge { OnErr result (knowledge.new ≡ knowledge.old) }
    ensures pass { OnErr result (pass.new ≡ pass.old) }
{
    match table_of(told) {
        Some(table) => begin(knowledge, pass, sid, table),
        None => Ok(look(sid)),
    }
}
