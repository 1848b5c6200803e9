//! What becomes of the copies of a pass.
ghost use Rattle.std.specs.Prelude.{◌≡◌, ◌<◌, ℕ, List, [], false, Err};
ghost use Rattle.migrate_daemon.specs.Passes.{IsFull, copies};
ghost use Rattle.migrate_daemon.specs.Stages.{Holds};
ghost use Rattle.migrate_daemon.specs.Turns.{Turns};

use crate::hearing::copied_of;
use crate::knowledge::Knowledge;
use crate::passes::end;
use crate::progress::Progress;
use crate::stages::{Turn, read, seal};
use hsm_policy::Picked;
use hsm_types::{CopyRefusal, Heard};

/// The copy's volume is full, or not there: the bytes are read again for the next. Where there is none, the pass ends.
fn leave_volume(knowledge: &Knowledge, pass: &mut Progress, pick: Picked, why: CopyRefusal) -> Turn
    requires full { IsFull pass.old.volume (copies pick pass.old.volume []) (Heard.Copied (Err why)) }
    requires holds { Holds knowledge.now pass.old pick }
    requires suits { pick.sealed ≡ false }
    ensures { (bytes : List ℕ) → Turns knowledge.now pass.old (copies pick pass.old.volume bytes) (Heard.Copied (Err why)) knowledge.now pass.new result }
{
    let volumes = knowledge.volumes();
    pass.leave_volume();
    if pass.volume() < volumes {
        read(pass, pick)
    } else {
        end(knowledge, pass, Heard::Copied(Err(why)))
    }
}

/// The copy was refused.
fn on_uncopied(knowledge: &Knowledge, pass: &mut Progress, pick: Picked, why: CopyRefusal) -> Turn
    requires holds { Holds knowledge.now pass.old pick }
    requires suits { pick.sealed ≡ false }
    ensures { (bytes : List ℕ) → Turns knowledge.now pass.old (copies pick pass.old.volume bytes) (Heard.Copied (Err why)) knowledge.now pass.new result }
{
    match why {
        CopyRefusal::Full { .. } => leave_volume(knowledge, pass, pick, why),
        CopyRefusal::NoVolume => leave_volume(knowledge, pass, pick, why),
        CopyRefusal::Failed { .. } => end(knowledge, pass, Heard::Copied(Err(why))),
        CopyRefusal::Damaged { .. } => end(knowledge, pass, Heard::Copied(Err(why))),
        CopyRefusal::Memory => read(pass, pick),
    }
}

/// It hears what becomes of the copy of a segment. Where it isn't told, the bytes are read again.
pub(crate) fn on_copied(
    knowledge: &Knowledge,
    pass: &mut Progress,
    pick: Picked,
    told: &Heard,
) -> Turn
    requires holds { Holds knowledge.now pass.old pick }
    requires suits { pick.sealed ≡ false }
    ensures { (bytes : List ℕ) → Turns knowledge.now pass.old (copies pick pass.old.volume bytes) told.now knowledge.now pass.new result }
{
    match copied_of(told) {
        Some(Ok(entry)) => seal(pass, pick, entry),
        Some(Err(why)) => on_uncopied(knowledge, pass, pick, why),
        None => read(pass, pick),
    }
}
