//! A daemon's step under the lock of a run.
ghost use Rattle.std.specs.Prelude.{◌≡◌, ◌∷◌, false};
ghost use Rattle.hsm_types.specs.Daemons.{MayPerform};
ghost use Rattle.deeds.specs.Deeds.{Gives};
ghost use Rattle.hsm_system.specs.Goes.{GoesBy};
ghost use Rattle.hsm_system.specs.Systems.{Awaits};
ghost use Rattle.hsm_threads.specs.Steps.{Begins, CameTo, IsStepOf, called_by, closes, stop_of};

use disk_model::Disk;
use hsm_system::{Outcome, Stop, System};
use hsm_types::{Act, Daemon};
use std::alloc::Global;

/// What came of a daemon's step.
#[derive(Drop)]
pub enum Asked {
    /// Its call was made.
    Called,
    /// This is to be performed with the lock free, and told.
    Performs(Act),
    /// There is nothing for it to do.
    Rests,
    /// It doesn't run, or waits for what comes of an act, or the run has stopped.
    Nothing,
}

/// Asks the daemon for its act, and begins it.
pub(crate) fn take_step<D: Disk>(
    alloc: Global,
    system: &mut System<D>,
    daemon: Daemon,
) -> Result<Asked, Stop>
    requires { system.old.store.files.failed ≡ false }
    ensures deeds { GoesBy (IsStepOf daemon result) system.old system.new }
    ensures came { CameTo D.Disk daemon result system.old system.new }
    ensures opened { system.new.store.opened ≡ system.old.store.opened }
    ensures closed { system.new.store.files.failed ≡ closes (stop_of result) }
{
    match system.ask(daemon) {
        Ok(Some(act)) => begin(alloc, system, daemon, act),
        Ok(None) => Ok(Asked::Nothing),
        Err(why) => Err(why),
    }
}

/// Begins the act that the daemon has given. A call is made, as one event, and a rest is over at once. A copy or a fetch is left to whoever has drives.
fn begin<D: Disk>(
    alloc: Global,
    system: &mut System<D>,
    daemon: Daemon,
    act: Act,
) -> Result<Asked, Stop>
    requires works { system.old.store.files.failed ≡ false }
    requires awaits { Awaits daemon act system.old }
    requires may { MayPerform act }
    ensures deeds { GoesBy (λ rest. IsStepOf daemon result (Gives daemon act ∷ rest)) system.old system.new }
    ensures begins { Begins D.Disk daemon act result system.old system.new }
    ensures opened { system.new.store.opened ≡ system.old.store.opened }
    ensures closed { system.new.store.files.failed ≡ closes (stop_of result) }
{
    match act {
        Act::Dm(sid, call) => called(system.call(alloc, daemon, sid, call)),
        Act::Idle => {
            system.take_in(daemon, Outcome::Rested);
            Ok(Asked::Rests)
        }
        Act::Copy { .. } | Act::Fetch { .. } => Ok(Asked::Performs(act)),
    }
}

fn called(made: Result<(), Stop>) -> Result<Asked, Stop>
    ensures { result ≡ called_by made }
{
    match made {
        Ok(()) => Ok(Asked::Called),
        Err(why) => Err(why),
    }
}
