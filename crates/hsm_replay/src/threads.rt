//! The daemons' machines may be sent between threads, and so may a replay where its disk and its drives may: here another thread locks each. It is
//! called by nothing, and fails to be proved where one of them can't be sent.
ghost use Rattle.std.specs.Prelude.{◌≡◌, IfOk, IfErr, OnOk, OnErr};
ghost use Rattle.hsm_types.specs.declared.daemons.Heard.TheVariants.{Nothing};
ghost use Rattle.recall_daemon.specs.Machine as recall;
ghost use Rattle.migrate_daemon.specs.Machine as migrate;
ghost use Rattle.hsm_replay.specs.Steps.{Steps, Halts};
ghost use Rattle.hsm_replay.specs.Systems.{Run};

use crate::replay::Replay;
use disk_model::Disk;
use hsm_system::Stop;
use hsm_types::{Act, Daemon, Heard};
use media_model::Drive;
use migrate_daemon::Migrator;
use recall_daemon::Recaller;
use std::alloc::{AllocError, Global};
use std::sync::{Mutex, Wait};
use std::thread;
use std::thread::Threads;

/// What the machine under the lock does next, where it hears nothing.
fn ask_recaller<R: Wait>(rt: &R, locked: &Mutex<Recaller>) -> Result<Act, AllocError>
    ensures { (old : recall.Machine) × (new : recall.Machine) × IfOk result (λ act. recall.StepsOn old Nothing act new) × OnErr result (new ≡ old) }
{
    locked.lock(rt).next(Heard::Nothing)
}

/// Lets another thread ask the machine under a lock what it does next, and takes it out again.
fn ask_recaller_elsewhere<R: Threads + Wait + Sync>(
    rt: &R,
    recaller: Recaller,
) -> (Result<Act, AllocError>, Recaller)
    ensures { (old : recall.Machine) × (new : recall.Machine) × IfOk result.0 (λ act. recall.StepsOn old Nothing act new) × OnErr result.0 (new ≡ old) }
{
    let locked = Mutex::new(recaller);
    let shared = &locked;
    let (act, ()) = thread::join(
        rt,
        || -> Result<Act, AllocError>
            ensures { (old : recall.Machine) × (new : recall.Machine) × IfOk result (λ act. recall.StepsOn old Nothing act new) × OnErr result (new ≡ old) }
        { ask_recaller(rt, shared) },
        || (),
    );
    (act, locked.into_inner())
}

/// What the machine under the lock does next, where it hears nothing.
fn ask_migrator<R: Wait>(rt: &R, locked: &Mutex<Migrator>) -> Result<Act, AllocError>
    ensures { (old : migrate.Machine) × (new : migrate.Machine) × IfOk result (λ act. migrate.StepsOn old Nothing act new) × OnErr result (new ≡ old) }
{
    locked.lock(rt).next(Heard::Nothing)
}

/// Lets another thread ask the machine under a lock what it does next, and takes it out again.
fn ask_migrator_elsewhere<R: Threads + Wait + Sync>(
    rt: &R,
    migrator: Migrator,
) -> (Result<Act, AllocError>, Migrator)
    ensures { (old : migrate.Machine) × (new : migrate.Machine) × IfOk result.0 (λ act. migrate.StepsOn old Nothing act new) × OnErr result.0 (new ≡ old) }
{
    let locked = Mutex::new(migrator);
    let shared = &locked;
    let (act, ()) = thread::join(
        rt,
        || -> Result<Act, AllocError>
            ensures { (old : migrate.Machine) × (new : migrate.Machine) × IfOk result (λ act. migrate.StepsOn old Nothing act new) × OnErr result (new ≡ old) }
        { ask_migrator(rt, shared) },
        || (),
    );
    (act, locked.into_inner())
}

/// Takes a step of the daemon, of the replay that is under the lock. Nothing is known of it before or afterwards but that step.
fn step<D: Disk + Drop, M: Drive + Drop, R: Wait>(
    rt: &R,
    alloc: Global,
    locked: &Mutex<Replay<D, M>>,
    daemon: Daemon,
) -> Result<(), Stop>
    ensures { (old : Run D M) × (new : Run D M) × OnOk result (Steps D.Disk M.Drive daemon old new) × IfErr result (λ why. Halts D.Disk M.Drive daemon old why new) }
{
    locked.lock(rt).step(alloc, daemon)
}

/// Lets another thread take a step of the daemon, of the replay under a lock, and takes the replay out again.
fn step_elsewhere<D: Disk + Drop + Send, M: Drive + Drop + Send, R: Threads + Wait + Sync>(
    rt: &R,
    alloc: Global,
    replay: Replay<D, M>,
    daemon: Daemon,
) -> (Result<(), Stop>, Replay<D, M>)
    ensures { (old : Run D M) × (new : Run D M) × OnOk result.0 (Steps D.Disk M.Drive daemon old new) × IfErr result.0 (λ why. Halts D.Disk M.Drive daemon old why new) }
{
    let locked = Mutex::new(replay);
    let shared = &locked;
    let (stepped, ()) = thread::join(
        rt,
        move || -> Result<(), Stop>
            ensures { (old : Run D M) × (new : Run D M) × OnOk result (Steps D.Disk M.Drive daemon old new) × IfErr result (λ why. Halts D.Disk M.Drive daemon old why new) }
        { step(rt, alloc, shared, daemon) },
        || (),
    );
    (stepped, locked.into_inner())
}
