//! A daemon that runs or doesn't, and what it hears next, or waits for.
ghost use Rattle.std.specs.Prelude.{◌≡◌, ◌↔◌, IsTrue, Some, IfOk, IfErr, MatchOption};
ghost use Rattle.std.specs.Option.{option_map, option_or};
ghost use Rattle.hsm_types.specs.declared.daemons.Heard.TheVariants.{Nothing};
ghost use Rattle.hsm_system.specs.Awaiting.{IsWaiting};
ghost use Rattle.hsm_system.specs.Running.{AwaitsSuch, Gives, HearsWithin, Loses, WaitsNow, first_of, hears_next};
ghost use Rattle.hsm_system.specs.Systems.{migrate_again};

use crate::awaited::Awaited;
use crate::machines::Machine;
use crate::stops::Stop;
use hsm_types::{Act, DmReply, Heard};
use migrate_daemon::Migrator;
use std::mem;

/// What a daemon hears next, or waits for.
#[derive(Drop)]
pub(crate) enum Next {
    /// When it is asked for its next act.
    Hears(Heard),
    /// It has given an act, of which nothing is heard yet.
    Waits(Awaited),
}

impl Next {
    /// What is to be heard, which is kept no more; none where it waits.
    fn take(&mut self) -> Option<Heard>
        ensures waits { MatchOption result (IsWaiting self.old × (self.new ≡ self.old)) (λ told. (self.old ≡ Next.Hears told) × (self.new ≡ Next.Hears Nothing)) }
    {
        match self {
            Next::Waits(_) => None,
            Next::Hears(told) => Some(mem::replace(told, Heard::Nothing)),
        }
    }

    /// Whether it waits for that.
    fn waits_for(&self, awaited: &Awaited) -> bool
        ensures { IsTrue result ↔ (self.now ≡ Next.Waits awaited.now) }
    {
        match self {
            Next::Hears(_) => false,
            Next::Waits(other) => other == awaited,
        }
    }

    /// Whether it waits.
    fn waits(&self) -> bool
        ensures { IsTrue result ↔ IsWaiting self.now }
    {
        matches!(self, Next::Waits(_))
    }
}

/// A daemon that runs.
#[derive(Drop)]
pub(crate) struct Running<M> {
    pub(crate) machine: M,
    next: Next,
}

/// From here on it is that.
pub(crate) fn set<T: Drop>(place: &mut T, value: T)
    ensures { place.new ≡ value }
{
    *place = value;
}

/// The daemon runs, with that machine. One that runs goes on as it is.
pub(crate) fn start<M: Drop>(daemon: &mut Option<Running<M>>, machine: M)
    ensures { daemon.new ≡ option_or daemon.old (Some (first_of machine)) }
{
    if daemon.is_none() {
        let next = Next::Hears(Heard::Nothing);
        set(daemon, Some(Running { machine, next }));
    }
}

/// What its machine does next, once it has heard what was kept for it. It waits for what comes of that. None where it doesn't run, or waits. Where memory is
/// wanting, what was kept is lost.
pub(crate) fn ask<M: Machine>(daemon: &mut Option<Running<M>>) -> Result<Option<Act>, Stop>
    requires { HearsWithin M.may_hear daemon.old }
    ensures asked { IfOk result (λ given. Gives M.goes_on daemon.old given daemon.new) }
    ensures lacks { IfErr result (λ why. Loses daemon.old why daemon.new) }
{
    let Some(running) = daemon else {
        return Ok(None);
    };
    let Some(told) = running.next.take() else {
        return Ok(None);
    };
    let act = running.machine.go_on(told)?;
    set(&mut running.next, Next::Waits(Awaited::of(&act)));
    Ok(Some(act))
}

/// Where it runs, it hears this next.
pub(crate) fn hear<M>(daemon: &mut Option<Running<M>>, heard: Heard)
    ensures { daemon.new ≡ option_map (hears_next heard) daemon.old }
{
    if let Some(running) = daemon {
        set(&mut running.next, Next::Hears(heard));
    }
}

/// Whether it runs, and waits for that.
pub(crate) fn waits_for<M>(daemon: &Option<Running<M>>, awaited: &Awaited) -> bool
    ensures { IsTrue result ↔ AwaitsSuch awaited.now daemon.now }
{
    match daemon {
        Some(running) => running.next.waits_for(awaited),
        None => false,
    }
}

/// Whether it runs, and waits.
pub(crate) fn waits<M>(daemon: &Option<Running<M>>) -> bool
    ensures { IsTrue result ↔ WaitsNow daemon.now }
{
    match daemon {
        Some(running) => running.next.waits(),
        None => false,
    }
}

/// Where migration runs, a pass by `high` may begin again. What it would hear of the space it doesn't hear, and asks again.
pub(crate) fn refresh(daemon: &mut Option<Running<Migrator>>)
    ensures { daemon.new ≡ option_map migrate_again daemon.old }
{
    if let Some(running) = daemon {
        running.machine.fresh();
        if matches!(running.next, Next::Hears(Heard::Dm(DmReply::Space { .. }))) {
            set(&mut running.next, Next::Hears(Heard::Nothing));
        }
    }
}
