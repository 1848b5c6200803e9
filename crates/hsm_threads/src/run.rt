//! What lies under the lock of a run.
ghost use Rattle.std.specs.Prelude.{◌≡◌, ◌↔◌, [], ◌∷◌, ℕ, IsTrue, None, Some};
ghost use Rattle.std.specs.Option.{option_or};
ghost use Rattle.hsm_types.specs.declared.daemons.Heard.TheVariants.{Nothing};
ghost use Rattle.hsm_core.specs.Kept.{IsKept};
ghost use Rattle.hsm_core.specs.Ready.{ready};
ghost use Rattle.hsm_core.specs.declared.store.Ready.TheVariants.{Now};
ghost use Rattle.call_lists.specs.Lines.{left_of};
ghost use Rattle.call_lists.specs.Made.{AreMade};
ghost use Rattle.deeds.specs.Deeds.{Starts};
ghost use Rattle.hsm_system.specs.Awaiting.{IsSo};
ghost use Rattle.hsm_system.specs.Goes.{Goes, GoesBy, LosesOf};
ghost use Rattle.hsm_system.specs.Systems.{IsAwaited, Waits, hearing, started};
ghost use Rattle.hsm_threads.specs.Deeds.{WasRun};
ghost use Rattle.hsm_threads.specs.Lots.{Issues, LeavesOthers, Resumes, TakesStep, Tells, next_by};
ghost use Rattle.hsm_threads.specs.Steps.{closes, lacks, stop_of};

use crate::named::Named;
use crate::steps::{Asked, take_step};
use call_lists::CallLists;
use disk_model::Disk;
use hsm_core::Hsm;
use hsm_policy::Settings;
use hsm_system::{Event, Outcome, Stop, System};
use hsm_types::{CallerId, Daemon};
use std::alloc::Global;
use std::marker::{Model, PhantomData};

/// What came of a caller's step.
#[derive(Clone, Copy, Debug, PartialEq, Eq)]
pub enum Next {
    /// Its call has come to its end.
    Made,
    /// Its access waits, and can't go on yet.
    Waits,
    /// No call is left, or the run has stopped.
    Ended,
}

/// A store with its daemons, and the calls that callers are still to make. Whenever the lock is free its store is the one that was opened under the name,
/// all that was done since is done by deeds of its daemons and its callers, and each caller has made its lines up to a place.
#[derive(Drop)]
pub struct Run<D: Disk, N: Named<D>> {
    system: System<D>,
    lists: CallLists,
    /// Why the run has stopped, if it has.
    stop: Option<Stop>,
    name: PhantomData<N>,
}

impl<D: Disk, N: Named<D>> Model for Run<D, N> {
    ghost use Rattle.hsm_threads.specs.Lots.{Lot, IsLot};

    ghost Value = { Lot D };

    ghost view = { λ r. record { system = r.system; lists = r.lists; stop = r.stop } };

    ghost invariant = { λ r. IsLot N.opened N.limits N.lines (record { system = r.system; lists = r.lists; stop = r.stop }) };
}

impl<D: Disk, N: Named<D>> Run<D, N> {
    /// A store that has done nothing since its opening, with the callers' lists. Neither daemon runs.
    pub fn new(hsm: Hsm<D>, lists: CallLists, settings: Settings) -> Run<D, N>
        requires named { N.opened ≡ Some hsm.opened }
        requires limits { settings ≡ N.limits }
        requires lines { (c : ℕ) → left_of lists c ≡ N.lines c }
        requires empty { hsm.history ≡ [] }
        ensures { result ≡ record { system = record { store = hsm; limits = settings; recall = None; migrate = None }; lists = lists; stop = None } }
    {
        let _ = hsm.history();
        Run {
            system: System::new(hsm, settings),
            lists,
            stop: None,
            name: PhantomData,
        }
    }

    /// The store, what is left of the lists, and why the run has stopped, if it has. The daemons end.
    pub fn close(self) -> (Hsm<D>, CallLists, Option<Stop>)
        ensures opened { N.opened ≡ Some result.0.opened }
        ensures kept { IsKept D.Disk result.0 }
        ensures served { WasRun N.limits result.2 result.0.history }
        ensures closed { result.0.files.failed ≡ closes result.2 }
        ensures made { AreMade (lacks result.2) N.lines result.1 result.0.history }
        ensures same { (result.0 ≡ self.system.store) × (result.1 ≡ self.lists) × (result.2 ≡ self.stop) }
    {
        let _ = self.system.history();
        (self.system.close(), self.lists, self.stop)
    }

    /// Starts the daemon. One that runs goes on as it is.
    pub fn start(&mut self, alloc: Global, daemon: Daemon)
        ensures started { self.new ≡ record self.old { system = started daemon self.old.system } }
        ensures deeds { Goes (Starts daemon ∷ []) self.old.system self.new.system }
    {
        self.system.start(alloc, daemon);
    }

    /// Makes the next call of the caller, as one event, unless an access of it waits. Where memory is wanting, or the disk fails, the run has stopped. One that
    /// has stays as it is.
    pub fn issue(&mut self, alloc: Global, caller: CallerId) -> Next
        ensures issues { Issues D.Disk caller result self.old self.new }
        ensures others { LeavesOthers caller self.old self.new }
    {
        if self.stop.is_some() {
            return Next::Ended;
        }
        if !self.system.is_idle(caller) {
            return Next::Waits;
        }
        let Some(call) = self.lists.next(caller) else {
            return Next::Ended;
        };
        let made = self.system.event(alloc, Event::Issue(caller, call));
        self.stop = stop_of(made);
        self.next_of(caller)
    }

    /// Resumes the caller's access where it may go on, as one event. Where memory is wanting, or the disk fails, the run has stopped. One that has stays as it
    /// is.
    pub fn resume(&mut self, alloc: Global, caller: CallerId) -> Next
        ensures { Resumes D.Disk caller result self.old self.new }
    {
        if self.stop.is_some() {
            return Next::Ended;
        }
        if !self.system.is_ready(caller) {
            return self.next_of(caller);
        }
        let made = self.system.event(alloc, Event::Resume(caller));
        self.stop = stop_of(made);
        self.next_of(caller)
    }

    /// What has come of the caller's last call.
    fn next_of(&self, caller: CallerId) -> Next
        ensures { result ≡ next_by self.now.stop (ready self.now.system.store caller) }
    {
        if self.stop.is_some() {
            Next::Ended
        } else if self.system.is_idle(caller) {
            Next::Made
        } else {
            Next::Waits
        }
    }

    /// Whether the caller's access may go on.
    pub fn is_ready(&self, caller: CallerId) -> bool
        ensures { IsTrue result ↔ (ready self.now.system.store caller ≡ Now) }
    {
        self.system.is_ready(caller)
    }

    /// Why the run has stopped, if it has.
    pub fn stop(&self) -> Option<Stop>
        ensures { result ≡ self.now.stop }
    {
        self.stop
    }

    /// Asks the daemon what it does next. Its call is made at once, as one event. What it is to copy or to fetch is given, to be performed with the lock free
    /// and told; until then it is asked in vain. Where memory is wanting, or the disk fails, the run has stopped. One that has stays as it is.
    pub fn ask(&mut self, alloc: Global, daemon: Daemon) -> Asked
        ensures { TakesStep D.Disk daemon result self.old self.new }
    {
        if self.stop.is_some() {
            return Asked::Nothing;
        }
        match take_step(alloc, &mut self.system, daemon) {
            Ok(asked) => asked,
            Err(why) => {
                self.stop = Some(why);
                Asked::Nothing
            }
        }
    }

    /// Tells the daemon what came of an act that was performed with the lock free, where it waits for that. Another outcome is dropped, and nothing is done.
    /// Whether it was told.
    pub fn tell(&mut self, daemon: Daemon, outcome: Outcome) -> bool
        requires { IsSo outcome }
        ensures told { IsTrue result ↔ IsAwaited daemon outcome self.old.system }
        ensures tells { Tells daemon outcome result self.old self.new }
    {
        self.system.take_in(daemon, outcome)
    }

    /// There was no memory for what the daemon waits for: it hears nothing of it, and its machine stays as it is, so that it may give the act again. The run
    /// has stopped, if it hadn't before.
    pub fn lack(&mut self, daemon: Daemon)
        ensures stopped { self.new.stop ≡ option_or self.old.stop (Some Stop.Memory) }
        ensures lost { Waits daemon self.old.system → self.new.system ≡ hearing daemon Nothing self.old.system }
        ensures kept { (Waits daemon self.old.system → ⊥) → self.new.system ≡ self.old.system }
        ensures deeds { GoesBy (LosesOf daemon) self.old.system self.new.system }
        ensures lists { self.new.lists ≡ self.old.lists }
    {
        self.system.lose(daemon);
        self.stop = self.stop.or(Some(Stop::Memory));
    }
}

/// Why the run stops at that event, if it does.
fn stop_of(made: Result<(), Stop>) -> Option<Stop>
    ensures { result ≡ stop_of made }
{
    made.err()
}
