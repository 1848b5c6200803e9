//! A store with its daemons, and what each call of it does.
ghost use Rattle.std.specs.Prelude.{◌≡◌, ◌↔◌, ◌∷◌, [], true, false, IsTrue, None, IfOk, IfErr, IfSome, OnOk, OnErr, MatchOption};
ghost use Rattle.hsm_types.specs.Daemons.{MayPerform};
ghost use Rattle.hsm_types.specs.declared.daemons.Act.{Act as Acted};
ghost use Rattle.hsm_types.specs.declared.daemons.Heard.TheVariants.{Nothing};
ghost use Rattle.plain_model.specs.declared.entries.Action.TheVariants as action;
ghost use Rattle.plain_model.specs.declared.entries.Actor.TheVariants.{Caller, Session, Store as TheStore};
ghost use Rattle.migrate_daemon.specs.Machine.{IsWithin};
ghost use Rattle.hsm_core.specs.Kept.{IsKept};
ghost use Rattle.hsm_core.specs.Ready.{ready};
ghost use Rattle.hsm_core.specs.declared.store.Ready.TheVariants.{Idle, Now};
ghost use Rattle.deeds.specs.Deeds.{NamesNoFault, Gives, Hears, Kills, Loses, Refreshes, Starts};
ghost use Rattle.hsm_system.specs.Acts.{Answers, GivesNone, LacksMemory, MovesOn, StopsFor};
ghost use Rattle.hsm_system.specs.Asking.{MigrateIsRight, RecallIsRight};
ghost use Rattle.hsm_system.specs.Awaiting.{IsSo, awaited_by, awaited_of, heard_of};
ghost use Rattle.hsm_system.specs.Events.{IsDone, IsSafelyDone, action_of, actor_of};
ghost use Rattle.hsm_system.specs.Goes.{EndsIn, EntersBy, Goes, GoesBy, HearsOf, HearsReply, LosesOf};
ghost use Rattle.hsm_system.specs.Systems.{Awaits, IsAwaited, Rests, Waits, hearing, killed, refreshed, started};

use crate::awaited::Outcome;
use crate::daemons::{self, Running};
use crate::events::Event;
use crate::stops::{Stop, answered, served, told};
use disk_model::Disk;
use hsm_core::{Hsm, Ready};
use hsm_policy::Settings;
use hsm_types::{Act, Call, CallerId, Daemon, DmCall, Heard, Sid};
use migrate_daemon::Migrator;
use plain_model::Entry;
use recall_daemon::Recaller;
use std::alloc::Global;
use std::marker::Model;

/// A store with its daemons.
#[derive(Drop)]
pub struct System<D: Disk> {
    hsm: Hsm<D>,
    settings: Settings,
    recall: Option<Running<Recaller>>,
    migrate: Option<Running<Migrator>>,
}

impl<D: Disk> Model for System<D> {
    ghost use Rattle.hsm_system.specs.Systems.{System, IsSystem};

    ghost Value = { System D };

    ghost view = { λ s. record { store = s.hsm; limits = s.settings; recall = s.recall; migrate = s.migrate } };

    ghost invariant = { λ s. IsSystem (record { store = s.hsm; limits = s.settings; recall = s.recall; migrate = s.migrate }) };
}

impl<D: Disk> System<D> {
    /// The store may have any history. Neither daemon runs.
    pub fn new(hsm: Hsm<D>, settings: Settings) -> System<D>
        ensures { result ≡ record { store = hsm; limits = settings; recall = None; migrate = None } }
    {
        System {
            hsm,
            settings,
            recall: None,
            migrate: None,
        }
    }

    /// Hands out the store. The daemons end.
    pub fn close(self) -> Hsm<D>
        ensures { result ≡ self.store }
    {
        drop(self.recall);
        drop(self.migrate);
        self.hsm
    }

    /// The settings of the run.
    pub fn settings(&self) -> &Settings
        ensures { result.now ≡ self.now.limits }
    {
        &self.settings
    }

    /// The events since the store's opening.
    pub fn history(&self) -> &[Entry]
        ensures entries { result.now ≡ self.now.store.history }
        ensures kept { IsKept D.Disk self.now.store }
    {
        self.hsm.history()
    }

    /// Whether the caller's access may go on.
    pub fn is_ready(&self, caller: CallerId) -> bool
        ensures { IsTrue result ↔ (ready self.now.store caller ≡ Now) }
    {
        matches!(self.hsm.ready(caller), Ready::Now)
    }

    /// Whether no access of the caller waits.
    pub fn is_idle(&self, caller: CallerId) -> bool
        ensures { IsTrue result ↔ (ready self.now.store caller ≡ Idle) }
    {
        matches!(self.hsm.ready(caller), Ready::Idle)
    }

    /// Starts the daemon, which hears `Heard::Nothing` first. One that runs goes on as it is. It takes no memory.
    pub fn start(&mut self, alloc: Global, daemon: Daemon)
        ensures started { self.new ≡ started daemon self.old }
        ensures deeds { Goes (Starts daemon ∷ []) self.old self.new }
    {
        self.run(alloc, daemon);
    }

    fn run(&mut self, alloc: Global, daemon: Daemon)
        ensures { self.new ≡ started daemon self.old }
    {
        match daemon {
            Daemon::Recall => daemons::start(&mut self.recall, Recaller::start(alloc)),
            Daemon::Migrate => {
                daemons::start(&mut self.migrate, Migrator::start(alloc, &self.settings));
            }
        }
    }

    /// Ends the daemon where it is, with what it would have heard next. Its session stays. It takes no memory.
    pub fn kill(&mut self, daemon: Daemon)
        ensures killed { self.new ≡ killed daemon self.old }
        ensures deeds { Goes (Kills daemon ∷ []) self.old self.new }
    {
        self.end(daemon);
    }

    fn end(&mut self, daemon: Daemon)
        ensures { self.new ≡ killed daemon self.old }
    {
        match daemon {
            Daemon::Recall => daemons::set(&mut self.recall, None),
            Daemon::Migrate => daemons::set(&mut self.migrate, None),
        }
    }

    /// Migration may begin one pass by `high` from here on, by what it is told of the space from here on.
    pub fn refresh(&mut self)
        ensures refreshed { self.new ≡ refreshed self.old }
        ensures deeds { Goes (Refreshes ∷ []) self.old self.new }
    {
        self.freshen();
    }

    fn freshen(&mut self)
        ensures { self.new ≡ refreshed self.old }
    {
        daemons::refresh(&mut self.migrate);
    }

    /// Makes the event. `Stop::Disk` is answered exactly where the event was answered with a fault of the disk, also by a store that was closed before,
    /// which is left as it is. After `Stop::Memory` there is no entry. A response that is due, and the resume of an access that was aborted, want no memory.
    pub fn event(&mut self, alloc: Global, event: Event) -> Result<(), Stop>
        requires { NamesNoFault (action_of event) }
        ensures done { IsDone D.Disk (actor_of event) (action_of event) result self.old self.new }
        ensures keeps { IsSafelyDone D.Disk event result self.old.store self.new.store }
        ensures deeds { EntersBy (actor_of event) (action_of event) result self.old self.new }
    {
        self.make(alloc, event)
    }

    fn make(&mut self, alloc: Global, event: Event) -> Result<(), Stop>
        ensures done { IsDone D.Disk (actor_of event) (action_of event) result self.old self.new }
        ensures keeps { IsSafelyDone D.Disk event result self.old.store self.new.store }
    {
        match event {
            Event::Issue(caller, call) => self.issue(alloc, caller, call),
            Event::Resume(caller) => self.resume(alloc, caller),
            Event::Dm(sid, call) => self.dm(alloc, sid, call),
            Event::Commit => self.commit(alloc),
        }
    }

    fn issue(&mut self, alloc: Global, caller: CallerId, call: Call) -> Result<(), Stop>
        ensures done { IsDone D.Disk (Caller caller) (action.Issue call) result self.old self.new }
        ensures keeps { IsSafelyDone D.Disk (Event.Issue caller call) result self.old.store self.new.store }
    {
        answered(self.hsm.issue(alloc, caller, call))
    }

    fn resume(&mut self, alloc: Global, caller: CallerId) -> Result<(), Stop>
        ensures done { IsDone D.Disk (Caller caller) action.Resume result self.old self.new }
        ensures keeps { IsSafelyDone D.Disk (Event.Resume caller) result self.old.store self.new.store }
    {
        answered(self.hsm.resume(alloc, caller))
    }

    fn dm(&mut self, alloc: Global, sid: Sid, call: DmCall) -> Result<(), Stop>
        ensures done { IsDone D.Disk (Session sid) (action.Dm call) result self.old self.new }
        ensures keeps { IsSafelyDone D.Disk (Event.Dm sid call) result self.old.store self.new.store }
    {
        told(self.hsm.dm(alloc, sid, call))
    }

    fn commit(&mut self, alloc: Global) -> Result<(), Stop>
        ensures done { IsDone D.Disk TheStore action.Commit result self.old self.new }
        ensures keeps { IsSafelyDone D.Disk Event.Commit result self.old.store self.new.store }
    {
        answered(self.hsm.commit(alloc))
    }

    /// Asks the daemon what it does next: its machine hears what was kept for it, and gives an act, for which it waits from here on. One that doesn't run,
    /// or waits, gives none. Where memory is wanting, the machine stays as it was, and what it was to hear is lost.
    pub fn ask(&mut self, daemon: Daemon) -> Result<Option<Act>, Stop>
        ensures asked { IfOk result (λ given. MatchOption given (GivesNone daemon self.old × (self.new ≡ self.old)) (λ act. MovesOn daemon self.old act self.new)) }
        ensures may { IfOk result (λ given. IfSome given (λ act. MayPerform act)) }
        ensures lacks { IfErr result (λ why. LacksMemory daemon self.old why self.new) }
        ensures deeds { IfOk result (λ given. IfSome given (λ act. Goes (Gives daemon act ∷ []) self.old self.new × Awaits daemon act self.new)) }
        ensures lost { OnErr result (Goes (Loses daemon ∷ []) self.old self.new) }
    {
        self.next(daemon)
    }

    fn next(&mut self, daemon: Daemon) -> Result<Option<Act>, Stop>
        ensures asked { IfOk result (λ given. MatchOption given (GivesNone daemon self.old × (self.new ≡ self.old)) (λ act. MovesOn daemon self.old act self.new)) }
        ensures lacks { IfErr result (λ why. LacksMemory daemon self.old why self.new) }
    {
        match daemon {
            Daemon::Recall => daemons::ask(&mut self.recall),
            Daemon::Migrate => daemons::ask(&mut self.migrate),
        }
    }

    /// Makes the call that the daemon has given, as one event, and tells it the answer. Where the store stops the run, the daemon waits no more and hears
    /// nothing of it.
    pub fn call(
        &mut self,
        alloc: Global,
        daemon: Daemon,
        sid: Sid,
        call: DmCall,
    ) -> Result<(), Stop>
        requires { Awaits daemon (Act.Dm sid call) self.old }
        ensures answered { OnOk result (Answers D.Disk daemon sid call self.old self.new) }
        ensures stopped { IfErr result (λ why. StopsFor D.Disk daemon sid call why self.old self.new) }
        ensures deeds { OnOk result (HearsReply daemon sid call self.old self.new) }
        ensures ends { IfErr result (λ why. EndsIn daemon sid call why self.old self.new) }
    {
        self.call_for(alloc, daemon, sid, call)
    }

    fn call_for(
        &mut self,
        alloc: Global,
        daemon: Daemon,
        sid: Sid,
        call: DmCall,
    ) -> Result<(), Stop>
        requires { Awaits daemon (Act.Dm sid call) self.old }
        ensures answered { OnOk result (Answers D.Disk daemon sid call self.old self.new) }
        ensures stopped { IfErr result (λ why. StopsFor D.Disk daemon sid call why self.old self.new) }
    {
        match served(self.hsm.dm(alloc, sid, call)) {
            Ok(heard) => {
                self.tell(daemon, heard);
                Ok(())
            }
            Err(why) => {
                self.tell(daemon, Heard::Nothing);
                Err(why)
            }
        }
    }

    /// Takes in what came of an act that was performed outside, where the daemon waits for that: it hears it next. Else it is dropped. Whether it was taken.
    pub fn take_in(&mut self, daemon: Daemon, outcome: Outcome) -> bool
        requires { IsSo outcome }
        ensures awaited { IsTrue result ↔ IsAwaited daemon outcome self.old }
        ensures taken { result ≡ true → self.new ≡ hearing daemon (heard_of outcome) self.old }
        ensures dropped { result ≡ false → self.new ≡ self.old }
        ensures deeds { (act : Acted) → Awaits daemon act self.old → awaited_of act ≡ awaited_by outcome → Goes (Hears daemon act (heard_of outcome) ∷ []) self.old self.new }
        ensures goes { GoesBy (HearsOf daemon outcome) self.old self.new }
    {
        // Looked at for what is true of each system.
        let _ = &self.recall;
        self.hear(daemon, outcome)
    }

    fn hear(&mut self, daemon: Daemon, outcome: Outcome) -> bool
        ensures awaited { IsTrue result ↔ IsAwaited daemon outcome self.old }
        ensures taken { result ≡ true → self.new ≡ hearing daemon (heard_of outcome) self.old }
        ensures dropped { result ≡ false → self.new ≡ self.old }
    {
        let awaited = self.awaits(daemon, &outcome);
        if awaited {
            self.tell(daemon, outcome.heard());
        }
        awaited
    }

    /// Whether the daemon waits for it.
    fn awaits(&self, daemon: Daemon, outcome: &Outcome) -> bool
        ensures { IsTrue result ↔ IsAwaited daemon outcome.now self.now }
    {
        match daemon {
            Daemon::Recall => daemons::waits_for(&self.recall, &outcome.awaited()),
            Daemon::Migrate => daemons::waits_for(&self.migrate, &outcome.awaited()),
        }
    }

    /// What the daemon waits for won't come: it hears nothing of it. One that doesn't wait goes on as it is. Whether it waited.
    pub fn lose(&mut self, daemon: Daemon) -> bool
        ensures waited { IsTrue result ↔ Waits daemon self.old }
        ensures lost { result ≡ true → self.new ≡ hearing daemon Nothing self.old }
        ensures kept { result ≡ false → self.new ≡ self.old }
        ensures goes { GoesBy (LosesOf daemon) self.old self.new }
    {
        self.forget(daemon)
    }

    fn forget(&mut self, daemon: Daemon) -> bool
        ensures waited { IsTrue result ↔ Waits daemon self.old }
        ensures lost { result ≡ true → self.new ≡ hearing daemon Nothing self.old }
        ensures kept { result ≡ false → self.new ≡ self.old }
    {
        let waits = self.waits(daemon);
        if waits {
            self.tell(daemon, Heard::Nothing);
        }
        waits
    }

    /// Whether the daemon runs and waits.
    fn waits(&self, daemon: Daemon) -> bool
        ensures { IsTrue result ↔ Waits daemon self.now }
    {
        match daemon {
            Daemon::Recall => daemons::waits(&self.recall),
            Daemon::Migrate => daemons::waits(&self.migrate),
        }
    }

    /// The daemon, where it runs, hears this next.
    fn tell(&mut self, daemon: Daemon, heard: Heard)
        requires { daemon ≡ Daemon.Migrate → IsWithin heard }
        ensures { self.new ≡ hearing daemon heard self.old }
    {
        match daemon {
            Daemon::Recall => daemons::hear(&mut self.recall, heard),
            Daemon::Migrate => daemons::hear(&mut self.migrate, heard),
        }
    }

    /// Whether the daemon rests. One that doesn't run rests, and one that was just started.
    pub fn rests(&self, daemon: Daemon) -> bool
        ensures { IsTrue result ↔ Rests daemon self.now }
    {
        match daemon {
            Daemon::Recall => match &self.recall {
                Some(recalling) => recalling.machine.rests(),
                None => true,
            },
            Daemon::Migrate => match &self.migrate {
                Some(migrating) => migrating.machine.rests(),
                None => true,
            },
        }
    }

    /// What a daemon knows goes with the act that it gave last.
    pub fn asks(&self)
        ensures recall { RecallIsRight self.now.recall }
        ensures migrate { MigrateIsRight self.now.limits self.now.migrate }
    {
        let _ = &self.recall;
    }
}
