//! Laws over all deeds, each the contract of a function that does nothing. A caller gets the law by a call.
ghost use Rattle.std.specs.Prelude.{ℕ, List};
ghost use Rattle.hsm_types.specs.declared.daemons.Act.{Act};
ghost use Rattle.hsm_types.specs.declared.daemons.Daemon.{Daemon};
ghost use Rattle.hsm_types.specs.declared.daemons.Heard.{Heard};
ghost use Rattle.deeds.specs.Answers.{OnceAnswered, HearsLast};
ghost use Rattle.deeds.specs.Deeds.{Deed};
ghost use Rattle.deeds.specs.Faults.{HeardApart, AddsHeard, AddsNone, AddsBoth};
ghost use Rattle.deeds.specs.Given.{GivenExactly};
ghost use Rattle.deeds.specs.Leads.{LeadsOn, LeadsThrough, ServedOnce};
ghost use Rattle.deeds.specs.Lives.{Move, MovesAreDeeds};
ghost use Rattle.deeds.specs.KnownByMoves.{Knowing, StandsExactly};

use crate::machines::Machine;

/// Each move in the life of a daemon is that of one deed, with those before and behind it.
pub fn moves_are_deeds()
    ensures { (daemon : Daemon) (deeds : List Deed) → MovesAreDeeds daemon deeds }
{}

/// In each life of a daemon an answer is one to the act that was given last, and of each act there is one at most. What is heard next is the last that was
/// told.
pub fn once_answered<M: Machine>()
    ensures once { (moves : List Move) → OnceAnswered M.workings moves }
    ensures last { (moves : List Move) → HearsLast M.workings moves }
{}

/// So it is of either daemon in deeds by which both are served.
pub fn served_once<R: Machine, M: Machine>()
    ensures { (daemon : Daemon) (deeds : List Deed) → ServedOnce R.workings M.workings daemon deeds }
{}

/// What a daemon knows behind its moves is a fold over them, where its machine's knowledge goes on so with each step.
pub fn stands_exactly<M: Machine, K>()
    ensures { (view : M → K) (known : Knowing K) (moves : List Move) → StandsExactly M.workings view known moves }
{}

/// Which act each daemon gave last is told by deeds alone, and so is the history.
pub fn given_exactly<R: Machine, M: Machine>()
    ensures { (deeds : List Deed) → GivenExactly R.workings M.workings deeds }
{}

/// What holds behind deeds holds behind those that are done next.
pub fn leads_on<R: Machine, M: Machine>()
    ensures { (deeds more : List Deed) → LeadsOn R.workings M.workings deeds more }
{}

/// Deeds lead through what is behind the first of them.
pub fn leads_through<R: Machine, M: Machine>()
    ensures { (first rest : List Deed) → LeadsThrough R.workings M.workings first rest }
{}

/// Where deeds add their faults so, from the first on, those that were heard are apart.
pub fn faults_apart()
    ensures { (drives : ℕ) (deeds : List Deed) → HeardApart drives deeds }
{}

/// What is heard of an act on drives adds its fault so.
pub fn fault_added()
    ensures { (drives : ℕ) (daemon : Daemon) (asked : Act) (told : Heard) → AddsHeard drives daemon asked told }
{}

/// Deeds of which no fault is heard add none.
pub fn none_added()
    ensures { (drives : ℕ) (deeds : List Deed) → AddsNone drives deeds }
{}

/// Deeds behind others add their faults and those.
pub fn faults_added()
    ensures { (drives : ℕ) (deeds more : List Deed) → AddsBoth drives deeds more }
{}
