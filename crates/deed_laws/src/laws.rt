//! Laws over all deeds by which both daemons are served, each the contract of a function that does nothing. A caller gets the law by a call.
//! So each holds behind every one of them, between an act and what is heard of it too. A run is one on any disk, exact but for bytes, by which none goes.
ghost use Rattle.std.specs.Prelude.{ℕ, List};
ghost use Rattle.hsm_types.specs.declared.daemons.Daemon.{Daemon};
ghost use Rattle.hsm_types.specs.declared.keys.Token.{Token};
ghost use Rattle.hsm_types.specs.declared.stores.Superblock.{Superblock};
ghost use Rattle.plain_model.specs.State.{Held};
ghost use Rattle.hsm_policy.specs.Settings.{Numbers};
ghost use Rattle.deeds.specs.Deeds.{Deed};
ghost use Rattle.deed_laws.specs.Beginning.{ServedBeginsRight};
ghost use Rattle.deed_laws.specs.Caused.{ServedIsCaused};
ghost use Rattle.deed_laws.specs.DaemonSessions.{ServedMakesAnew, ServedTakesOver};
ghost use Rattle.deed_laws.specs.Keeping.{ServedKeepsAll, LosesNoAnswer};
ghost use Rattle.deed_laws.specs.Passes.{ServedPasses};
ghost use Rattle.deed_laws.specs.Telling.{ServedTellsOne};

/// The message of a token is the one that told of the event that a daemon keeps, and of the file that recall was given for it.
pub fn tells_one()
    ensures { (limits : Numbers) (s : Superblock) (base : ℕ) (opening : Held) (deeds : List Deed) → ServedTellsOne limits s base opening deeds }
{}

/// A daemon makes a session beside the others only where it was told all of them, none of which had its information then, and has asked for nothing anew
/// since.
pub fn makes_anew()
    ensures { (limits : Numbers) (s : Superblock) (base : ℕ) (opening : Held) (deeds : List Deed) → ServedMakesAnew limits s base opening deeds }
{}

/// A daemon takes the place of a session only where it was told, since it last asked for all of them, that this one has its information.
pub fn takes_over()
    ensures { (limits : Numbers) (deeds : List Deed) → ServedTakesOver limits deeds }
{}

/// The first act of a daemon asks for all sessions, and so does its next where its session is gone. It begins anew only so, or where it knows of no session.
pub fn begins_right()
    ensures { (limits : Numbers) (deeds : List Deed) → ServedBeginsRight limits deeds }
{}

/// Each act of a pass is one for the picks of its table, and a pass that is over has done with them.
pub fn all_passed()
    ensures { (limits : Numbers) (deeds : List Deed) → ServedPasses limits deeds }
{}

/// A daemon with a session keeps each event of its kinds that is outstanding to that session, but for those that lines took, and those of answers that are
/// lost.
pub fn keeps_all()
    ensures { (daemon : Daemon) (limits : Numbers) (s : Superblock) (base : ℕ) (opening : Held) (deeds : List Deed) → ServedKeepsAll daemon limits s base opening deeds }
{}

/// Each answer that names a fault of a medium is caused: its session was told, after the access was parked, that bytes of its file are away in that object.
pub fn is_caused()
    ensures { (limits : Numbers) (s : Superblock) (base : ℕ) (opening : Held) (deeds : List Deed) → ServedIsCaused limits s base opening deeds }
{}

/// Among deeds of which none is a loss no answer is lost, as among those that follow lines.
pub fn loses_no_answer()
    ensures { (daemon : Daemon) (deeds : List Deed) (token : Token) → LosesNoAnswer daemon deeds token }
{}
