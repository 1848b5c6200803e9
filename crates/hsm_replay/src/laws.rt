//! Laws over all histories and over all deeds, each the contract of a function that does nothing. A caller gets the law by a call.
ghost use Rattle.std.specs.Prelude.{Bool, List};
ghost use Rattle.deeds.specs.Deeds.{Deed};
ghost use Rattle.deeds.specs.Given.{Given};
ghost use Rattle.hsm_types.specs.declared.daemons.Daemon.{Daemon};
ghost use Rattle.plain_model.specs.declared.entries.Entry.{Entry};
ghost use Rattle.script_text.specs.declared.lines.Line.{Line};
ghost use Rattle.hsm_core.specs.Store.{Store};
ghost use Rattle.hsm_replay.specs.Deeds.{RunsOn};
ghost use Rattle.hsm_replay.specs.ReadyCallers.{MayGoOn};
ghost use Rattle.hsm_replay.specs.Lines.{FollowsSo, FollowsWhole};
ghost use Rattle.hsm_replay.specs.Parts.{FollowsOn, RunsByLines};
ghost use Rattle.hsm_replay.specs.Stopped.{StopsOn};
ghost use Rattle.hsm_policy.specs.Settings.{Numbers};
ghost use Rattle.marked_history.specs.Marks.{Mark};
ghost use Rattle.hsm_replay.specs.Sealed.{Tallies, SealsAreWhole};

use disk_model::Disk;
use media_model::Drive;

/// Over drives of a sure type no answer says that an object is damaged that a daemon has sealed with the wanted fingerprint.
pub fn seals_are_whole<M: Drive>()
    ensures { (opened drives : List M) (limits : Numbers) (marks : List Mark) → Tallies M.Drive opened drives limits marks → SealsAreWhole M.Drive marks }
{}

/// Deeds that follow lines, and behind them deeds that follow more, follow all of these.
pub fn follows_on<D: Disk>()
    ensures { (quiet : Entry → Bool) (s : Store D) (given : Given) (lines more : List Line) → FollowsOn quiet (MayGoOn s) given lines more }
{}

/// Deeds that follow lines, and behind them deeds at which a run was stopped in more of them, are deeds at which it was stopped in all of these.
pub fn stops_on<D: Disk>()
    ensures { (quiet : Entry → Bool) (s : Store D) (given : Given) (lines more : List Line) → StopsOn quiet (MayGoOn s) given lines more }
{}

/// Where deeds follow the lines the history does.
pub fn follows_so<D: Disk>()
    ensures { (quiet : Entry → Bool) (s : Store D) (lines : List Line) (deeds : List Deed) → FollowsSo quiet (MayGoOn s) lines deeds }
{}

/// In deeds that follow lines each entry is one behind which a run goes on, no call is broken, and nothing is lost.
pub fn follows_whole<D: Disk>()
    ensures { (quiet : Entry → Bool) (s : Store D) (lines : List Line) (deeds : List Deed) → FollowsWhole quiet (MayGoOn s) lines deeds }
{}

/// Which daemons run behind deeds that follow lines is told by the lines alone.
pub fn runs_by_lines<D: Disk>()
    ensures { (quiet : Entry → Bool) (s : Store D) (daemon : Daemon) (lines : List Line) → RunsByLines quiet (MayGoOn s) daemon lines }
{}

/// Deeds that lead from one run to another, and those that lead on from there, lead from the first to the last. What drives said of the first they go on to
/// say.
pub fn runs_on<D: Disk, M: Drive>()
    ensures { (deeds more : List Deed) → RunsOn M.Drive D deeds more }
{}
