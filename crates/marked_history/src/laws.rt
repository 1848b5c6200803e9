//! Laws over all histories, each the contract of a function that does nothing. A caller gets the law by a call.
//! A run is one on any disk, exact but for bytes, by which none of the laws goes.
ghost use Rattle.std.specs.Prelude.{ℕ, List};
ghost use Rattle.hsm_types.specs.declared.daemons.Daemon.{Daemon};
ghost use Rattle.hsm_types.specs.declared.stores.Superblock.{Superblock};
ghost use Rattle.plain_model.specs.declared.entries.Entry.{Entry};
ghost use Rattle.plain_model.specs.State.{Held};
ghost use Rattle.hsm_policy.specs.Settings.{Numbers};
ghost use Rattle.marked_history.specs.Marks.{Mark};
ghost use Rattle.marked_history.specs.Freeing.{PunchFrees};
ghost use Rattle.marked_history.specs.Tokens.{RequestIsGranted, ServedHoldsGranted, ServedKeepsAll};
ghost use Rattle.marked_history.specs.Settling.{SettledNoneWaits};
ghost use Rattle.marked_history.specs.Waiting.{Running, SettledWaits};

/// In each served run a daemon with a session keeps each event of its kinds that is outstanding to that session, but for those that lines of the script took.
pub fn served_keeps_all()
    ensures { (daemon : Daemon) (limits : Numbers) (s : Superblock) (base : ℕ) (opening : Held) (marks : List Mark) (history : List Entry) → ServedKeepsAll daemon limits s base opening marks history }
{}

/// In each served run a token that no line of the script has named holds all of each file on which it has a right, and recall was given that file for it.
pub fn served_holds_granted()
    ensures { (limits : Numbers) (s : Superblock) (base : ℕ) (opening : Held) (marks : List Mark) (history : List Entry) → ServedHoldsGranted limits s base opening marks history }
{}

/// In each run a request is answered busy only where the other token that is told has a right on the file that excludes the one asked for, and the token
/// that asks doesn't hold all of the file.
pub fn request_is_granted()
    ensures { (s : Superblock) (base : ℕ) (opening : Held) (history : List Entry) → RequestIsGranted s base opening history }
{}

/// In each run a punch that is answered done frees just the mapped blocks of the segments that it names.
pub fn punch_frees()
    ensures { (s : Superblock) (base : ℕ) (opening : Held) (history : List Entry) → PunchFrees s base opening history }
{}

/// In a served run at rest an access waits only where a foreign token's right blocks it or holds up its event, or where no running daemon may serve the event.
pub fn settled_waits()
    ensures { (running : Running) (limits : Numbers) (s : Superblock) (base : ℕ) (opening : Held) (marks : List Mark) (history : List Entry) → SettledWaits running limits s base opening marks history }
{}

/// In a served run that has settled, in which each call of a session is a daemon's own and both daemons run, no access waits.
pub fn settled_none_waits()
    ensures { (limits : Numbers) (s : Superblock) (base : ℕ) (opening : Held) (before part : List Mark) → SettledNoneWaits limits s base opening before part }
{}
