//! Laws over all histories, each the contract of a function that does nothing. A caller gets the law by a call.
ghost use Rattle.std.specs.Prelude.{ℕ, Bool, List};
ghost use Rattle.hsm_types.specs.declared.stores.Superblock.{Superblock};
ghost use Rattle.plain_model.specs.declared.entries.Action.{Action};
ghost use Rattle.plain_model.specs.declared.entries.Actor.{Actor};
ghost use Rattle.plain_model.specs.declared.entries.Answer.{Answer};
ghost use Rattle.plain_model.specs.declared.entries.Entry.{Entry};
ghost use Rattle.plain_model.specs.Plain.{File};
ghost use Rattle.plain_model.specs.State.{Held, State};
ghost use Rattle.seen_history.specs.Laws.{GoodWhereTold, OwnWhereTold, SeenIsGood, SeenWhereTold};

/// On every disk a run is legal but for bytes, and what the store keeps stands for the plain map but for bytes.
/// No crate calls it yet.
pub fn seen_is_good()
    ensures { (tells : Bool) (s : Superblock) (base : ℕ) (opening : Held) (history : List Entry) → SeenIsGood tells s base opening history }
{}

/// Where the disk tells what it holds that is what is said of a good run. No crate calls it yet.
pub fn good_where_told()
    ensures { (s : Superblock) (base : ℕ) (opening : Held) (history : List Entry) (files : List File) → GoodWhereTold s base opening history files }
{}

/// Where it tells files are seen just as they are held. No crate calls it yet.
pub fn seen_where_told()
    ensures { (held seen : Held) → SeenWhereTold held seen }
{}

/// Where it tells each answer is exact in its bytes too. No crate calls it yet.
pub fn own_where_told()
    ensures { (s : Superblock) (state : State) (actor : Actor) (action : Action) (answer : Answer) → OwnWhereTold s state actor action answer }
{}
