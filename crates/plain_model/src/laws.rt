//! Laws over all histories, each the contract of a function that does nothing. A caller gets the law by a call.
ghost use Rattle.std.specs.Prelude.{ℕ, List};
ghost use Rattle.hsm_types.specs.declared.stores.Superblock.{Superblock};
ghost use Rattle.plain_model.specs.declared.entries.Entry.{Entry};
ghost use Rattle.plain_model.specs.Plain.{File};
ghost use Rattle.plain_model.specs.State.{Held};
ghost use Rattle.plain_model.specs.Synced.{SyncedLaws};
ghost use Rattle.plain_model.specs.Own.{OwnGrows};
ghost use Rattle.plain_model.specs.Laws.{BeginningIsRun, IsTransparent, RunIsGood, SeenIsOrderly, TellsAll};

/// The files of every legal history without a clash are those that were never moved.
pub fn transparent()
    ensures { (s : Superblock) (files : List File) (history : List Entry) → IsTransparent s files history }
{}

/// Where the disk tells what it holds a run is exact in its bytes too. No crate calls it yet.
pub fn tells_all()
    ensures { (s : Superblock) (base : ℕ) (opening : Held) (history : List Entry) → TellsAll s base opening history }
{}

/// On every disk a run uses each token once and keeps its tables in order. No crate calls it yet.
pub fn seen_is_orderly()
    ensures { (s : Superblock) (base : ℕ) (opening : Held) (history : List Entry) → SeenIsOrderly s base opening history }
{}

/// Every beginning of a run is a run. No crate calls it yet.
pub fn beginning_is_run()
    ensures { (s : Superblock) (base : ℕ) (opening : Held) (first rest : List Entry) → BeginningIsRun s base opening first rest }
{}

/// Every run is a good one.
pub fn run_is_good()
    ensures { (s : Superblock) (base : ℕ) (opening : Held) (history : List Entry) → RunIsGood s base opening history }
{}

/// Of every history the synced entries come first, and a sync or a commit adds all before it.
pub fn synced_grows()
    ensures { (history : List Entry) → SyncedLaws history }
{}

/// Of every history a caller's entries grow by those that are its own. No crate calls it yet.
pub fn own_grows()
    ensures { (caller : ℕ) (history : List Entry) (entry : Entry) → OwnGrows caller history entry }
{}
