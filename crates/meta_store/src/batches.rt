//! Laws on batches of records, each the contract of a function that does nothing. A caller gets the law by a call.
ghost use Rattle.std.specs.Prelude.{ℕ, List};
ghost use Rattle.journal_records.specs.declared.records.Record.{Record};
ghost use Rattle.meta_store.specs.Meta.{Meta};
ghost use Rattle.snapshot_text.specs.Snapshots.{Snapshot};
ghost use Rattle.meta_store.specs.Laws.{IsTakenAsBatch, IsJudgedByChanges, AreJoined, IsJudgedAtItsEnd};

/// What `MetaStore::apply` takes is a batch, where it can be spelled, and makes of the files what the batch makes of what a snapshot says of them.
pub fn taken_as_batch()
    ensures { (old new : Meta) (rs : List Record) (number later : ℕ) → IsTakenAsBatch old new rs number later }
{}

/// What a batch leaves is judged by the files that its records are about, and by what is asked of all files together.
pub fn judged_by_changes()
    ensures { (geometry : ℕ) (s : Snapshot) (number : ℕ) (rs : List Record) → IsJudgedByChanges geometry s number rs }
{}

/// Two batches one behind the other are one.
pub fn batches_join()
    ensures { (geometry : ℕ) (s : Snapshot) (n m : ℕ) (rs ss : List Record) → AreJoined geometry s n m rs ss }
{}

/// What the records of a batch make of files is judged by what stands behind the last of them, and not by what stands in between.
pub fn judged_at_its_end()
    ensures { (places : List ℕ) → IsJudgedAtItsEnd places }
{}
