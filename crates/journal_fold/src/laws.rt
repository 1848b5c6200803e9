//! Laws on batches behind a store, each the contract of a function that does nothing. A caller gets the law by a call.
ghost use Rattle.std.specs.Prelude.{ℕ, ◌<◌, ◌^◌, List, length};
ghost use Rattle.meta_journal.specs.declared.lists.Batch.{Batch};
ghost use Rattle.snapshot_text.specs.Snapshots.{Snapshot};
ghost use Rattle.meta_store.specs.Catalogs.{Catalog};
ghost use Rattle.meta_store.specs.Images.{Place};
ghost use Rattle.journal_fold.specs.Laws.{HasOneFold, HasOneMeaning, HoldsOne, FoldsOneMore, FoldsLawfully, HoldsWithoutBatches};

/// Batches behind a store lead to one store, or fail at one place.
pub fn one_fold()
    ensures { (geometry : ℕ) (s : Snapshot) (bs : List Batch) → HasOneFold geometry s bs }
{}

/// So does a journal behind a snapshot.
pub fn one_meaning()
    ensures { (geometry : ℕ) (s : Snapshot) (at : ℕ) (journal : List ℕ) → length journal < 2 ^ 32 → HasOneMeaning geometry s at journal }
{}

/// An image of a store with a journal has one reading.
pub fn one_store()
    ensures { (image : List ℕ) → HoldsOne image }
{}

/// A batch more leads on from where those before it lead.
pub fn one_more_batch()
    ensures { (geometry : ℕ) (s t u : Snapshot) (bs : List Batch) (b : Batch) → FoldsOneMore geometry s t u bs b }
{}

/// Batches behind a lawful store lead to a lawful one.
pub fn lawful_fold()
    ensures { (geometry : ℕ) (s t : Snapshot) (bs : List Batch) → FoldsLawfully geometry s t bs }
{}

/// A store that was written without a journal holds what its snapshot says.
pub fn image_without_batches()
    ensures { (fsid : ℕ) (place : Place) (n : ℕ) (c : Catalog) (image : List ℕ) → HoldsWithoutBatches fsid place n c image }
{}
