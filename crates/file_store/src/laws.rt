//! Laws on what recovery finds on an image, and on the records of events, each the contract of a function that does nothing. A caller gets the law by a call.
ghost use Rattle.std.specs.Prelude.{ℕ, List};
ghost use Rattle.hsm_types.specs.Stubs.{Stubs};
ghost use Rattle.journal_records.specs.declared.records.Record.{Record};
ghost use Rattle.file_store.specs.Laws.{RecoversOne, FormattedIsEmpty};
ghost use Rattle.file_store.specs.Events.{IsFewAlone, IsFewRewritten, IsFewPunched, IsGreatest, FitsEach};
ghost use Rattle.file_store.specs.declared.rewrites.Rewrite.{Rewrite};

/// Recovery finds one thing on an image.
pub fn one_recovery()
    ensures { (image : List ℕ) → RecoversOne image }
{}

/// On an image that was just formatted recovery finds a store that holds nothing.
pub fn formatted_is_empty()
    ensures { (geometry : ℕ) (fsid : ℕ) (image : List ℕ) → FormattedIsEmpty geometry fsid image }
{}

/// No event has more bytes of records than a punch of the longest file, and an empty journal has room for each: for a record alone, for what a change of a
/// file's bytes is, and for a punch.
pub fn greatest_event()
    ensures alone { (r : Record) → IsFewAlone r }
    ensures rewritten { (ino : ℕ) (change : Rewrite) (size : ℕ) (stubs : Stubs) (places : List ℕ) (rs : List Record) → IsFewRewritten ino change size stubs places rs }
    ensures punched { (ino : ℕ) (stubs : Stubs) (segments : List ℕ) → IsFewPunched ino stubs segments }
    ensures greatest { (ino : ℕ) (stubs : Stubs) → IsGreatest ino stubs }
    ensures fits { (geometry : ℕ) (rs : List Record) → FitsEach geometry rs }
{}
