//! A law on journals, the contract of a function that does nothing. A caller gets the law by a call.
ghost use Rattle.std.specs.Prelude.{◌≡◌, ◌<◌, ◌^◌, ℕ, List, Option, length};
ghost use Rattle.meta_journal.specs.declared.lists.Batch.{Batch};
ghost use Rattle.meta_journal.specs.Texts.{IsReading};

/// The bytes of a journal have one reading.
pub fn one_reading()
    ensures { (journal : List ℕ) (at number : ℕ) (batches others : List Batch) (used end : ℕ) (bad worse : Option ℕ) → length journal < 2 ^ 32
        → IsReading journal at number batches used bad → IsReading journal at number others end worse → (batches ≡ others) × (used ≡ end) × (bad ≡ worse) }
{}
