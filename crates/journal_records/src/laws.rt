//! Laws on the texts of records, each the contract of a function that does nothing. A caller gets the law by a call.
ghost use Rattle.std.specs.Prelude.{ℕ, List};
ghost use Rattle.journal_records.specs.declared.records.Record.{Record};
ghost use Rattle.journal_records.specs.Laws.{IsOneRecord, IsOneList};

/// No text of a record is the beginning of another's.
pub fn one_record()
    ensures { (r s : Record) (a b : List ℕ) → IsOneRecord r s a b }
{}

/// The text of a list of records is that of no other list.
pub fn one_list()
    ensures { (rs ss : List Record) → IsOneList rs ss }
{}
