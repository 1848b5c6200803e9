//! What a text says, and what is picked of a table, is one thing.
ghost use Rattle.std.specs.Prelude.{◌≡◌, ℕ, List};
ghost use Rattle.hsm_types.specs.declared.tables.Table.{Table};
ghost use Rattle.hsm_policy.specs.declared.picking.Picked.{Picked};
ghost use Rattle.hsm_policy.specs.Settings.{Numbers};
ghost use Rattle.hsm_policy.specs.Documents.{IsTextOf};
ghost use Rattle.hsm_policy.specs.Picking.{IsPick};

/// A text says one list of settings at most.
pub fn one_settings()
    ensures { (text : List ℕ) (s t : Numbers) → IsTextOf text s → IsTextOf text t → s ≡ t }
{}

/// One list of segments is picked of a table.
pub fn one_pick()
    ensures { (table : Table) (low : ℕ) (a b : List Picked) → IsPick table low a → IsPick table low b → a ≡ b }
{}
