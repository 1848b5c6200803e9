//! The name of what lies under a lock.

use std::marker::Brand;

/// Names a store as it was opened, the table of the desk at which its events are published, and of a run the settings and the callers' lines. Contracts alone
/// read it.
pub trait Named<D> {
    ghost use Rattle.std.specs.Prelude.{ℕ, List, Option};
    ghost use Rattle.hsm_types.specs.declared.calls.Call.{Call};
    ghost use Rattle.hsm_policy.specs.Settings.{Numbers};
    ghost use Rattle.file_store.specs.Stores.{Store};
    ghost use Rattle.atomic_table.specs.Seated.{TableId};

    ghost opened: { Option (Store D) };

    ghost table: { TableId };

    ghost limits: { Numbers };

    ghost lines: { ℕ → List Call };
}

impl<D> Named<D> for Brand {
    ghost use Rattle.std.specs.Prelude.{[], None};
    ghost use Rattle.hsm_policy.specs.Settings.{standard};

    ghost opened = { None };

    ghost table = { record { words = 0; slots = 0; views_name = 0; atom = 0; block = 0; offset = 0; slot_names = [] } };

    ghost limits = { standard };

    ghost lines = { λ c. [] };
}
