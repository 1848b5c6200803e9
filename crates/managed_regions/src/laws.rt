//! Laws on the regions of a file, each the contract of a function that does nothing. A caller gets the law by a call.
ghost use Rattle.std.specs.Prelude.{List};
ghost use Rattle.hsm_types.specs.declared.regions.Region.{Region};
ghost use Rattle.hsm_types.specs.declared.stores.Limits.{Limits};
ghost use Rattle.managed_regions.specs.Laws.{LawfulStandApart};

/// The regions of a lawful list are in order and share no byte.
pub fn lawful_stand_apart()
    ensures { (limits : Limits) (rs : List Region) → LawfulStandApart limits rs }
{}
